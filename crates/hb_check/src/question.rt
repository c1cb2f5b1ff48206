//! What is checked.

/// The file of a template.
#[derive(Clone, Copy)]
pub struct File<'f> {
    /// The name under which the template is registered. If two files have one name, the later one is registered.
    pub name: &'f str,
    pub path: &'f str,
    pub text: &'f str,
}

/// What is asked of which templates.
#[derive(Clone, Copy)]
pub struct Question<'q, 'f> {
    pub files: &'q [File<'f>],
    /// The names of the templates that are rendered as pages. If there is none, those that no other template includes are.
    pub pages: &'q [&'f str],
    /// Whether the markup that templates write has to be fixed.
    pub markup: bool,
    /// Whether data has to stand only where it is harmless in HTML.
    pub html: bool,
}
