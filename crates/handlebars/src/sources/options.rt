//! Which files of a folder are templates.

ghost use Rattle.std.specs.Prelude.{◌≡◌, codes, false};
ghost use Rattle.handlebars.specs.Folder.{filter_of, has_end, has_first, is_taken, name_in};

/// Selects which files of a folder are templates: those whose path ends in `tpl_extension`. Files whose own name begins
/// with `.` or with `#` are taken only if `hidden` or `temporary` is set.
#[derive(Clone, Copy, Debug)]
pub struct DirectorySourceOptions<'a> {
    pub tpl_extension: &'a str,
    pub hidden: bool,
    pub temporary: bool,
}

impl Default for DirectorySourceOptions<'_> {
    fn default() -> Self
        ensures extension { result.tpl_extension.now ≡ codes ".hbs" }
        ensures hidden { result.hidden ≡ false }
        ensures temporary { result.temporary ≡ false }
    {
        DirectorySourceOptions {
            tpl_extension: ".hbs",
            hidden: false,
            temporary: false,
        }
    }
}

impl DirectorySourceOptions<'_> {
    // Whether the file at a path, with this own name, is a template.
    pub(crate) fn takes(&self, path: &str, name: &str) -> bool
        ensures { result ≡ is_taken (filter_of self.now) path.now name.now }
    {
        let is_hidden = has_first(name.as_bytes(), b'.');
        let is_temporary = has_first(name.as_bytes(), b'#');
        has_end(path, self.tpl_extension)
            && (self.hidden || !is_hidden)
            && (self.temporary || !is_temporary)
    }

    // The name of the template at a path below the folder.
    pub(crate) fn name_in<'p>(&self, below: &'p str) -> &'p str
        ensures { result.now ≡ name_in (filter_of self.now) below.now }
    {
        match below.strip_suffix(self.tpl_extension) {
            Some(name) => name,
            None => below,
        }
    }
}

fn has_end(text: &str, end: &str) -> bool
    ensures { result ≡ has_end text.now end.now }
{
    text.ends_with(end)
}

fn has_first(text: &[u8], byte: u8) -> bool
    ensures { result ≡ has_first byte text.now }
{
    match text.first() {
        Some(first) => *first == byte,
        None => false,
    }
}
