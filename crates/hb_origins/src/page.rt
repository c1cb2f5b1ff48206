//! The page of html that pieces are printed as.

mod look;

use handlebars::{
    FullPath, Origin, RenderError, RenderErrorReason, TemplateReference, WriteOutput,
};
use handlebars_base::support::write_escaped;
use look::{HEAD, LEGEND, PANEL, POLICY, POLICY_END, SCRIPT, SCRIPT_HASH, STYLE, STYLE_HASH};
use std::io;
use std::io::Write;

/// Appends the page up to the pieces. `first` is printed as the name of the rendered template.
pub fn add_begin(gathered: &mut Vec<u8>, first: &str) -> io::Result<()> {
    for part in [HEAD, STYLE_HASH, POLICY, SCRIPT_HASH, POLICY_END] {
        add_plain(gathered, part)?;
    }
    add_escaped(gathered, first)?;
    for part in ["</title>\n<style>", STYLE, "</style>\n<script>", SCRIPT] {
        add_plain(gathered, part)?;
    }
    add_plain(gathered, "</script>\n</head>\n<body>\n<h1>Origins of ")?;
    add_escaped(gathered, first)?;
    add_plain(gathered, LEGEND)
}

/// Appends the page after the pieces, with the error that ended the rendering, if one did. If memory runs out for the error,
/// the page ends without it. `first` is as in `add_begin`.
pub fn add_end(gathered: &mut Vec<u8>, first: &str, cause: Option<&RenderError>) -> io::Result<()> {
    add_plain(gathered, PANEL)?;
    let len = gathered.len();
    let reported = match cause {
        Some(cause) => add_error(gathered, first, cause),
        None => Ok(()),
    };
    if reported.is_err() {
        gathered.truncate(len);
    }
    add_plain(gathered, "</body>\n</html>\n").and(reported)
}

fn add_error(gathered: &mut Vec<u8>, first: &str, cause: &RenderError) -> io::Result<()> {
    let alloc = *gathered.allocator();
    let template = match &cause.template_name {
        Some(name) => name.as_str(),
        None => first,
    };
    match cause.reason() {
        RenderErrorReason::TemplateError(cause) => {
            let reason = cause.reason();
            let text = format!(in alloc; "{reason}")?;
            add_box(gathered, template, cause.pos(), text.as_str())
        }
        reason => {
            let text = format!(in alloc; "{reason}")?;
            add_box(gathered, template, position_of(cause), text.as_str())
        }
    }
}

fn position_of(cause: &RenderError) -> Option<(usize, usize)> {
    match (cause.line_no, cause.column_no) {
        (Some(line), Some(column)) => Some((line, column)),
        _ => None,
    }
}

// As `item, line 1, column 4: Helper not found x`.
fn add_box(
    gathered: &mut Vec<u8>,
    template: &str,
    position: Option<(usize, usize)>,
    reason: &str,
) -> io::Result<()> {
    add_plain(gathered, "<div class=\"error\">")?;
    add_escaped(gathered, template)?;
    if let Some((line, column)) = position {
        add_number(gathered, ", line ", line)?;
        add_number(gathered, ", column ", column)?;
    }
    add_plain(gathered, ": ")?;
    add_escaped(gathered, reason)?;
    add_plain(gathered, "</div>\n")
}

/// Appends a piece, with a description of its origin as a tooltip. When memory runs out, nothing of it is appended.
pub fn add_piece(
    gathered: &mut Vec<u8>,
    first: &str,
    text: &str,
    origin: &Origin<'_>,
) -> io::Result<()> {
    let len = gathered.len();
    let answer = add_span(gathered, first, text, origin);
    if answer.is_err() {
        gathered.truncate(len);
    }
    answer
}

fn add_span(
    gathered: &mut Vec<u8>,
    first: &str,
    text: &str,
    origin: &Origin<'_>,
) -> io::Result<()> {
    add_plain(gathered, "<span class=\"")?;
    add_plain(gathered, origin.kind.name())?;
    if is_blank(text) {
        add_plain(gathered, " blank")?;
    }
    add_plain(gathered, "\" tabindex=\"0\"")?;
    add_template_name(gathered, first, origin.location.template)?;
    add_plain(gathered, " title=\"")?;
    add_origin(gathered, first, origin)?;
    add_plain(gathered, "\">")?;
    add_escaped(gathered, text)?;
    add_plain(gathered, "</span>")
}

// The name by which the script tells templates apart. An inline partial has none.
fn add_template_name(
    gathered: &mut Vec<u8>,
    first: &str,
    template: TemplateReference<'_>,
) -> io::Result<()> {
    let name = match template {
        TemplateReference::First => first,
        TemplateReference::Included(Some(name)) => name,
        TemplateReference::Included(None) => return Ok(()),
    };
    add_plain(gathered, " data-template=\"")?;
    add_escaped(gathered, name)?;
    add_plain(gathered, "\"")
}

// A newline alone would take no space on the page.
fn is_blank(text: &str) -> bool {
    text.bytes().all(|byte| byte.is_ascii_whitespace())
}

// As `value of a.0.name: item, line 1, column 1, turn 0, 1`.
fn add_origin(gathered: &mut Vec<u8>, first: &str, origin: &Origin<'_>) -> io::Result<()> {
    add_plain(gathered, origin.kind.name())?;
    if let Some(path) = origin.path {
        add_path(gathered, path)?;
    }
    add_plain(gathered, ": ")?;
    add_template(gathered, first, origin.location.template)?;
    if let Some(position) = origin.location.position {
        add_number(gathered, ", line ", position.0)?;
        add_number(gathered, ", column ", position.1)?;
    }
    add_iterations(gathered, origin.location.iterations)
}

fn add_path(gathered: &mut Vec<u8>, path: FullPath<'_>) -> io::Result<()> {
    let names = path.copied(*gathered.allocator())?;
    add_names(gathered, names.as_slice())
}

fn add_names(gathered: &mut Vec<u8>, names: &[String]) -> io::Result<()> {
    if names.is_empty() {
        return add_plain(gathered, " of the data");
    }
    let mut before = " of ";
    for name in names {
        add_plain(gathered, before)?;
        add_escaped(gathered, name.as_str())?;
        before = ".";
    }
    Ok(())
}

fn add_template(
    gathered: &mut Vec<u8>,
    first: &str,
    template: TemplateReference<'_>,
) -> io::Result<()> {
    match template {
        TemplateReference::First => add_escaped(gathered, first),
        TemplateReference::Included(Some(name)) => add_escaped(gathered, name),
        TemplateReference::Included(None) => add_plain(gathered, "an inline partial"),
    }
}

fn add_iterations(gathered: &mut Vec<u8>, iterations: &[usize]) -> io::Result<()> {
    let mut before = ", turn ";
    for iteration in iterations {
        add_number(gathered, before, *iteration)?;
        before = ", ";
    }
    Ok(())
}

// A carriage return is written by its number, since a browser would read it as a newline. A NUL, which no page can hold, is
// replaced by the replacement character.
fn add_escaped(gathered: &mut Vec<u8>, text: &str) -> io::Result<()> {
    for part in text.split_inclusive(is_lost) {
        match part.strip_suffix(is_lost) {
            Some(prefix) => {
                write_escaped(&mut WriteOutput::new(gathered), prefix)?;
                let number = if part.ends_with('\r') {
                    "&#13;"
                } else {
                    "&#xFFFD;"
                };
                add_plain(gathered, number)?;
            }
            None => write_escaped(&mut WriteOutput::new(gathered), part)?,
        }
    }
    Ok(())
}

fn is_lost(c: char) -> bool {
    c == '\r' || c == '\0'
}

fn add_number(gathered: &mut Vec<u8>, before: &str, number: usize) -> io::Result<()> {
    write!(gathered, "{before}{number}")
}

fn add_plain(gathered: &mut Vec<u8>, text: &str) -> io::Result<()> {
    gathered.extend_from_slice(text.as_bytes())?;
    Ok(())
}
