//! Values, paths and texts.

use crate::given::value_of;
use crate::outcome::{Outcome, Stop, of_error, of_text};
use handlebars::{
    Helper, JsonRender, JsonValue, Output, Path, PathAndJson, ScopedJson, StringOutput,
    StringWriter, escape_html, html_escape, log_record, no_escape, to_json, with_indent,
    write_indented,
};
use log::Level;
use std::alloc::{AllocError, Global};
use std::borrow::CowStr;
use std::collections::BTreeMap;
use std::io;
use std::io::{ErrorKind, Write};

/// A call for a path, a value or a text.
pub enum Call {
    ParsePath,
    ToJson,
    HtmlEscape,
    EscapeHtml,
    NoEscape,
    WithIndent,
    WriteIndented,
    WriteToOutput,
    WriteToWriter,
    OfList(ListCall),
}

/// A call that takes a list.
pub enum ListCall {
    Render,
    RenderScoped,
    RenderWithPath,
    Derive,
    LogRecord,
}

/// Returns the outcome of a call.
pub fn outcome(alloc: Global, call: &Call) -> Result<Outcome, Stop> {
    match call {
        Call::ParsePath => Ok(path(alloc)),
        Call::ToJson => converted(alloc),
        Call::HtmlEscape => Ok(of_text(html_escape(alloc, MARKED), ESCAPED)),
        Call::EscapeHtml => Ok(of_text(escape_html(alloc, MARKED), ESCAPED)),
        Call::NoEscape => Ok(of_text(no_escape(alloc, MARKED), MARKED)),
        Call::WithIndent => Ok(of_text(with_indent(alloc, LINES, "  "), INDENTED_LINES)),
        Call::WriteIndented => Ok(indented(alloc)),
        Call::WriteToOutput => Ok(to_output(alloc)),
        Call::WriteToWriter => Ok(to_writer(alloc)),
        Call::OfList(call) => of_list(alloc, call),
    }
}

const MARKED: &str = "<a href='x'>&`=\"_";

const ESCAPED: &str = "&lt;a href&#x3D;&#x27;x&#x27;&gt;&amp;&#x60;&#x3D;&quot;_";

const LIST: &str = r#"[1,[null,"a"],{"k":2}]"#;

const RENDERED: &str = "[1, [, a], [object]]";

const LINES: &str = "a\nb\n";

const INDENTED_LINES: &str = "a\n  b\n";

fn path(alloc: Global) -> Outcome {
    match Path::parse(alloc, "../a.[b c].0") {
        Ok(path) => Outcome::answer_if(path.raw() == "../a.[b c].0"),
        Err(error) => of_error(&error),
    }
}

fn converted(alloc: Global) -> Result<Outcome, Stop> {
    let expected = value_of(alloc, r#"[[1,null],"a"]"#)?;
    match to_json(alloc, &([Some(1u8), None], "a")) {
        Ok(value) => Ok(Outcome::answer_if(value == expected)),
        Err(AllocError) => Ok(Outcome::OutOfMemory),
    }
}

fn of_list(alloc: Global, call: &ListCall) -> Result<Outcome, Stop> {
    let value = value_of(alloc, LIST)?;
    of_value(alloc, call, &value)
}

fn of_value(alloc: Global, call: &ListCall, value: &JsonValue) -> Result<Outcome, Stop> {
    match call {
        ListCall::Render => Ok(of_text(value.render(alloc), RENDERED)),
        ListCall::RenderScoped => Ok(of_text(ScopedJson::Constant(value).render(alloc), RENDERED)),
        ListCall::RenderWithPath => Ok(with_path(alloc, value)),
        ListCall::Derive => Ok(derived(alloc, value)),
        ListCall::LogRecord => log_line(alloc, value),
    }
}

fn with_path(alloc: Global, value: &JsonValue) -> Outcome {
    let param = PathAndJson::new(None, ScopedJson::Constant(value));
    of_text(param.render(alloc), RENDERED)
}

fn derived(alloc: Global, value: &JsonValue) -> Outcome {
    match ScopedJson::Constant(value).into_derived(alloc) {
        Ok(derived) => Outcome::answer_if(derived.as_json() == Some(value)),
        Err(AllocError) => Outcome::OutOfMemory,
    }
}

// Returns the call `{{log a}}`, where `a` is this value.
fn log_call(alloc: Global, value: &JsonValue) -> Result<Helper<'_>, Stop> {
    let raw = String::from_str(alloc, "a")?;
    let params = vec![in alloc; PathAndJson::new(Some(raw), ScopedJson::Constant(value))]?;
    let (name, hash) = (CowStr::Borrowed("log"), BTreeMap::new(alloc));
    Ok(Helper::new(name, params, hash, None, None, None, false))
}

fn log_line(alloc: Global, value: &JsonValue) -> Result<Outcome, Stop> {
    let call = log_call(alloc, value)?;
    match log_record(alloc, &call) {
        Ok((level, text)) => {
            let line = text.as_str() == "a: [1, [, a], [object]]";
            Ok(Outcome::answer_if(line && level == Level::Info))
        }
        Err(error) => Ok(of_error(&error)),
    }
}

// ---- outputs: after a write error they hold a prefix, and the error is out of memory

fn of_write_error(answer: &io::Result<()>, held: &str, expected: &str) -> Outcome {
    match answer {
        Ok(()) => Outcome::answer_if(held == expected),
        Err(cause) => {
            Outcome::OutOfMemory.if_so(
                cause.kind() == ErrorKind::OutOfMemory && expected.starts_with(held),
            )
        }
    }
}

fn indented(alloc: Global) -> Outcome {
    let mut out = StringOutput::new(alloc);
    let answer = write_indented(LINES, "  ", &mut out);
    of_write_error(&answer, out.into_string().as_str(), INDENTED_LINES)
}

fn to_output(alloc: Global) -> Outcome {
    let mut out = StringOutput::new(alloc);
    let answer = write_twice(&mut out);
    of_write_error(&answer, out.into_string().as_str(), "abcdef")
}

fn write_twice(out: &mut StringOutput) -> io::Result<()> {
    out.write("abc")?;
    out.write("def")
}

fn to_writer(alloc: Global) -> Outcome {
    let mut writer = StringWriter::new(alloc);
    let answer = writer.write_all(b"abcdef");
    of_write_error(&answer, writer.into_string().as_str(), "abcdef")
}
