//! The line that is being written.

ghost use Rattle.std.specs.Prelude.{◌≡◌, Bool};
ghost use Rattle.serde_json.specs.View.{view, number_view};
ghost use Rattle.handlebars_base.specs.Values.{rendered_number};
ghost use Rattle.handlebars_base.specs.Escape.{escaped};
ghost use Rattle.handlebars_scope.specs.LineView.{line_of};
ghost use Rattle.handlebars_scope.specs.LineState.{first_line, line_after, line_after_text, ends_line};
ghost use Rattle.handlebars_base.specs.Shown.{shown};

use handlebars_base::json::value::Json;
use serde_json::Number;

/// The state of the line that is being written: whether indentation goes before the next text, whether the last text
/// ended a line, and whether there was a text.
#[derive(Clone, Copy)]
pub struct LineState {
    pub before: bool,
    pub trailing: bool,
    pub produced: bool,
}

impl LineState {
    /// Returns the line that a rendering begins with.
    pub fn first() -> LineState
        ensures { line_of result ≡ first_line }
    {
        LineState {
            before: false,
            trailing: false,
            produced: false,
        }
    }

    /// Returns the line after a text that is written in it.
    #[inline(always)]
    pub fn after(self, text: &str) -> LineState
        ensures { line_of result ≡ line_after_text text.now (line_of self) }
    {
        if text.is_empty() {
            self
        } else {
            line_after(ends_line(text.as_bytes()))
        }
    }

    /// Returns the line after a value that is written in it. It doesn't depend on whether escaping is on.
    #[inline(always)]
    pub fn after_value(self, value: &Json) -> LineState
        ensures { (escapes : Bool) → line_of result ≡ line_after_text (shown escapes (view value.now)) (line_of self) }
    {
        match value {
            Json::Null => self,
            Json::Number(number) => self.after_number(number),
            // No entity ends a line.
            Json::String(text) => self.after(text.as_str()),
            Json::Bool(_) | Json::Array(_) | Json::Object(_) => line_after(false),
        }
    }

    // Returns the line after a number. A number outside the range writes nothing.
    #[inline(always)]
    fn after_number(self, number: &Number) -> LineState
        ensures { line_of result ≡ line_after_text (escaped (rendered_number (number_view number.now))) (line_of self) }
    {
        if number.is_f64() {
            self
        } else {
            line_after(false)
        }
    }
}

// Returns the line after a text, given whether the text ends a line.
#[inline(always)]
fn line_after(ends: bool) -> LineState
    ensures { line_of result ≡ line_after ends }
{
    LineState {
        before: ends,
        trailing: ends,
        produced: true,
    }
}

#[inline(always)]
fn ends_line(text: &[u8]) -> bool
    ensures { result ≡ ends_line text.now }
{
    match text {
        [.., last] => *last == b'\n' || *last == b'\r',
        [] => false,
    }
}
