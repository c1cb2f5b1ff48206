//! What is written with no entities: texts in which no byte has one, and numbers.

ghost use Rattle.std.specs.Prelude.{◌≡◌, Bool, IsTrue, is_some};
ghost use Rattle.serde_json.specs.View.{number_view};
ghost use Rattle.handlebars_base.specs.Escape.{entity_of, escaped};
ghost use Rattle.handlebars_base.specs.Shown.{escaped_if};
ghost use Rattle.handlebars_base.specs.Values.{rendered_number};

use itoa::Buffer;
use serde_json::Number;

/// Returns whether no byte of a text has an entity.
#[inline(always)]
pub(crate) fn is_plain(bytes: &[u8]) -> bool
    ensures { IsTrue result → escaped bytes.now ≡ bytes.now }
{
    for at in 0..bytes.len() {
        if has_entity(bytes[at]) {
            return false;
        }
    }
    true
}

// Returns whether a byte has an entity. Each has an arm of its own: then the program tests them all at once.
#[inline(always)]
fn has_entity(byte: u8) -> bool
    ensures { result ≡ is_some (entity_of byte) }
{
    match byte {
        b'<' => true,
        b'>' => true,
        b'"' => true,
        b'&' => true,
        b'\'' => true,
        b'`' => true,
        b'=' => true,
        _ => false,
    }
}

/// Returns the text of a number. A number outside the range counts as null, which has none.
#[inline(always)]
pub(crate) fn number_text<'d>(number: &Number, digits: &'d mut Buffer) -> &'d str
    ensures { (entities : Bool) → escaped_if entities (rendered_number (number_view number.now)) ≡ result.now }
{
    if let Some(n) = number.as_u64() {
        digits.format(n)
    } else if let Some(n) = number.as_i64() {
        digits.format(n)
    } else {
        ""
    }
}
