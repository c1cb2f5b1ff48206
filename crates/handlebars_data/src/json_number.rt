//! The numbers of a JSON text.

ghost use Rattle.std.specs.Prelude.{◌≡◌, ◌==◌, ◌<◌, true, false, IfOk, IsTrue, List, is_none, length, option_map, slice_index};
ghost use Rattle.fast_float.specs.Text.{minus};
ghost use Rattle.json.specs.Token.{Token};
ghost use Rattle.serde_json.specs.Read.{number_of, number_from};
ghost use Rattle.serde_json.specs.View.{view, number_view};
ghost use Rattle.handlebars_data.specs.JsonReading.{done, stopped, number_reading};
ghost use Rattle.handlebars_data.specs.JsonText.{number_data};

use crate::json_text::Numbers;
use crate::json_value::{Fault, Stop};
use fast_float::Numeral;
use serde_json::{Number, Value};
use std::alloc::Global;

/// Returns what a number is as data, by its spelling.
pub fn read_number(alloc: Global, numbers: Numbers, text: &str) -> Result<Value, Stop>
    ensures ok { IfOk result (λ v. (rest : List Token) →
        number_reading numbers text.now (number_of text.now) rest ≡ done (view v) rest) }
    ensures stop { (why : Fault) (rest : List Token) → result ≡ Err (Stop.At why) →
        number_reading numbers text.now (number_of text.now) rest ≡ stopped why }
{
    let Some(number) = nearest_number(text.as_bytes()) else {
        return Err(Stop::At(Fault::NumberTooLarge));
    };
    if !number.is_f64() {
        return Ok(Value::Number(number));
    }
    match numbers {
        Numbers::Spelled => Ok(Value::String(String::from_str(alloc, text)?)),
        Numbers::Refused => Err(Stop::At(Fault::NumberNotInteger)),
    }
}

/// Whether a number is no data, by its spelling.
pub fn is_refused(spelling: &[u8], numbers: Numbers) -> bool
    ensures { result ≡ is_none (number_data numbers spelling.now) }
{
    match nearest_number(spelling) {
        None => true,
        Some(number) => match numbers {
            Numbers::Spelled => false,
            Numbers::Refused => number.is_f64(),
        },
    }
}

// The number that serde_json reads: an integer of 64 bits, or else the nearest float if it is finite.
#[tactic(auto, unfolding(serde_json::specs::Read::number_of))]
fn nearest_number(spelling: &[u8]) -> Option<Number>
    ensures { option_map number_view result ≡ number_of spelling.now }
{
    if begins_with_minus(spelling) {
        below_zero(&Numeral::scan(&spelling[1..]))
    } else {
        from_zero(&Numeral::scan(spelling))
    }
}

fn begins_with_minus(spelling: &[u8]) -> bool
    ensures minus { result ≡ (slice_index spelling.now 0 == minus) }
    ensures some { IsTrue result → 0 < length spelling.now }
{
    !spelling.is_empty() && spelling[0] == b'-'
}

fn from_zero(digits: &Numeral<'_>) -> Option<Number>
    ensures { option_map number_view result ≡ number_from false digits.now }
{
    match digits.to_u64() {
        Some(n) => Some(Number::from(n)),
        None => Number::from_f64(digits.to_float::<f64>(false)),
    }
}

// `-0` is a float.
fn below_zero(digits: &Numeral<'_>) -> Option<Number>
    ensures { option_map number_view result ≡ number_from true digits.now }
{
    match digits.to_i64(true) {
        Some(n) if n < 0 => Some(Number::from(n)),
        _ => Number::from_f64(digits.to_float::<f64>(true)),
    }
}
