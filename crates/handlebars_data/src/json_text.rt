//! Reads JSON as it is written.

ghost use Rattle.std.specs.Prelude.{◌≡◌, ◌<◌, false, length, None, Some, IfErr, IfOk};
ghost use Rattle.serde_json.specs.View.{view};
ghost use Rattle.serde_json.specs.Written.{has_float};
ghost use Rattle.handlebars_data.specs.Errors.{IsMemory, LiesIn, kind_of};
ghost use Rattle.handlebars_data.specs.JsonFaults.{Explains, Shows};
ghost use Rattle.handlebars_data.specs.JsonText.{text_data};

use crate::error::{DataError, DataErrorKind};
use crate::expected::first_misfit;
use crate::json_value::{Fault, MAX_DEPTH, Stop, read_value};
use json::{Reader, Scratch};
use serde_json::Value;
use std::alloc::Global;

/// What becomes of a number that is no integer of 64 bits, as `12.50`, `1e3`, `-0` and `18446744073709551616`.
#[derive(Clone, Copy, Drop)]
pub enum Numbers {
    /// It becomes the text of its spelling.
    Spelled,
    /// It is an error.
    Refused,
}

/// Reads a JSON text (RFC 8259) as it is written: the data that `serde_json` reads, but each number that is no integer of 64
/// bits is the text of its spelling, or an error. So no float is read.
///
/// If a key comes more than once in an object, its last value stays.
///
/// # Errors
///
/// Fails where `serde_json` does: if the text is no JSON, if arrays and objects nest deeper than 127, or if no finite float is
/// near a number, as `1e999`. Also fails at a number that is no integer of 64 bits, if `numbers` is `Refused`. The error has the
/// position of the first such place. Fails without a position if memory runs out.
///
/// Runs in time linear in the text, apart from the look-up of keys.
pub fn read_json(alloc: Global, text: &str, numbers: Numbers) -> Result<Value, DataError>
    ensures ok { IfOk result (λ v. text_data numbers text.now ≡ Some (view v)) }
    ensures no_float { IfOk result (λ v. has_float (view v) ≡ false) }
    ensures refused { IfErr result (λ e. ¬ IsMemory e → text_data numbers text.now ≡ None) }
    ensures reason { IfErr result (λ e. Explains numbers text.now (kind_of e)) }
    ensures position { IfErr result (λ e. ¬ IsMemory e → LiesIn text.now e) }
{
    let mut scratch = Scratch::new(alloc);
    match read_whole(alloc, text, numbers, &mut scratch) {
        Ok(value) => Ok(value),
        Err(Stop::OutOfMemory) => Err(DataError::without_position(DataErrorKind::OutOfMemory)),
        Err(Stop::At(fault)) => Err(error_of(fault, text.as_bytes(), numbers)),
    }
}

// The one value of a text.
fn read_whole(
    alloc: Global,
    text: &str,
    numbers: Numbers,
    scratch: &mut Scratch,
) -> Result<Value, Stop>
    ensures ok { IfOk result (λ v. text_data numbers text.now ≡ Some (view v)) }
    ensures refused { (why : Fault) → result ≡ Err (Stop.At why) → text_data numbers text.now ≡ None }
    ensures reason { (why : Fault) → result ≡ Err (Stop.At why) → Shows numbers text.now why }
    ensures memory { result ≡ Err Stop.OutOfMemory → 0 < length text.now }
{
    let mut reader = Reader::new(text, scratch)?;
    let value = read_value(alloc, numbers, &mut reader, MAX_DEPTH)?;
    match reader.next() {
        None => Ok(value),
        Some(_) => Err(Stop::At(Fault::NotJson)),
    }
}

// The error of a fault, at the place where a second look finds it.
fn error_of(fault: Fault, text: &[u8], numbers: Numbers) -> DataError
    ensures reason { Shows numbers text.now fault → Explains numbers text.now (kind_of result) }
    ensures position { LiesIn text.now result }
    ensures memory { ¬ IsMemory result }
{
    let misfit = first_misfit(text, numbers);
    let kind = match fault {
        Fault::NotJson => DataErrorKind::Expected(misfit.expected),
        Fault::TooDeep => DataErrorKind::TooDeep,
        Fault::NumberTooLarge => DataErrorKind::NumberTooLarge,
        Fault::NumberNotInteger => DataErrorKind::NumberNotInteger,
    };
    DataError::at(kind, text, misfit.offset)
}
