//! Reads a value from tokens, in one pass.

ghost use Rattle.std.specs.Prelude.{◌≡◌, ◌<◌, suc, length, IfOk, IfErr, OnOk};
ghost use Rattle.serde_json.specs.View.{view, items_view, members_view};
ghost use Rattle.handlebars_data.specs.JsonReading.{done, stopped, value_from, all_items, all_members};

use crate::json_number::read_number;
use crate::json_text::Numbers;
use json::{Invalid, Reader, Token};
use serde_json::{Map, Value};
use std::alloc::{AllocError, AllocFailed, Global};

/// How deep arrays and objects may nest.
pub const MAX_DEPTH: usize = 127;

/// Why a text is no data.
#[derive(Clone, Copy, Drop)]
pub enum Fault {
    NotJson,
    TooDeep,
    NumberTooLarge,
    NumberNotInteger,
}

/// Why a reading stops.
#[derive(Clone, Copy, Drop)]
pub enum Stop {
    OutOfMemory,
    At(Fault),
}

impl From<Fault> for Stop {
    ghost use Rattle.std.specs.Prelude.{◌≡◌};
    ghost use Rattle.handlebars_data.specs.declared.json_value.Stop.TheVariants.{At};

    ghost from_gives = { λ why stop. stop ≡ At why };

    fn from(why: Fault) -> Stop {
        Stop::At(why)
    }
}

impl From<Invalid> for Stop {
    ghost use Rattle.std.specs.Prelude.{◌≡◌};
    ghost use Rattle.handlebars_data.specs.declared.json_value.Fault.TheVariants.{NotJson};
    ghost use Rattle.handlebars_data.specs.declared.json_value.Stop.TheVariants.{At};

    ghost from_gives = { λ _ stop. stop ≡ At NotJson };

    fn from(_invalid: Invalid) -> Stop {
        Stop::At(Fault::NotJson)
    }
}

impl From<AllocError> for Stop {
    ghost use Rattle.std.specs.Prelude.{◌≡◌};
    ghost use Rattle.handlebars_data.specs.declared.json_value.Stop.TheVariants.{OutOfMemory};

    ghost from_gives = { λ _ stop. stop ≡ OutOfMemory };

    fn from(_e: AllocError) -> Stop {
        Stop::OutOfMemory
    }
}

impl<T: Drop> From<AllocFailed<T>> for Stop {
    ghost use Rattle.std.specs.Prelude.{◌≡◌};
    ghost use Rattle.handlebars_data.specs.declared.json_value.Stop.TheVariants.{OutOfMemory};

    ghost from_gives = { λ _ stop. stop ≡ OutOfMemory };

    fn from(_e: AllocFailed<T>) -> Stop {
        Stop::OutOfMemory
    }
}

/// Reads the next value of the reader, in which arrays and objects nest no deeper than `depth`.
#[cycle(value)]
pub fn read_value(
    alloc: Global,
    numbers: Numbers,
    reader: &mut Reader<'_>,
    depth: usize,
) -> Result<Value, Stop>
    ensures ok { IfOk result (λ v. value_from numbers depth reader.old ≡ done (view v) reader.new) }
    ensures stop { (why : Fault) → result ≡ Err (Stop.At why) → value_from numbers depth reader.old ≡ stopped why }
    ensures memory { result ≡ Err Stop.OutOfMemory → 0 < length reader.old }
    ensures shorter { OnOk result (length reader.new < length reader.old) }
{
    let token = reader.next().ok_or(Fault::NotJson)?;
    match token {
        Token::String(text) => Ok(Value::String(String::from_str(alloc, text)?)),
        Token::Number(text) => read_number(alloc, numbers, text),
        Token::Bool(b) => Ok(Value::Bool(b)),
        Token::Null => Ok(Value::Null),
        Token::BeginArray => {
            let depth = depth_within(depth)?;
            Ok(Value::Array(read_items(alloc, numbers, reader, depth)?))
        }
        Token::BeginObject => {
            let depth = depth_within(depth)?;
            Ok(Value::Object(read_members(alloc, numbers, reader, depth)?))
        }
        Token::EndObject | Token::EndArray | Token::Key(_) | Token::Bad => Err(Stop::At(
            Fault::NotJson,
        )),
    }
}

// How deep the values of an array or an object may nest.
fn depth_within(depth: usize) -> Result<usize, Stop>
    ensures ok { IfOk result (λ d. depth ≡ suc d) }
    ensures stop { IfErr result (λ e. (depth ≡ 0) × (e ≡ Stop.At Fault.TooDeep)) }
{
    if depth == 0 {
        Err(Stop::At(Fault::TooDeep))
    } else {
        Ok(depth - 1)
    }
}

// The items after `[`, up to its `]`.
#[cycle(value)]
fn read_items(
    alloc: Global,
    numbers: Numbers,
    reader: &mut Reader<'_>,
    depth: usize,
) -> Result<Vec<Value>, Stop>
    ensures ok { IfOk result (λ found. all_items (value_from numbers depth) reader.old ≡ done (items_view found.items) reader.new) }
    ensures stop { (why : Fault) → result ≡ Err (Stop.At why) → all_items (value_from numbers depth) reader.old ≡ stopped why }
    ensures shorter { OnOk result (length reader.new < length reader.old) }
{
    let mut found = Vec::new(alloc);
    'items: while !reader.take_end_array() {
        found.push(read_value(alloc, numbers, reader, depth)?)?;
    }
    Ok(found)
}

// The members after `{`, up to its `}`. The last value of a key stays.
#[cycle(value)]
fn read_members(
    alloc: Global,
    numbers: Numbers,
    reader: &mut Reader<'_>,
    depth: usize,
) -> Result<Map<String, Value>, Stop>
    ensures ok { IfOk result (λ found. all_members (value_from numbers depth) reader.old ≡ done (members_view found.entries) reader.new) }
    ensures stop { (why : Fault) → result ≡ Err (Stop.At why) → all_members (value_from numbers depth) reader.old ≡ stopped why }
    ensures shorter { OnOk result (length reader.new < length reader.old) }
{
    let mut found = Map::new(alloc);
    'members: while let Some(key) = reader.next_key()? {
        let key = String::from_str(alloc, key)?;
        let value = read_value(alloc, numbers, reader, depth)?;
        drop(found.insert(key, value)?);
    }
    Ok(found)
}
