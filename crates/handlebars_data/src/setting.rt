//! Members that a command line sets: `KEY=VALUE` and `KEY:=JSON`.

ghost use Rattle.std.specs.Prelude.{◌≡◌, List, ℕ, None, Err, MatchResult, OnErr, OnOk, string_bytes};
ghost use Rattle.serde_json.specs.Data.{Data, Members, object, string};
ghost use Rattle.serde_json.specs.Find.{as_object};
ghost use Rattle.serde_json.specs.View.{view};
ghost use Rattle.handlebars_data.specs.Setting.{IsFaultOf, empty_key, json_under, no_equals, not_json, setting, sets, under, with_member};
ghost use Rattle.handlebars_data.specs.JsonText.{text_data};

use crate::error::DataError;
use crate::json_text::{Numbers, read_json};
use crate::members::put;
use serde_json::Value;
use std::alloc::{AllocError, Global};
use std::fmt;

/// Why a word of a command line sets no member.
#[derive(Drop)]
pub enum SettingError {
    /// The word has no `=`.
    NoEquals,
    /// Nothing stands before the `=`.
    EmptyKey,
    /// What follows `:=` is no JSON. The position is within what follows.
    NotJson(DataError),
    /// The data is no object.
    NotAnObject,
    OutOfMemory,
}

impl fmt::Display for SettingError {
    fn fmt<W: fmt::Write>(&self, f: &mut fmt::Formatter<W>) -> fmt::Result {
        match self {
            SettingError::NoEquals => f.write_str("expected `KEY=VALUE` or `KEY:=JSON`"),
            SettingError::EmptyKey => f.write_str("expected a key before `=`"),
            SettingError::NotJson(cause) => write!(f, "{cause}"),
            SettingError::NotAnObject => f.write_str("the data is not an object"),
            SettingError::OutOfMemory => f.write_str("out of memory"),
        }
    }
}

impl fmt::Debug for SettingError {
    fn fmt<W: fmt::Write>(&self, f: &mut fmt::Formatter<W>) -> fmt::Result {
        write!(f, "SettingError({self})")
    }
}

impl std::error::Error for SettingError {}

impl From<AllocError> for SettingError {
    ghost use Rattle.std.specs.Prelude.{◌≡◌};
    ghost use Rattle.handlebars_data.specs.declared.setting.SettingError.TheVariants.{OutOfMemory};

    ghost from_gives = { λ _ e. e ≡ OutOfMemory };

    fn from(_e: AllocError) -> SettingError {
        SettingError::OutOfMemory
    }
}

impl From<DataError> for SettingError {
    ghost use Rattle.handlebars_data.specs.Setting.{IsCausedBy};

    ghost from_gives = { IsCausedBy };

    fn from(cause: DataError) -> SettingError {
        if cause.is_memory() {
            SettingError::OutOfMemory
        } else {
            SettingError::NotJson(cause)
        }
    }
}

/// Sets a member of an object by a word: `KEY=VALUE` sets it to the text VALUE, and `KEY:=JSON` to the value of the JSON text,
/// which is read as [`read_json`] reads it. KEY is what stands before the first `=`, or before `:=` if that `=` follows a `:`. A
/// member with the key is replaced.
///
/// # Errors
///
/// Fails with `NoEquals` if the word has no `=`, with `EmptyKey` if no key stands before it, with `NotJson` if no JSON text
/// follows `:=`, with `NotAnObject` if the data is no object, and with `OutOfMemory`. The data is then unchanged.
pub fn set(
    alloc: Global,
    base: &mut Value,
    word: &str,
    numbers: Numbers,
) -> Result<(), SettingError>
    ensures ok { OnOk result ((key : List ℕ) × (d : Data) × (ms : Members) × (setting numbers word.now ≡ sets key d)
        × (view base.old ≡ object ms) × (view base.new ≡ with_member key d ms)) }
    ensures no_equals { result ≡ Err SettingError.NoEquals → setting numbers word.now ≡ no_equals }
    ensures empty_key { result ≡ Err SettingError.EmptyKey → setting numbers word.now ≡ empty_key }
    ensures not_json { (e : _) → result ≡ Err (SettingError.NotJson e) → setting numbers word.now ≡ not_json }
    ensures not_an_object { result ≡ Err SettingError.NotAnObject → as_object (view base.old) ≡ None }
    ensures unchanged { OnErr result (view base.new ≡ view base.old) }
{
    let (key, value) = read_setting(alloc, word, numbers)?;
    match base.as_object_mut() {
        Some(members) => Ok(put(members, key, value)?),
        None => Err(SettingError::NotAnObject),
    }
}

// Reads the key and the value that a word sets.
fn read_setting(
    alloc: Global,
    word: &str,
    numbers: Numbers,
) -> Result<(String, Value), SettingError>
    ensures { MatchResult result (λ m. setting numbers word.now ≡ sets (string_bytes m.0) (view m.1)) (IsFaultOf (setting numbers word.now)) }
{
    match word.split_once('=') {
        Some((before, after)) => match before.strip_suffix(':') {
            Some(key) => json_member(alloc, key, after, numbers),
            None => text_member(alloc, before, after),
        },
        None => Err(SettingError::NoEquals),
    }
}

fn text_member(alloc: Global, key: &str, text: &str) -> Result<(String, Value), SettingError>
    ensures { MatchResult result (λ m. under key.now (string text.now) ≡ sets (string_bytes m.0) (view m.1)) (IsFaultOf (under key.now (string text.now))) }
{
    if key.is_empty() {
        return Err(SettingError::EmptyKey);
    }
    let value = String::from_str(alloc, text)?;
    Ok((String::from_str(alloc, key)?, Value::String(value)))
}

fn json_member(
    alloc: Global,
    key: &str,
    text: &str,
    numbers: Numbers,
) -> Result<(String, Value), SettingError>
    ensures { MatchResult result (λ m. json_under key.now (text_data numbers text.now) ≡ sets (string_bytes m.0) (view m.1))
        (IsFaultOf (json_under key.now (text_data numbers text.now))) }
{
    if key.is_empty() {
        return Err(SettingError::EmptyKey);
    }
    let value = read_json(alloc, text, numbers)?;
    Ok((String::from_str(alloc, key)?, value))
}
