//! Reads TOML.

ghost use Rattle.std.specs.Prelude.{◌≡◌, ◌≢◌, ◌≤◌, IfErr, IfOk, None, Some, length, nat_eq};
ghost use Rattle.std.specs.List.{common_prefix_len};
ghost use Rattle.toml.specs.Parse.{parse_document};
ghost use Rattle.toml.specs.View as toml_view;
ghost use Rattle.serde_json.specs.Data.{no_members};
ghost use Rattle.serde_json.specs.View.{items_view, members_view, view};
ghost use Rattle.handlebars_data.specs.Errors.{IsMemory, LiesIn, kind_of, position_in};
ghost use Rattle.handlebars_data.specs.TomlText.{first_difference, first_float, items_data, members_data, table_data, toml_data, value_data};
ghost use Rattle.handlebars_data.specs.TomlView.{Gives, IsTomlMemory};

use crate::error::{DataError, DataErrorKind};
use crate::json_text::Numbers;
use crate::members::put;
use crate::toml_floats::quoted_floats;
use serde_json::Value;
use std::alloc::{AllocError, AllocFailed, Global};
use std::collections::BTreeMap;
use std::fmt::InlineText;
use toml::Table;
use toml::de::Error;

/// Reads a TOML document (https://toml.io/en/v1.1.0). A table is an object, an integer stays a number, and a date or a time is its
/// text. A float is the text of its spelling, also `inf` and `nan`, or an error.
///
/// # Errors
///
/// Fails if the text is no TOML, with the position and the message of the TOML reader. Also fails at a float, if `numbers` is
/// `Refused`, with its position. Fails without a position if memory runs out.
///
/// Runs in time linear in the text, apart from the look-up of keys. A text with floats is read twice.
pub fn read_toml(alloc: Global, text: &str, numbers: Numbers) -> Result<Value, DataError>
    ensures ok { IfOk result (λ v. toml_data numbers text.now ≡ Some (view v)) }
    ensures refused { IfErr result (λ e. ¬ IsMemory e → toml_data numbers text.now ≡ None) }
    ensures position { IfErr result (λ e. ¬ IsMemory e → LiesIn text.now e) }
    ensures float { IfErr result (λ e. kind_of e ≡ DataErrorKind.NumberNotInteger → position_in e ≡ first_float text.now) }
{
    let table = document(alloc, text, text)?;
    let quoted = quoted_floats(alloc, text)?;
    match numbers {
        Numbers::Refused => object_of(alloc, table, text, &quoted),
        Numbers::Spelled => {
            let table = spelled(alloc, table, text, &quoted)?;
            object_of(alloc, table, text, &quoted)
        }
    }
}

// Reads the text with floats in quotes. A text without floats was read.
fn spelled(alloc: Global, table: Table, text: &str, quoted: &str) -> Result<Table, DataError>
    requires { parse_document text.now ≡ Some (toml_view.table_view table) }
    ensures ok { IfOk result (λ t. parse_document quoted.now ≡ Some (toml_view.table_view t)) }
    ensures refused { IfErr result (λ e. ¬ IsMemory e → parse_document quoted.now ≡ None) }
    ensures position { IfErr result (λ e. ¬ IsMemory e → LiesIn text.now e) }
    ensures kind { IfErr result (λ e. kind_of e ≢ DataErrorKind.NumberNotInteger) }
{
    if quoted == text {
        return Ok(table);
    }
    document(alloc, quoted, text)
}

// Reads a source, which is the text or its form with floats in quotes. An error has a position in the text.
fn document(alloc: Global, source: &str, text: &str) -> Result<Table, DataError>
    ensures ok { IfOk result (λ table. parse_document source.now ≡ Some (toml_view.table_view table)) }
    ensures refused { IfErr result (λ e. ¬ IsMemory e → parse_document source.now ≡ None) }
    ensures position { IfErr result (λ e. ¬ IsMemory e → LiesIn text.now e) }
    ensures kind { IfErr result (λ e. kind_of e ≢ DataErrorKind.NumberNotInteger) }
{
    match toml::table_from_str(alloc, source) {
        Ok(table) => Ok(table),
        Err(e) => Err(syntax_error(&e, text)),
    }
}

fn syntax_error(e: &Error, text: &str) -> DataError
    ensures memory { IsTomlMemory e.now → IsMemory result }
    ensures position { ¬ IsMemory result → LiesIn text.now result }
    ensures kind { kind_of result ≢ DataErrorKind.NumberNotInteger }
{
    match e.span() {
        Some(span) => DataError::at(
            DataErrorKind::Toml(InlineText::of(e.message())),
            text.as_bytes(),
            span.start.min(text.len()),
        ),
        None => DataError::without_position(DataErrorKind::OutOfMemory),
    }
}

// Returns the object of a table of the text. An error has the position of the first float, which is the first difference of
// the text and its form with floats in quotes.
fn object_of(alloc: Global, table: Table, text: &str, quoted: &str) -> Result<Value, DataError>
    ensures ok { IfOk result (λ v. table_data (toml_view.table_view table) ≡ Some (view v)) }
    ensures refused { IfErr result (λ e. ¬ IsMemory e → table_data (toml_view.table_view table) ≡ None) }
    ensures position { IfErr result (λ e. ¬ IsMemory e → LiesIn text.now e) }
    ensures float { IfErr result (λ e. kind_of e ≡ DataErrorKind.NumberNotInteger → position_in e ≡ first_difference text.now quoted.now) }
{
    match members_of(alloc, table) {
        Ok(members) => Ok(Value::Object(members)),
        Err(Unread::Float) => Err(DataError::at(
            DataErrorKind::NumberNotInteger,
            text.as_bytes(),
            common_len(text.as_bytes(), quoted.as_bytes()),
        )),
        Err(Unread::OutOfMemory) => { Err(DataError::without_position(DataErrorKind::OutOfMemory)) }
    }
}

// Returns how many bytes two texts have in common at their starts.
fn common_len(left: &[u8], right: &[u8]) -> usize
    ensures common { result ≡ common_prefix_len nat_eq left.now right.now }
    ensures within { result ≤ length left.now }
{
    let shorter = left.len().min(right.len());
    'common: for at in 0..shorter {
        if left[at] != right[at] {
            return at;
        }
    }
    shorter
}

// Why a value has no data.
#[derive(Clone, Copy, Drop)]
enum Unread {
    Float,
    OutOfMemory,
}

impl<T: Drop> From<AllocFailed<T>> for Unread {
    ghost use Rattle.std.specs.Prelude.{◌≡◌};
    ghost use Rattle.handlebars_data.specs.declared.toml_text.Unread.TheVariants.{OutOfMemory};

    ghost from_gives = { λ _ e. e ≡ OutOfMemory };

    fn from(_e: AllocFailed<T>) -> Unread {
        Unread::OutOfMemory
    }
}

impl From<AllocError> for Unread {
    ghost use Rattle.std.specs.Prelude.{◌≡◌};
    ghost use Rattle.handlebars_data.specs.declared.toml_text.Unread.TheVariants.{OutOfMemory};

    ghost from_gives = { λ _ e. e ≡ OutOfMemory };

    fn from(_e: AllocError) -> Unread {
        Unread::OutOfMemory
    }
}

#[cycle(value)]
fn value_of(alloc: Global, value: toml::Value) -> Result<Value, Unread>
    ensures { Gives view result (value_data (toml_view.view value)) }
{
    match value {
        toml::Value::String(text) => Ok(Value::String(text)),
        toml::Value::Integer(number) => Ok(Value::from(number)),
        toml::Value::Float(_) => Err(Unread::Float),
        toml::Value::Boolean(boolean) => Ok(Value::Bool(boolean)),
        toml::Value::Datetime(datetime) => Ok(Value::String(datetime.to_string(alloc)?)),
        toml::Value::Array(items) => Ok(Value::Array(items_of(alloc, items)?)),
        toml::Value::Table(members) => Ok(Value::Object(members_of(alloc, members)?)),
    }
}

#[cycle(value)]
fn items_of(alloc: Global, items: Vec<toml::Value>) -> Result<Vec<Value>, Unread>
    ensures { Gives (λ v. items_view v.items) result (items_data (toml_view.items_view items.items)) }
{
    let mut values = Vec::new(alloc);
    'items: for item in items {
        values.push(value_of(alloc, item)?)?;
    }
    Ok(values)
}

#[cycle(value)]
fn members_of(
    alloc: Global,
    members: BTreeMap<String, toml::Value>,
) -> Result<BTreeMap<String, Value>, Unread>
    ensures { Gives (λ m. members_view m.entries) result (members_data (toml_view.members_view members.entries) no_members) }
{
    let mut values = BTreeMap::new(alloc);
    'members: for (key, member) in members {
        put(&mut values, key, value_of(alloc, member)?)?;
    }
    Ok(values)
}
