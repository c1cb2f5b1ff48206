//! The value of an attribute, as far as it is read, and whether data may go on in it.

ghost use Rattle.std.specs.Prelude.{◌≡◌, IfOk};
ghost use Rattle.handlebars_html.specs.Addresses as addresses;
ghost use Rattle.handlebars_html.specs.HtmlView.{value_of};

use crate::ascii::{begins_query, is_any_slash, is_blank_or_control, lower};
use crate::lists::push;
use crate::names::{is_followed_scheme, is_loaded_scheme};
use std::alloc::AllocError;

/// The value of an attribute, as far as it is read.
#[derive(Drop)]
pub enum Value {
    /// Any text may follow.
    Harmless,
    /// No data may follow.
    Forbidden,
    /// An address that is followed, with its text so far, which may still become a scheme.
    Followed(Vec<u8>),
    /// An address that is loaded, with its text so far, which may still become a scheme.
    Loaded(Vec<u8>),
    /// An address that is loaded, after one slash at its beginning.
    LoadedSlash,
    /// An address that is loaded, where its host begins.
    LoadedAuthority,
    /// An address that is loaded, within its host.
    LoadedHost,
}

fn is_unclear(byte: u8) -> bool
    ensures { result ≡ addresses.is_unclear byte }
{
    is_blank_or_control(byte) || byte == b'&'
}

fn is_before(text: &[u8], byte: u8) -> bool
    ensures { result ≡ addresses.is_before text.now byte }
{
    match text.split_first() {
        None => is_blank_or_control(byte),
        Some(_) => false,
    }
}

fn step_followed(mut text: Vec<u8>, byte: u8) -> Result<Value, AllocError>
    ensures { IfOk result (λ v. value_of v ≡ addresses.step_followed text.items byte) }
{
    if is_before(&text, byte) {
        Ok(Value::Followed(text))
    } else if byte == b'/' || begins_query(byte) {
        Ok(Value::Harmless)
    } else if byte == b':' {
        if is_followed_scheme(&text) {
            Ok(Value::Harmless)
        } else {
            Ok(Value::Forbidden)
        }
    } else if is_unclear(byte) {
        Ok(Value::Forbidden)
    } else {
        push(&mut text, lower(byte))?;
        Ok(Value::Followed(text))
    }
}

fn slash_after(text: &[u8]) -> Value
    ensures { value_of result ≡ addresses.slash_after text.now }
{
    match text.split_first() {
        None => Value::LoadedSlash,
        Some(_) => Value::Harmless,
    }
}

fn step_loaded(mut text: Vec<u8>, byte: u8) -> Result<Value, AllocError>
    ensures { IfOk result (λ v. value_of v ≡ addresses.step_loaded text.items byte) }
{
    if is_before(&text, byte) {
        Ok(Value::Loaded(text))
    } else if is_any_slash(byte) {
        Ok(slash_after(&text))
    } else if begins_query(byte) {
        Ok(Value::Harmless)
    } else if byte == b':' {
        if is_loaded_scheme(&text) {
            Ok(Value::LoadedAuthority)
        } else {
            Ok(Value::Forbidden)
        }
    } else if is_unclear(byte) {
        Ok(Value::Forbidden)
    } else {
        push(&mut text, lower(byte))?;
        Ok(Value::Loaded(text))
    }
}

fn step_loaded_slash(byte: u8) -> Value
    ensures { value_of result ≡ addresses.step_loaded_slash byte }
{
    if is_any_slash(byte) {
        Value::LoadedAuthority
    } else if is_unclear(byte) {
        Value::Forbidden
    } else {
        Value::Harmless
    }
}

fn step_loaded_authority(byte: u8) -> Value
    ensures { value_of result ≡ addresses.step_loaded_authority byte }
{
    if is_any_slash(byte) {
        Value::LoadedAuthority
    } else if is_unclear(byte) || begins_query(byte) {
        Value::Forbidden
    } else {
        Value::LoadedHost
    }
}

fn step_loaded_host(byte: u8) -> Value
    ensures { value_of result ≡ addresses.step_loaded_host byte }
{
    if is_any_slash(byte) || begins_query(byte) {
        Value::Harmless
    } else if is_unclear(byte) {
        Value::Forbidden
    } else {
        Value::LoadedHost
    }
}

/// Returns the value with one byte more.
///
/// # Errors
///
/// Fails if memory runs out.
pub fn step_value(value: Value, byte: u8) -> Result<Value, AllocError>
    ensures { IfOk result (λ v. value_of v ≡ addresses.step_value (value_of value) byte) }
{
    match value {
        Value::Harmless => Ok(Value::Harmless),
        Value::Forbidden => Ok(Value::Forbidden),
        Value::Followed(text) => step_followed(text, byte),
        Value::Loaded(text) => step_loaded(text, byte),
        Value::LoadedSlash => Ok(step_loaded_slash(byte)),
        Value::LoadedAuthority => Ok(step_loaded_authority(byte)),
        Value::LoadedHost => Ok(step_loaded_host(byte)),
    }
}

/// Returns whether data may go on in the value.
pub fn is_safe_value(value: &Value) -> bool
    ensures { result ≡ addresses.is_safe_value (value_of value.now) }
{
    match value {
        Value::Harmless => true,
        Value::Forbidden => false,
        Value::Followed(_) => false,
        Value::Loaded(_) => false,
        Value::LoadedSlash => false,
        Value::LoadedAuthority => false,
        Value::LoadedHost => false,
    }
}

/// Returns whether the value is at the beginning of an address that is followed.
pub fn begins_address(value: &Value) -> bool
    ensures { result ≡ addresses.begins_address (value_of value.now) }
{
    match value {
        Value::Followed(text) => text.is_empty(),
        _ => false,
    }
}
