//! The helper that returns an address only if it runs no script.

ghost use Rattle.std.specs.Prelude.{◌≡◌, ◌≤◌, IfOk, length, map, not, string_bytes};
ghost use Rattle.std.specs.Char.{to_ascii_lowercase};
ghost use Rattle.std.specs.List.{list_all, prefix_len};
ghost use Rattle.std.specs.Str.{bytes_eq};
ghost use Rattle.handlebars_base.specs.Answers.{Answers};
ghost use Rattle.handlebars_helpers.specs.SafeUrl as spec;
ghost use Rattle.handlebars_helpers.specs.UserView.{offer_of};
ghost use Rattle.handlebars_helpers.specs.View.{helper_view};

use crate::user::HelperValue;
use crate::view::Helper;
use handlebars_base::error::{RenderError, RenderErrorReason};
use handlebars_base::json::value::Json;
use std::alloc::{AllocError, Global};

fn is_removed(byte: u8) -> bool
    ensures { result ≡ spec.is_removed byte }
{
    byte == b'\t' || byte == b'\n' || byte == b'\r'
}

fn is_leading(byte: u8) -> bool
    ensures { result ≡ spec.is_leading byte }
{
    byte <= b' '
}

fn may_be_of_scheme(byte: u8) -> bool
    ensures { result ≡ spec.may_be_of_scheme byte }
{
    !(byte == b':' || byte == b'/' || byte == b'?' || byte == b'#')
}

// The length of what URL parsers remove at the beginning.
fn leading_len(bytes: &[u8]) -> usize
    ensures len { result ≡ prefix_len spec.is_leading bytes.now }
    ensures bound { result ≤ length bytes.now }
{
    let mut n = 0;
    while n < bytes.len() && is_leading(bytes[n]) {
        n += 1;
    }
    n
}

// The length of what is a scheme, if a colon follows.
fn scheme_len(bytes: &[u8]) -> usize
    ensures len { result ≡ prefix_len spec.may_be_of_scheme bytes.now }
    ensures bound { result ≤ length bytes.now }
{
    let mut n = 0;
    while n < bytes.len() && may_be_of_scheme(bytes[n]) {
        n += 1;
    }
    n
}

fn is_scheme(scheme: &[u8], name: &[u8]) -> bool
    ensures { result ≡ spec.is_scheme scheme.now name.now }
{
    name.eq_ignore_ascii_case(scheme)
}

fn is_safe_scheme(scheme: &[u8]) -> bool
    ensures { result ≡ spec.is_safe_scheme scheme.now }
{
    is_scheme(scheme, b"http")
        || is_scheme(scheme, b"https")
        || is_scheme(scheme, b"mailto")
        || is_scheme(scheme, b"tel")
        || is_scheme(scheme, b"ftp")
        || is_scheme(scheme, b"sms")
}

fn is_safe_before(scheme: &[u8], rest: &[u8]) -> bool
    ensures { result ≡ spec.is_safe_before scheme.now rest.now }
{
    match rest {
        [] => true,
        [first, ..] => *first != b':' || is_safe_scheme(scheme),
    }
}

fn keeps_all(bytes: &[u8]) -> bool
    ensures { result ≡ list_all (λ b. not (spec.is_removed b)) bytes.now }
{
    bytes.iter().all(|byte| !is_removed(*byte))
}

fn is_safe_begun(bytes: &[u8]) -> bool
    ensures { result ≡ spec.is_safe_begun bytes.now }
{
    let (scheme, rest) = bytes.split_at(scheme_len(bytes));
    is_safe_before(scheme, rest)
}

/// Returns whether an address is relative, or of one of the schemes `http`, `https`, `mailto`, `tel`, `ftp` and
/// `sms`. Such an address runs no script. One with tabs or newlines in it isn't safe, since URL parsers remove them.
pub fn is_safe_url(address: &str) -> bool
    ensures { result ≡ spec.is_safe_url address.now }
{
    let bytes = address.as_bytes();
    keeps_all(bytes) && is_safe_begun(bytes.split_at(leading_len(bytes)).1)
}

/// Returns the address if it is safe, and otherwise `#`, which is the address of the page itself.
///
/// # Errors
///
/// Fails if memory runs out.
pub fn safe_url(alloc: Global, address: String) -> Result<String, AllocError>
    ensures { IfOk result (λ s. string_bytes s ≡ spec.safe_url (string_bytes address)) }
{
    if is_safe_url(address.as_str()) {
        Ok(address)
    } else {
        String::from_str(alloc, "#")
    }
}

/// Returns what the helper offers as its value: the text of its first parameter if that is a safe address, and
/// otherwise `#`.
///
/// # Errors
///
/// Fails with `ParamNotFoundForIndex` if there is no parameter, or if its value is missing in strict mode.
pub fn safe_url_offer(alloc: Global, h: &Helper, strict: bool) -> Result<HelperValue, RenderError>
    ensures { Answers offer_of result (spec.offer_of_call strict (helper_view h.now).call) }
{
    match h.param(0) {
        Some(param) if !(strict && param.is_value_missing()) => {
            let address = param.render(alloc)?;
            Ok(HelperValue::Value(Json::String(safe_url(alloc, address)?)))
        }
        _ => Err(RenderErrorReason::ParamNotFoundForIndex("SafeUrl", 0).into()),
    }
}
