//! Bytes that are to be text.

ghost use Rattle.std.specs.Prelude.{◌≡◌, IfErr, IsUtf8, MatchResult, take};
ghost use Rattle.std.specs.Str.Lossy.{utf8_valid_len};
ghost use Rattle.handlebars_data.specs.Errors.{kind_of, position_in};
ghost use Rattle.handlebars_data.specs.Position.{position};

use crate::error::{DataError, DataErrorKind};
use std::str;

/// Returns bytes as text. If they are not UTF-8, the error has the position of the first byte that is not.
pub(crate) fn text_of(bytes: &[u8]) -> Result<&str, DataError>
    ensures text { MatchResult result (λ text. (text.now ≡ bytes.now) × IsUtf8 bytes.now) (λ e. (¬ IsUtf8 bytes.now) × (kind_of e ≡ DataErrorKind.NotUtf8)) }
    ensures position { IfErr result (λ e. position_in e ≡ position (take (utf8_valid_len bytes.now) bytes.now)) }
{
    match str::from_utf8(bytes) {
        Ok(text) => Ok(text),
        Err(e) => Err(DataError::at(DataErrorKind::NotUtf8, bytes, e.valid_up_to())),
    }
}
