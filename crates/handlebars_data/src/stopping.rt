//! Errors that end the reading of a file.

ghost use Rattle.std.specs.Prelude.{◌≡◌, true};
ghost use Rattle.handlebars_data.specs.Errors.{kind_of};
ghost use Rattle.handlebars_data.specs.Stopping.{stops_reading};

use crate::error::{DataError, DataErrorKind};
use std::io;
use std::io::ErrorKind;

/// Returns the error of a reader of bytes.
pub(crate) fn reader_failure(e: &io::Error) -> DataError
    ensures { stops_reading (kind_of result) ≡ true }
{
    DataError::without_position(match e.kind() {
        ErrorKind::OutOfMemory => DataErrorKind::OutOfMemory,
        kind => DataErrorKind::Io(kind),
    })
}

/// Returns the error of a reader that gives more than can be counted.
pub(crate) fn endless_reader() -> DataError
    ensures { stops_reading (kind_of result) ≡ true }
{
    DataError::without_position(DataErrorKind::Io(ErrorKind::Other))
}

/// Whether nothing more is read after an error.
pub(crate) fn stops_reading(e: &DataError) -> bool
    ensures { result ≡ stops_reading (kind_of e.now) }
{
    matches!(e.kind(), DataErrorKind::Io(_) | DataErrorKind::OutOfMemory)
}
