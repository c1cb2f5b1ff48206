//! The messages of files, folders and data that can't be read or written.

ghost use Rattle.std.specs.Prelude.{◌≡◌};
ghost use Rattle.hb_command.specs.Failures.{EndsWith, shown_path};

use crate::failure::{Failure, Kind};
use handlebars_data::DataError;
use std::alloc::{AllocError, Global};
use std::io;
use std::io::ErrorKind;

/// Returns the name of a path in messages. `-` is standard input.
pub fn shown(path: &str) -> &str
    ensures { result.now ≡ shown_path path.now }
{
    if path == "-" { "<stdin>" } else { path }
}

/// Returns the failure of a file that can't be read.
pub fn unreadable(alloc: Global, path: &str, cause: &io::Error) -> Failure
    ensures { EndsWith 2 result }
{
    let path = shown(path);
    match cause.kind() {
        ErrorKind::OutOfMemory => Failure::out_of_memory(),
        ErrorKind::NotFound => Failure::new(Kind::Input, format!(in alloc; "no file \"{path}\"")),
        ErrorKind::InvalidData => Failure::new(Kind::Input, format!(in alloc; "{path}: not UTF-8")),
        kind => Failure::new(
            Kind::Input,
            format!(in alloc; "cannot read \"{path}\": {kind}"),
        ),
    }
}

/// Returns the failure of a folder that can't be listed.
pub fn unlisted(alloc: Global, path: &str, cause: &io::Error) -> Failure
    ensures { EndsWith 2 result }
{
    match cause.kind() {
        ErrorKind::OutOfMemory => Failure::out_of_memory(),
        ErrorKind::NotFound | ErrorKind::NotADirectory => Failure::new(
            Kind::Input,
            format!(in alloc; "no folder \"{path}\""),
        ),
        kind => Failure::new(
            Kind::Input,
            format!(in alloc; "cannot read the folder \"{path}\": {kind}"),
        ),
    }
}

/// Returns the failure of an output that can't be written.
pub fn unwritable(alloc: Global, path: &str, cause: &io::Error) -> Failure
    ensures { EndsWith 1 result }
{
    match cause.kind() {
        ErrorKind::OutOfMemory => Failure::out_of_memory(),
        ErrorKind::NotFound => Failure::new(
            Kind::Output,
            format!(in alloc; "cannot write \"{path}\": its folder is not there"),
        ),
        kind => Failure::new(
            Kind::Output,
            format!(in alloc; "cannot write \"{path}\": {kind}"),
        ),
    }
}

/// Returns the failure of data that can't be read.
pub fn not_data(alloc: Global, path: &str, cause: &DataError) -> Failure
    ensures { EndsWith 2 result }
{
    if cause.is_memory() {
        return Failure::out_of_memory();
    }
    Failure::new(Kind::Input, placed(alloc, path, cause))
}

fn placed(alloc: Global, path: &str, cause: &DataError) -> Result<String, AllocError> {
    let path = shown(path);
    let (line, column, kind) = (cause.line(), cause.column(), cause.kind());
    if line == 0 {
        format!(in alloc; "{path}: {kind}")
    } else {
        format!(in alloc; "{path}:{line}:{column}: {kind}")
    }
}
