//! What is reported of an item that fails, and of a build that stops.

ghost use Rattle.std.specs.Prelude.{◌≡◌};
ghost use Rattle.hb_command.specs.Failures.{kind_of_cause, kind_of_io, kind_of_stop, kind_or_memory};

use crate::counts::Grouped;
use crate::failure::{Failure, Kind};
use crate::message::shown;
use hb_build::{BuildError, Cause};
use std::alloc::Global;
use std::fmt;
use std::io::ErrorKind;

/// An item, with its source and line if they are known.
#[derive(Clone, Copy)]
pub struct ItemAt<'i> {
    source: Option<&'i str>,
    line: usize,
    item: u64,
}

/// Returns the item of this number, from 0, which begins on this line of a source, if both are known.
pub fn item_at(source: Option<&str>, line: usize, item: u64) -> ItemAt<'_> {
    ItemAt { source, line, item }
}

// The number of an item as people count.
fn number_of(item: u64) -> Grouped {
    Grouped(item.saturating_add(1))
}

impl fmt::Display for ItemAt<'_> {
    fn fmt<W: fmt::Write>(&self, f: &mut fmt::Formatter<W>) -> fmt::Result {
        let number = number_of(self.item);
        match self.source {
            Some(path) if self.line > 0 => {
                let (path, line) = (shown(path), self.line);
                write!(f, "item {number} ({path}:{line})")
            }
            _ => write!(f, "item {number}"),
        }
    }
}

/// Why an item failed, with the path of its file if that can't be written.
#[derive(Clone, Copy)]
pub struct ItemFault<'s> {
    pub folder: &'s str,
    pub name: &'s str,
    pub cause: &'s Cause,
}

impl fmt::Display for ItemFault<'_> {
    fn fmt<W: fmt::Write>(&self, f: &mut fmt::Formatter<W>) -> fmt::Result {
        let (folder, name) = (self.folder, self.name);
        match self.cause {
            Cause::Text(failure) => write!(f, "{failure}"),
            Cause::NotAFile => write!(
                f,
                "cannot write \"{folder}/{name}\": something else than a file is there"
            ),
            Cause::NotAFolder => write!(
                f,
                "cannot write \"{folder}/{name}\": something else than a folder is on the way"
            ),
            Cause::Store(cause) => {
                let kind = cause.kind();
                write!(f, "cannot write \"{folder}/{name}\": {kind}")
            }
        }
    }
}

/// Returns the failure of a build that stopped with this error, which isn't that of an item that was reported. `line` is the
/// line of the current item in the source, if both are known.
pub fn not_built(
    alloc: Global,
    folder: &str,
    source: Option<&str>,
    line: usize,
    cause: &BuildError,
) -> Failure {
    match kind_of_stop(cause) {
        Kind::OutOfMemory => Failure::out_of_memory(),
        kind => {
            let stop = &Stop {
                folder,
                source,
                line,
                cause,
            };
            Failure::new(kind, format!(in alloc; "{stop}"))
        }
    }
}

// What a build that stopped fails for. Before its first item it only reads the items and checks their names.
fn kind_of_stop(cause: &BuildError) -> Kind
    ensures { result ≡ kind_of_stop cause.now }
{
    match cause {
        BuildError::OutOfMemory => Kind::OutOfMemory,
        BuildError::Items { item: _, cause } => kind_or_memory(Kind::Input, cause),
        BuildError::Name { item: _, cause } => kind_or_memory(Kind::Arguments, cause),
        BuildError::Renamed { item: _ } => Kind::Input,
        BuildError::Failed {
            item: _,
            name: _,
            cause,
        } => kind_of_cause(cause),
        _ => Kind::Arguments,
    }
}

fn kind_of_cause(cause: &Cause) -> Kind
    ensures { result ≡ kind_of_cause cause.now }
{
    match cause {
        Cause::Text(cause) => kind_or_memory(Kind::Arguments, cause),
        Cause::Store(cause) => kind_of_io(cause.kind()),
        _ => Kind::Arguments,
    }
}

fn kind_of_io(kind: ErrorKind) -> Kind
    ensures { result ≡ kind_of_io kind }
{
    match kind {
        ErrorKind::OutOfMemory => Kind::OutOfMemory,
        _ => Kind::Arguments,
    }
}

fn kind_or_memory(kind: Kind, cause: &hb_build::Failure) -> Kind
    ensures { result ≡ kind_or_memory kind cause.now }
{
    match cause {
        hb_build::Failure::OutOfMemory => Kind::OutOfMemory,
        _ => kind,
    }
}

// A build that stopped.
#[derive(Clone, Copy)]
struct Stop<'s> {
    folder: &'s str,
    source: Option<&'s str>,
    line: usize,
    cause: &'s BuildError,
}

impl fmt::Display for Stop<'_> {
    fn fmt<W: fmt::Write>(&self, f: &mut fmt::Formatter<W>) -> fmt::Result {
        match self.cause {
            BuildError::OutOfMemory => f.write_str("out of memory"),
            BuildError::Items { item: _, cause } => write!(f, "{cause}"),
            BuildError::Name { item, cause } => {
                let at = item_at(self.source, self.line, *item);
                write!(f, "{at}: {cause}")
            }
            BuildError::Unacceptable { item, name } => {
                let at = item_at(None, 0, *item);
                write!(f, "{at}: no file may have the name {name:?}")
            }
            BuildError::Twice {
                first,
                second,
                name,
            } => {
                let (first, second) = (number_of(*first), number_of(*second));
                write!(f, "items {first} and {second} both have the name {name:?}")
            }
            BuildError::FileAndFolder { file, within, name } => {
                let (file, within) = (number_of(*file), number_of(*within));
                write!(
                    f,
                    "item {file} has the name {name:?}, which is a folder of item {within}"
                )
            }
            BuildError::Renamed { item } => {
                let item = number_of(*item);
                write!(
                    f,
                    "item {item} is not what it was when the names were checked"
                )
            }
            BuildError::Failed { item, name, cause } => {
                let at = item_at(None, 0, *item);
                let cause = &ItemFault {
                    folder: self.folder,
                    name: name.as_str(),
                    cause,
                };
                write!(f, "{at}: {cause}")
            }
        }
    }
}
