//! Why a build stops.

ghost use Rattle.std.specs.Prelude.{◌≡◌};
ghost use Rattle.hb_build.specs.declared.error.BuildError.TheVariants.{OutOfMemory};

use crate::outcome::Cause;
use crate::source::Failure;
use std::alloc::{AllocError, AllocFailed};
use std::error::Error;
use std::fmt;

/// Why a build stops. Items are counted from 0 here, and from 1 in the messages.
#[derive(Drop)]
pub enum BuildError {
    OutOfMemory,
    /// The item can't be reached: the items can't be read so far.
    Items {
        item: u64,
        cause: Failure,
    },
    /// The item has no name.
    Name {
        item: u64,
        cause: Failure,
    },
    /// `is_acceptable` doesn't accept the name.
    Unacceptable {
        item: u64,
        name: String,
    },
    /// Two items have one name.
    Twice {
        first: u64,
        second: u64,
        name: String,
    },
    /// The file of one item, which has this name, is a folder of the name of the other one.
    FileAndFolder {
        file: u64,
        within: u64,
        name: String,
    },
    /// The item had another name when the names were checked, or was not there, or is missing now.
    Renamed {
        item: u64,
    },
    /// The item fails: before anything is written if something is in the way of it, and else if the build is not to keep going.
    Failed {
        item: u64,
        name: String,
        cause: Cause,
    },
}

impl From<AllocError> for BuildError {
    ghost from_gives = { λ _ e. e ≡ OutOfMemory };

    fn from(_e: AllocError) -> Self {
        BuildError::OutOfMemory
    }
}

impl<T: Drop> From<AllocFailed<T>> for BuildError {
    ghost from_gives = { λ _ e. e ≡ OutOfMemory };

    fn from(_e: AllocFailed<T>) -> Self {
        BuildError::OutOfMemory
    }
}

impl fmt::Display for BuildError {
    fn fmt<W: fmt::Write>(&self, f: &mut fmt::Formatter<W>) -> fmt::Result {
        match self {
            BuildError::OutOfMemory => f.write_str("out of memory"),
            BuildError::Items { item, cause } => {
                write!(f, "item {} can't be read: {cause}", shown(*item))
            }
            BuildError::Name { item, cause } => {
                write!(f, "the name of item {}: {cause}", shown(*item))
            }
            BuildError::Unacceptable { item, name } => write!(
                f,
                "item {}: no file may have the name `{name}`",
                shown(*item)
            ),
            BuildError::Twice {
                first,
                second,
                name,
            } => write!(
                f,
                "items {} and {} both have the name `{name}`",
                shown(*first),
                shown(*second)
            ),
            BuildError::FileAndFolder { file, within, name } => write!(
                f,
                "item {} has the name `{name}`, which is a folder of item {}",
                shown(*file),
                shown(*within)
            ),
            BuildError::Renamed { item } => write!(
                f,
                "item {} is not what it was when the names were checked",
                shown(*item)
            ),
            BuildError::Failed { item, name, cause } => {
                write!(f, "item {}, `{name}`: {cause}", shown(*item))
            }
        }
    }
}

impl fmt::Debug for BuildError {
    fn fmt<W: fmt::Write>(&self, f: &mut fmt::Formatter<W>) -> fmt::Result {
        write!(f, "{self}")
    }
}

impl Error for BuildError {}

// The number of an item as people count.
fn shown(item: u64) -> u64 {
    item.saturating_add(1)
}
