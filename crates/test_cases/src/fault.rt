//! I/O errors of files, of writers and of outputs, by the names that std gives them.

use serde_json::Value as JsonValue;
use std::io::ErrorKind;

/// A kind of I/O error, as its index among those of std. A field of the kind itself would make each proof larger that sees it.
#[derive(Clone, Copy, PartialEq)]
pub struct Fault(usize);

const NAMES: &str =
    "NotFound PermissionDenied ConnectionRefused ConnectionReset HostUnreachable NetworkUnreachable \
    ConnectionAborted NotConnected AddrInUse AddrNotAvailable NetworkDown BrokenPipe AlreadyExists WouldBlock \
    NotADirectory IsADirectory DirectoryNotEmpty ReadOnlyFilesystem FilesystemLoop StaleNetworkFileHandle InvalidInput \
    InvalidData TimedOut WriteZero StorageFull NotSeekable QuotaExceeded FileTooLarge ResourceBusy ExecutableFileBusy \
    Deadlock CrossesDevices TooManyLinks InvalidFilename ArgumentListTooLong Interrupted Unsupported UnexpectedEof \
    OutOfMemory InProgress Other Uncategorized";

const KINDS: [ErrorKind; 42] = [
    ErrorKind::NotFound,
    ErrorKind::PermissionDenied,
    ErrorKind::ConnectionRefused,
    ErrorKind::ConnectionReset,
    ErrorKind::HostUnreachable,
    ErrorKind::NetworkUnreachable,
    ErrorKind::ConnectionAborted,
    ErrorKind::NotConnected,
    ErrorKind::AddrInUse,
    ErrorKind::AddrNotAvailable,
    ErrorKind::NetworkDown,
    ErrorKind::BrokenPipe,
    ErrorKind::AlreadyExists,
    ErrorKind::WouldBlock,
    ErrorKind::NotADirectory,
    ErrorKind::IsADirectory,
    ErrorKind::DirectoryNotEmpty,
    ErrorKind::ReadOnlyFilesystem,
    ErrorKind::FilesystemLoop,
    ErrorKind::StaleNetworkFileHandle,
    ErrorKind::InvalidInput,
    ErrorKind::InvalidData,
    ErrorKind::TimedOut,
    ErrorKind::WriteZero,
    ErrorKind::StorageFull,
    ErrorKind::NotSeekable,
    ErrorKind::QuotaExceeded,
    ErrorKind::FileTooLarge,
    ErrorKind::ResourceBusy,
    ErrorKind::ExecutableFileBusy,
    ErrorKind::Deadlock,
    ErrorKind::CrossesDevices,
    ErrorKind::TooManyLinks,
    ErrorKind::InvalidFilename,
    ErrorKind::ArgumentListTooLong,
    ErrorKind::Interrupted,
    ErrorKind::Unsupported,
    ErrorKind::UnexpectedEof,
    ErrorKind::OutOfMemory,
    ErrorKind::InProgress,
    ErrorKind::Other,
    ErrorKind::Uncategorized,
];

impl Fault {
    pub const NOT_FOUND: Fault = Fault(0);

    pub const BROKEN_PIPE: Fault = Fault(11);

    pub const WRITE_ZERO: Fault = Fault(23);

    pub const INTERRUPTED: Fault = Fault(35);

    pub const OUT_OF_MEMORY: Fault = Fault(38);

    /// Returns the error that a text names.
    pub fn read(value: &JsonValue) -> Option<Fault> {
        Fault::named(value.as_str()?)
    }

    /// Returns the error of this name.
    pub fn named(name: &str) -> Option<Fault> {
        for (index, one) in NAMES.split(' ').enumerate() {
            if one == name {
                return Some(Fault(index));
            }
        }
        None
    }

    /// Returns its kind.
    pub fn kind(self) -> ErrorKind {
        match KINDS.get(self.0) {
            Some(kind) => *kind,
            None => ErrorKind::NotFound,
        }
    }
}
