//! Files that are written whole or not at all.

ghost use Rattle.std.specs.Prelude.{IfErr};
ghost use Rattle.hb_command.specs.Failures.{EndsWith};

use crate::failure::{Failure, Kind};
use crate::message::unwritable;
use crate::system::System;
use std::alloc::{AllocError, Global};
use std::fs::{File, Metadata, Permissions};
use std::io::{ErrorKind, Write};
use std::{fs, io};

// How many temporary names are tried. Others may write to the same folder.
const TEMPORARY_NAMES: u32 = 10_000;

/// Writes a text to the file at a path: beside it, under a temporary name, which is then renamed. So the file holds all of the
/// text, or what it held before. It keeps its permissions.
///
/// # Errors
///
/// Fails if a folder, a link or anything else than a file is at the path, or if the text can't be written.
pub fn write_file<R: System>(rt: &R, path: &str, text: &str) -> Result<(), Failure>
    ensures { IfErr result (λ f. EndsWith 1 f) }
{
    let permissions = match fs::symlink_metadata(rt, path) {
        Ok(found) => Some(permissions_of(rt.alloc(), path, &found)?),
        Err(cause) => match cause.kind() {
            ErrorKind::NotFound => None,
            _ => return Err(unwritable(rt.alloc(), path, &cause)),
        },
    };
    match put_beside(rt, path, text, permissions) {
        Ok(()) => Ok(()),
        Err(cause) => Err(unwritable(rt.alloc(), path, &cause)),
    }
}

// The permissions of the file at a path, if one is there.
fn permissions_of(alloc: Global, path: &str, found: &Metadata) -> Result<Permissions, Failure>
    ensures { IfErr result (λ f. EndsWith 1 f) }
{
    let what = if found.is_file() {
        return Ok(found.permissions());
    } else if found.is_symlink() {
        "a symbolic link"
    } else if found.is_dir() {
        "a folder"
    } else {
        "no plain file"
    };
    Err(Failure::new(
        Kind::Output,
        format!(in alloc; "cannot write \"{path}\": {what} is there"),
    ))
}

/// Writes a text to the file at a path, as `write_file` does, with these permissions, if they are given. What is at the path is
/// replaced.
pub fn put_beside<R: System>(
    rt: &R,
    path: &str,
    text: &str,
    permissions: Option<Permissions>,
) -> io::Result<()> {
    let (file, beside) = create_beside(rt, path)?;
    let answer = put(rt, file, beside.as_str(), path, text, permissions);
    if answer.is_err() {
        let _ = fs::remove_file(rt, beside.as_str());
    }
    answer
}

fn put<R: System>(
    rt: &R,
    file: R::File,
    beside: &str,
    path: &str,
    text: &str,
    permissions: Option<Permissions>,
) -> io::Result<()> {
    fill(file, text)?;
    if let Some(permissions) = permissions {
        fs::set_permissions(rt, beside, permissions)?;
    }
    fs::rename(rt, beside, path)
}

fn fill<F: Write + Drop>(file: F, text: &str) -> io::Result<()> {
    let mut file = file;
    file.write_all(text.as_bytes())?;
    file.flush()
}

// Creates a file in the folder of a path, under a temporary name at which nothing is.
fn create_beside<R: System>(rt: &R, path: &str) -> io::Result<(R::File, String)> {
    for number in 0..TEMPORARY_NAMES {
        let beside = beside(rt.alloc(), path, number)?;
        match File::create_new(rt, beside.as_str()) {
            Ok(file) => return Ok((file, beside)),
            Err(cause) => match cause.kind() {
                ErrorKind::AlreadyExists => {}
                _ => return Err(cause),
            },
        }
    }
    Err(io::Error::from(ErrorKind::AlreadyExists))
}

fn beside(alloc: Global, path: &str, number: u32) -> Result<String, AllocError> {
    match path.rsplit_once('/') {
        Some((folder, _)) => format!(in alloc; "{folder}/.hb-{number}.tmp"),
        None => format!(in alloc; ".hb-{number}.tmp"),
    }
}
