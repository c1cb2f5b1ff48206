//! The folder to which a build writes.

use crate::output::put_beside;
use crate::system::System;
use hb_build::{Standing, Store};
use std::alloc::AllocError;
use std::fs::Permissions;
use std::io::ErrorKind;
use std::{fs, io};

/// A folder of the system.
#[derive(Drop)]
pub struct Folder<'f, R> {
    rt: &'f R,
    path: &'f str,
    // Whether the folder is known to be there.
    made: bool,
    // The permissions of the file that was looked at last, if its text was asked for.
    permissions: Option<Permissions>,
}

impl<'f, R: System> Folder<'f, R> {
    /// Returns the folder at a path, which is made before something is written to it.
    pub fn new(rt: &'f R, path: &'f str) -> Folder<'f, R> {
        Folder {
            rt,
            path,
            made: false,
            permissions: None,
        }
    }

    // The path of an entry.
    fn at(&self, entry: &str) -> Result<String, AllocError> {
        let folder = self.path;
        format!(in self.rt.alloc(); "{folder}/{entry}")
    }

    fn make(&mut self) -> io::Result<()> {
        if !self.made {
            fs::create_dir_all(self.rt, self.path)?;
            self.made = true;
        }
        Ok(())
    }
}

// Of the system's files nothing is known.
impl<R: System> Store for Folder<'_, R> {
    ghost use Rattle.hb_build.specs.Entries.{nothing};

    ghost entries = { λ _ _. nothing };

    ghost reliable = { λ _. ⊥ };

    fn look(&mut self, path: &str) -> io::Result<Standing> {
        self.permissions = None;
        match fs::symlink_metadata(self.rt, self.at(path)?) {
            Ok(found) => Ok(if found.is_file() {
                Standing::File
            } else if found.is_dir() {
                Standing::Folder
            } else {
                Standing::Other
            }),
            Err(cause) => match cause.kind() {
                ErrorKind::NotFound => Ok(Standing::Nothing),
                _ => Err(cause),
            },
        }
    }

    fn has_text(&mut self, path: &str, text: &str) -> io::Result<bool> {
        let path = self.at(path)?;
        let found = fs::symlink_metadata(self.rt, path.as_str())?;
        self.permissions = Some(found.permissions());
        if found.len() != text.len() as u64 {
            return Ok(false);
        }
        let bytes = fs::read(self.rt, path.as_str())?;
        Ok(bytes.as_slice() == text.as_bytes())
    }

    fn replace(&mut self, path: &str, text: &str) -> io::Result<()> {
        self.make()?;
        let permissions = self.permissions.take();
        put_beside(self.rt, self.at(path)?.as_str(), text, permissions)
    }

    fn make_folder(&mut self, path: &str) -> io::Result<()> {
        self.make()?;
        match fs::create_dir(self.rt, self.at(path)?) {
            Ok(()) => Ok(()),
            Err(cause) => match cause.kind() {
                ErrorKind::AlreadyExists => Ok(()),
                _ => Err(cause),
            },
        }
    }
}
