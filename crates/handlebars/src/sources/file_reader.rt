//! The reader over the system's files.

ghost use Rattle.std.specs.Prelude.{◌≡◌};

use crate::sources::{EntryKind, TemplateReader};
use std::alloc::Global;
use std::fs::DirEntry;
use std::io::ErrorKind;
use std::rt::Files;
use std::{fs, io};

/// Reads files and folders of the system. A link is a file. An entry that the system can't describe is left out, unless
/// memory ran out.
#[derive(Drop)]
pub struct FileReader<'a, R> {
    rt: &'a R,
    alloc: Global,
}

impl<'a, R> FileReader<'a, R> {
    /// Creates a reader. Reads no file yet.
    pub fn new(rt: &'a R, alloc: Global) -> FileReader<'a, R>
        ensures { result ≡ record { rt = rt.entry; alloc = alloc } }
    {
        FileReader { rt, alloc }
    }
}

// Of the system's files nothing is known.
impl<R: Files + AllocGlobal + Clone + Drop> TemplateReader for FileReader<'_, R> {
    ghost reads = { λ _ _ _ _. Unit {0} };

    ghost lists = { λ _ _ _ _. Unit {0} };

    fn read(&mut self, path: &str) -> Result<String, io::Error> {
        fs::read_to_string(self.rt, path)
    }

    fn list(&mut self, folder: &str) -> Result<Vec<(String, EntryKind)>, io::Error> {
        let mut entries = Vec::new(self.alloc);
        for entry in fs::read_dir(self.rt, folder)? {
            if let Some(listed) = listed(self.alloc, entry)? {
                entries.push(listed)?;
            }
        }
        Ok(entries)
    }
}

// The entry, if it isn't left out.
fn listed<R: Files + Drop>(
    alloc: Global,
    entry: io::Result<DirEntry<R>>,
) -> io::Result<Option<(String, EntryKind)>> {
    match named(alloc, entry) {
        Ok(entry) => Ok(Some(entry)),
        Err(cause) => match cause.kind() {
            ErrorKind::OutOfMemory => Err(cause),
            _ => Ok(None),
        },
    }
}

fn named<R: Files + Drop>(
    alloc: Global,
    entry: io::Result<DirEntry<R>>,
) -> io::Result<(String, EntryKind)> {
    let entry = entry?;
    let kind = match entry.file_type()?.is_dir() {
        true => EntryKind::Folder,
        false => EntryKind::File,
    };
    Ok((String::from_str(alloc, entry.file_name())?, kind))
}
