//! A reader over the files and folders of a test case.

use handlebars::{EntryKind, JsonValue, TemplateReader};
use serde_json::Map;
use std::alloc::{AllocError, Global};
use std::io;
use std::io::ErrorKind;
use test_cases::file_answer::FileAnswer;
use test_cases::names::Names;

/// Answers with what was last put under a path, and records the paths that it is asked for. The path of a folder is recorded
/// with `/` after it.
#[derive(Drop)]
pub struct Shelf {
    alloc: Global,
    files: Map<String, JsonValue>,
    asked: Names,
}

impl Shelf {
    /// Creates a reader that has no files yet.
    pub fn new(alloc: Global) -> Shelf {
        Shelf {
            alloc,
            files: Map::new(alloc),
            asked: Names::new(alloc),
        }
    }

    /// Puts files and folders under their paths.
    pub fn put(&mut self, files: &Map<String, JsonValue>) -> Result<(), AllocError> {
        for (path, value) in files.iter() {
            let key = path.clone()?;
            let file_answer = value.clone()?;
            self.files.insert(key, file_answer)?;
        }
        Ok(())
    }

    /// Returns the paths that it was asked for since the last call.
    pub fn take_asked(&mut self) -> Names {
        std::mem::replace(&mut self.asked, Names::new(self.alloc))
    }
}

impl TemplateReader for Shelf {
    ghost use Rattle.std.specs.Prelude.{◌≡◌};

    ghost reads = { λ before path answer after. after.files ≡ before.files };

    ghost lists = { λ before path answer after. after.files ≡ before.files };

    fn read(&mut self, path: &str) -> Result<String, io::Error> {
        self.asked.push(path, "")?;
        match self.files.get(path).and_then(FileAnswer::of) {
            Some(FileAnswer::Text(text)) => Ok(String::from_str(self.alloc, text)?),
            Some(FileAnswer::Fault(fault)) => Err(io::Error::from(fault.kind())),
            _ => Err(io::Error::from(ErrorKind::NotFound)),
        }
    }

    fn list(&mut self, folder: &str) -> Result<Vec<(String, EntryKind)>, io::Error> {
        self.asked.push(folder, "/")?;
        match self.files.get(folder).and_then(FileAnswer::of) {
            Some(FileAnswer::Entries(entries)) => Ok(listed(self.alloc, entries)?),
            Some(FileAnswer::Fault(fault)) => Err(io::Error::from(fault.kind())),
            _ => Err(io::Error::from(ErrorKind::NotFound)),
        }
    }
}

fn listed(alloc: Global, entries: &[JsonValue]) -> Result<Vec<(String, EntryKind)>, AllocError> {
    let mut listed = Vec::new(alloc);
    for entry in entries {
        let (name, kind) = named(entry.as_str().unwrap_or(""));
        let name = String::from_str(alloc, name)?;
        listed.push((name, kind))?;
    }
    Ok(listed)
}

// The name of an entry. In the test case the name of a folder ends in `/`.
fn named(entry: &str) -> (&str, EntryKind) {
    match entry.strip_suffix('/') {
        Some(name) => (name, EntryKind::Folder),
        None => (entry, EntryKind::File),
    }
}
