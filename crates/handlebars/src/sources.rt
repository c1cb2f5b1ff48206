//! Where the texts of templates come from.

ghost use Rattle.std.specs.Prelude.{ℕ, List, Result, String};
ghost use Rattle.std.specs.Global.{Vec};
ghost use Rattle.std.specs.declared.alloc.Global.{Global};
ghost use Rattle.std.specs.declared.io.Error.{Error};
ghost use Rattle.handlebars.specs.declared.sources.EntryKind.{EntryKind};

mod file_reader;
mod options;

pub use file_reader::FileReader;
pub use options::DirectorySourceOptions;
use std::io;
use std::io::ErrorKind;

/// What an entry of a folder is.
#[derive(Clone, Copy, Debug, PartialEq, Eq)]
pub enum EntryKind {
    File,
    Folder,
}

/// Reads the texts of templates by path, and lists folders. Paths are UTF-8 text, their parts joined by `/`.
pub trait TemplateReader {
    // From this state a read of this path may return this result, and leave the reader in that state.
    ghost reads: { Self → List ℕ → Result (String Global) Error → Self → Type 0 };

    // From this state a listing of this folder may return this result, and leave the reader in that state.
    ghost lists: { Self → List ℕ → Result (Vec (String Global × EntryKind)) Error → Self → Type 0 };

    /// Reads the text of a file.
    fn read(&mut self, path: &str) -> Result<String, io::Error>
        ensures { reads self.old path.now result self.new };

    /// Lists the entries of a folder, with their names.
    fn list(&mut self, folder: &str) -> Result<Vec<(String, EntryKind)>, io::Error>
        ensures { lists self.old folder.now result self.new };
}

/// A reader without files, for renderings that read none. Every call fails with `NotFound`.
#[derive(Drop)]
pub struct NoFiles;

impl TemplateReader for NoFiles {
    ghost use Rattle.std.specs.Prelude.{◌≡◌, IsErrAnd};
    ghost use Rattle.std.specs.IoError.{error_kind};
    ghost use Rattle.std.specs.declared.io.ErrorKind.TheVariants.{NotFound};

    ghost reads = { λ before path answer after. IsErrAnd answer (λ e. error_kind e ≡ NotFound) × (after ≡ before) };

    ghost lists = { λ before path answer after. IsErrAnd answer (λ e. error_kind e ≡ NotFound) × (after ≡ before) };

    fn read(&mut self, _path: &str) -> Result<String, io::Error> {
        Err(io::Error::from(ErrorKind::NotFound))
    }

    fn list(&mut self, _folder: &str) -> Result<Vec<(String, EntryKind)>, io::Error> {
        Err(io::Error::from(ErrorKind::NotFound))
    }
}
