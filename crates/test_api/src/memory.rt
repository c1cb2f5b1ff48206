//! A reader over memory, which always gives the same answer.

use handlebars::{EntryKind, TemplateReader};
use std::alloc::Global;
use std::collections::BTreeMap;
use std::io;
use std::io::ErrorKind;

/// Texts by path. There are no folders. For any other path the answer is `NotFound`.
#[derive(Drop)]
pub struct Texts {
    pub alloc: Global,
    pub texts: BTreeMap<String, String>,
}

impl TemplateReader for Texts {
    ghost use Rattle.std.specs.Prelude.{◌≡◌, IsErrAnd};
    ghost use Rattle.std.specs.IoError.{error_kind};
    ghost use Rattle.std.specs.declared.io.ErrorKind.TheVariants.{NotFound};
    ghost use Rattle.test_api.specs.Memory.{ReadsStored, text_at};

    ghost reads = { λ before path answer after. ReadsStored (text_at before.texts path) answer × (after ≡ before) };

    ghost lists = { λ before path answer after. IsErrAnd answer (λ e. error_kind e ≡ NotFound) × (after ≡ before) };

    fn read(&mut self, path: &str) -> Result<String, io::Error> {
        match self.texts.get(path) {
            Some(text) => Ok(String::from_str(self.alloc, text.as_str())?),
            None => Err(io::Error::from(ErrorKind::NotFound)),
        }
    }

    fn list(&mut self, _folder: &str) -> Result<Vec<(String, EntryKind)>, io::Error> {
        Err(io::Error::from(ErrorKind::NotFound))
    }
}
