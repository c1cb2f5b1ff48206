//! Paths into the data, as templates write them: `@root` and links from there, a variable of a block after `@`, or
//! names, names in brackets and `..`, joined by `/` or `.`.

ghost use Rattle.std.specs.Prelude.{◌≡◌, ◌≢◌, ◌↔◌, IfOk, IfErr, IfSome, IsNone};
ghost use Rattle.handlebars_base.specs.Path.{IsPath, Reference, raw_of};
ghost use Rattle.handlebars_base.specs.PathView.{reference_of};
ghost use Rattle.handlebars_base.specs.Reasons.{out_of_memory, invalid_json_path};
ghost use Rattle.handlebars_base.specs.RenderRefusals.{reason_in, refusal_of, plain_refusal};

use crate::error::{RenderError, RenderErrorReason};
use std::alloc::{AllocError, Global};

mod links;
pub mod marks;
mod prefix;
mod start;

pub use prefix::{PathPrefix, PathToken, read_prefix, split_path};

/// A segment that isn't a name.
#[derive(Clone, Copy, Debug, PartialEq, Eq)]
pub enum PathRule {
    /// `@root`, the whole data.
    Root,
    /// The block in which the path occurs. No text is parsed as this segment.
    Local,
    /// `..`, the enclosing block.
    Up,
}

/// One step through the data. The name `this` leads nowhere else, so it makes no segment.
#[derive(Debug, Drop, PartialEq, Eq)]
pub enum PathSeg {
    Named(String),
    Ruled(PathRule),
}

/// A path. The last field of each variant is the text as written.
#[derive(Debug, Drop, PartialEq, Eq)]
pub enum Path {
    /// The segments of a path through the data.
    Relative((Vec<PathSeg>, String)),
    /// A variable of a block: the number of blocks up, and its name.
    Local((usize, String, String)),
}

impl Path {
    /// Parses the whole text as a path.
    ///
    /// # Errors
    ///
    /// Fails with `InvalidJsonPath` of the text if the text isn't a path, and with `OutOfMemory` if memory runs out.
    pub fn parse(alloc: Global, raw: &str) -> Result<Path, RenderError>
        ensures ok { IfOk result (λ path. IsPath raw.now (reference_of path)) }

        // Unless memory runs out, only a text that isn't a path is rejected.
        ensures err { IfErr result (λ e. reason_in e ≢ out_of_memory
            → (refusal_of e ≡ plain_refusal (invalid_json_path raw.now))
            × ((means : Reference) → IsPath raw.now means → ⊥)) }
    {
        match read_path(alloc, raw)? {
            Some(path) => Ok(path),
            None => Err(RenderErrorReason::InvalidJsonPath(String::from_str(alloc, raw)?).into()),
        }
    }

    /// Returns the text as written.
    pub fn raw(&self) -> &str
        ensures { result.now ≡ raw_of (reference_of self.now) }
    {
        match self {
            Path::Relative((_, raw)) => raw.as_str(),
            Path::Local((_, _, raw)) => raw.as_str(),
        }
    }
}

/// Parses the whole text as a path. Returns `None` if it isn't one.
///
/// # Errors
///
/// Fails if memory runs out.
pub fn read_path(alloc: Global, raw: &str) -> Result<Option<Path>, AllocError>
    ensures found { IfOk result (λ read. IfSome read (λ path. IsPath raw.now (reference_of path))) }
    ensures none { IfOk result (λ read. IsNone read ↔ ((means : Reference) → IsPath raw.now means → ⊥)) }
{
    match read_prefix(alloc, raw)? {
        Some(prefix) => {
            if prefix.rest.is_empty() {
                Ok(Some(prefix.path))
            } else {
                Ok(None)
            }
        }
        None => Ok(None),
    }
}
