//! Paths at the start of longer texts.

ghost use Rattle.std.specs.Prelude.{◌≡◌, ◌==◌, IfOk, Some, not};
ghost use Rattle.std.specs.List.{position};
ghost use Rattle.std.specs.Option.{option_map};
ghost use Rattle.handlebars_base.specs.Path.{Shape};
ghost use Rattle.handlebars_base.specs.PathView.{prefix_of, path_token_of};
ghost use Rattle.handlebars_base.specs.PathReading.{is_reference_byte, reference_len, shape_at, path_at, path_token_at};

use super::Path;
use super::marks::is_symbol;
use super::start::{after_start, path_from, start_at, start_segments};
use std::alloc::{AllocError, Global};

/// The text of a path, and what follows it.
#[derive(Clone, Copy, Debug)]
pub struct PathToken<'a> {
    pub raw: &'a str,
    pub rest: &'a str,
}

/// A path, and what follows its text.
#[derive(Debug, Drop)]
pub struct PathPrefix<'a> {
    pub path: Path,
    pub rest: &'a str,
}

/// Finds the path at the start of a text: the longest prefix of symbols, `.`, `/`, `@` and names in closed brackets,
/// if that is a path. Allocates nothing.
pub fn split_path(text: &str) -> Option<PathToken<'_>>
    ensures { option_map path_token_of result ≡ path_token_at text.now }
{
    let (start, after) = start_at(text)?;
    token_before(text, after_start(start, after))
}

/// Parses the path that `split_path` finds.
///
/// # Errors
///
/// Fails if memory runs out.
pub fn read_prefix(alloc: Global, text: &str) -> Result<Option<PathPrefix<'_>>, AllocError>
    ensures { IfOk result (λ read. option_map prefix_of read ≡ path_at text.now) }
{
    let Some((start, after)) = start_at(text) else {
        return Ok(None);
    };
    let (segs, rest) = start_segments(alloc, start, after)?;
    let Some(token) = token_before(text, rest) else {
        return Ok(None);
    };
    let path = path_from(alloc, start, segs, token.raw)?;
    Ok(Some(PathPrefix {
        path,
        rest: token.rest,
    }))
}

/// Returns the text before `rest`, which its links leave, unless a reference continues there.
fn token_before<'a>(text: &'a str, rest: &'a str) -> Option<PathToken<'a>>
    requires { (shape : Shape) × (shape_at text.now ≡ Some (shape, rest.now)) }
    ensures { option_map path_token_of result ≡ path_token_at text.now }
{
    if goes_on(rest) {
        return None;
    }
    let (raw, rest) = text.split_at(text.len() - rest.len());
    Some(PathToken { raw, rest })
}

/// Returns whether a reference continues here. A bracket counts only if it is closed.
fn goes_on(text: &str) -> bool
    ensures { result ≡ not (reference_len text.now == 0) }
{
    let [first, rest @ ..] = text.as_bytes() else {
        return false;
    };
    if *first == b'[' {
        closing(rest).is_some()
    } else {
        is_reference_byte(*first)
    }
}

/// Returns whether a byte may occur in a path outside brackets.
fn is_reference_byte(byte: u8) -> bool
    ensures { result ≡ is_reference_byte byte }
{
    is_symbol(byte) || byte == b'.' || byte == b'/' || byte == b'@'
}

fn closing(bytes: &[u8]) -> Option<usize>
    ensures { result ≡ position (λ byte. byte == 93) bytes.now }
{
    bytes.iter().position(|byte| *byte == b']')
}
