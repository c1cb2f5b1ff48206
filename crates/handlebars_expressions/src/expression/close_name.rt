//! The names in closing tags, which may be the names of expressions, too.

ghost use Rattle.std.specs.Prelude.{◌≡◌, ◌==◌, ◌<◌, drop};
ghost use Rattle.std.specs.List.{prefix_len, position};
ghost use Rattle.handlebars_expressions.specs.CloseName.{is_close_symbol, enclosed_at, close_name_at, is_close_name};
ghost use Rattle.handlebars_expressions.specs.ExpressionView.{texts_of};

use handlebars_base::json::path::marks::is_symbol;

/// Returns the close name at the start of a text, possibly empty, and what follows it.
pub fn close_name_at(text: &str) -> (&str, &str)
    ensures { texts_of result ≡ close_name_at text.now }
{
    match text.as_bytes() {
        [b'[', ..] => enclosed_at(b']', text),
        [b'\'', ..] => enclosed_at(b'\'', text),
        [_, ..] => text.split_at(close_symbols_len(text.as_bytes())),
        [] => ("", text),
    }
}

/// Whether the whole text is a close name, possibly empty.
pub(super) fn is_close_name(text: &str) -> bool
    ensures { result ≡ is_close_name text.now }
{
    close_name_at(text).1.is_empty()
}

/// The text up to the mark and including it, if the mark comes after the first byte; and what follows.
fn enclosed_at(mark: u8, text: &str) -> (&str, &str)
    requires { mark < 128 }
    ensures { texts_of result ≡ enclosed_at mark text.now }
{
    match index_after_first(mark, text.as_bytes()) {
        Some(n) => text.split_at(n + 2),
        None => ("", text),
    }
}

/// The number of bytes between the first one and the mark.
fn index_after_first(mark: u8, bytes: &[u8]) -> Option<usize>
    ensures { result ≡ position (λ byte. byte == mark) (drop 1 bytes.now) }
{
    if bytes.is_empty() {
        return None;
    }
    bytes.split_at(1).1.iter().position(|byte| *byte == mark)
}

fn is_close_symbol(byte: u8) -> bool
    ensures { result ≡ is_close_symbol byte }
{
    is_symbol(byte) || byte == b'/' || byte == b'.' || byte == b'@'
}

fn close_symbols_len(bytes: &[u8]) -> usize
    ensures { result ≡ prefix_len is_close_symbol bytes.now }
{
    let mut n = 0;
    'symbols: while n < bytes.len() && is_close_symbol(bytes[n]) {
        n += 1;
    }
    n
}
