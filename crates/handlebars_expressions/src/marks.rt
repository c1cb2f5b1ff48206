//! Runs and quotes at the start of a text.

ghost use Rattle.std.specs.Prelude.{◌≡◌, ◌<◌, false};
ghost use Rattle.std.specs.List.{prefix_len};
ghost use Rattle.std.specs.Option.{option_map};
ghost use Rattle.handlebars_base.specs.Texts.{starts};
ghost use Rattle.handlebars_expressions.specs.Literal.{continues_literal};
ghost use Rattle.handlebars_expressions.specs.LiteralReading.{after_quote, run_of, after_run};

use handlebars_base::json::path::marks::is_symbol;

/// Whether no literal directly precedes this byte.
fn goes_on(byte: u8) -> bool
    ensures { result ≡ continues_literal byte }
{
    is_symbol(byte) || byte == b'.' || byte == b'/'
}

/// Returns whether no literal directly precedes this text.
pub fn starts_run(text: &str) -> bool
    ensures { result ≡ starts continues_literal text.now }
{
    match text.as_bytes() {
        [first, ..] => goes_on(*first),
        [] => false,
    }
}

fn run_len(bytes: &[u8]) -> usize
    ensures { result ≡ prefix_len continues_literal bytes.now }
{
    let mut n = 0;
    while n < bytes.len() && goes_on(bytes[n]) {
        n += 1;
    }
    n
}

/// Returns the longest prefix in which each byte may continue a literal, and what follows it.
pub fn run(text: &str) -> (&str, &str)
    ensures prefix { result.0.now ≡ run_of text.now }
    ensures rest { result.1.now ≡ after_run text.now }
{
    text.split_at(run_len(text.as_bytes()))
}

/// Returns what follows the quote that closes a text.
pub fn after_quote(quote: u8, text: &str) -> Option<&str>
    requires { quote < 128 }
    ensures { option_map (λ rest. rest.now) result ≡ after_quote quote false text.now }
{
    let bytes = text.as_bytes();
    let mut n = 0;
    let mut escaped = false;
    while n < bytes.len() {
        let byte = bytes[n];
        n += 1;
        if escaped {
            escaped = false;
        } else if byte == quote {
            return Some(&text[n..]);
        } else {
            escaped = byte == b'\\';
        }
    }
    None
}
