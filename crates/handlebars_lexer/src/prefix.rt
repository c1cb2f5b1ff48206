//! Marks of several bytes at the start of a text, and tildes.

ghost use Rattle.std.specs.Prelude.{◌≡◌};
ghost use Rattle.std.specs.Option.{option_map};
ghost use Rattle.handlebars_lexer.specs.Kind.{after_text, tilde_at};
ghost use Rattle.handlebars_lexer.specs.KindView.{tilded};

use handlebars_base::json::path::marks::{after_byte, after_white};

/// Returns what follows a mark, if the text begins with it.
pub fn after_text<'a>(mark: &str, text: &'a str) -> Option<&'a str>
    ensures { option_map (λ rest. rest.now) result ≡ after_text mark.now text.now }
{
    text.strip_prefix(mark)
}

/// Returns whether a tilde is at the start of a text, after optional whitespace. Also returns what follows the tilde and the
/// whitespace after it, or, without a tilde, what follows the whitespace.
pub fn tilde_at(text: &str) -> (bool, &str)
    ensures { tilded result ≡ tilde_at text.now }
{
    let dark = after_white(text);
    match after_byte(b'~', dark) {
        Some(rest) => (true, after_white(rest)),
        None => (false, dark),
    }
}
