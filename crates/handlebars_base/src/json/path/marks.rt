//! Symbols, white space and single marks at the start of a text.

ghost use Rattle.std.specs.Prelude.{◌≡◌, ◌<◌};
ghost use Rattle.std.specs.List.{list_all, prefix_len};
ghost use Rattle.std.specs.Option.{option_map};
ghost use Rattle.handlebars_base.specs.Bytes.{is_white, after_white, is_symbol};
ghost use Rattle.handlebars_base.specs.Texts.{starts, after_byte, symbols_of, after_symbols};
ghost use Rattle.handlebars_base.specs.PathReading.{after_up, ups_at};

/// Returns whether a byte belongs to a symbol. Most that do are lowercase letters.
#[inline(always)]
pub fn is_symbol(byte: u8) -> bool
    ensures { result ≡ is_symbol byte }
{
    if byte.is_ascii_lowercase() {
        return true;
    }
    byte >= 128
        || byte.is_ascii_alphanumeric()
        || byte == b'_'
        || byte == b'-'
        || byte == b'$'
        || byte == b':'
}

pub fn all_symbols(text: &str) -> bool
    ensures { result ≡ list_all is_symbol text.now }
{
    text.as_bytes().iter().all(|byte| is_symbol(*byte))
}

fn symbols_len(bytes: &[u8]) -> usize
    ensures { result ≡ prefix_len is_symbol bytes.now }
{
    let mut n = 0;
    while n < bytes.len() && is_symbol(bytes[n]) {
        n += 1;
    }
    n
}

/// Returns the symbols at the start, and what follows them.
pub fn symbols(text: &str) -> (&str, &str)
    ensures prefix { result.0.now ≡ symbols_of text.now }
    ensures rest { result.1.now ≡ after_symbols text.now }
{
    text.split_at(symbols_len(text.as_bytes()))
}

pub fn is_white(byte: u8) -> bool
    ensures { result ≡ is_white byte }
{
    byte == b' ' || byte == b'\t' || byte == b'\n' || byte == b'\r'
}

pub fn starts_white(text: &str) -> bool
    ensures { result ≡ starts is_white text.now }
{
    match text.as_bytes() {
        [first, ..] => is_white(*first),
        [] => false,
    }
}

pub fn after_white(text: &str) -> &str
    ensures { result.now ≡ after_white text.now }
{
    let mut rest = text;
    while let [first, ..] = rest.as_bytes()
        && is_white(*first)
    {
        rest = rest.split_at(1).1;
    }
    rest
}

/// Returns what follows a mark, if it is at the start.
#[tactic(auto, unfolding(crate::specs::Texts::after_byte))]
pub fn after_byte(mark: u8, text: &str) -> Option<&str>
    requires { mark < 128 }
    ensures { option_map (λ rest. rest.now) result ≡ after_byte mark text.now }
{
    match text.as_bytes() {
        [first, ..] if *first == mark => Some(&text[1..]),
        _ => None,
    }
}

/// Returns what follows `../`, if it is at the start.
#[tactic(auto, unfolding(crate::specs::PathReading::after_up))]
fn after_up(text: &str) -> Option<&str>
    ensures { option_map (λ rest. rest.now) result ≡ after_up text.now }
{
    match text.as_bytes() {
        [b'.', b'.', b'/', ..] => Some(&text[3..]),
        _ => None,
    }
}

/// Returns the number of `../` at the start, and what follows them.
pub fn ups(text: &str) -> (usize, &str)
    ensures { (result.0, result.1.now) ≡ ups_at 0 text.now }
{
    let mut level = 0;
    let mut rest = text;
    while let Some(after) = after_up(rest) {
        level += 1;
        rest = after;
    }
    (level, rest)
}
