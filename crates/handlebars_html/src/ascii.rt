//! Bytes as HTML and URLs class them.

ghost use Rattle.std.specs.Prelude.{◌≡◌};
ghost use Rattle.handlebars_html.specs.Ascii as ascii;

/// Returns whether the byte is a space, a newline, a tab, a carriage return or a form feed.
pub fn is_html_white(byte: u8) -> bool
    ensures { result ≡ ascii.is_html_white byte }
{
    byte == b' ' || byte == b'\n' || byte == b'\t' || byte == b'\r' || byte == 12
}

fn is_upper(byte: u8) -> bool
    ensures { result ≡ ascii.is_upper byte }
{
    65 <= byte && byte <= 90
}

/// Returns the byte in lowercase, if it is a letter of ASCII, and otherwise the byte itself.
pub fn lower(byte: u8) -> u8
    ensures { result ≡ ascii.lower byte }
{
    if is_upper(byte) { byte + 32 } else { byte }
}

/// Returns whether the byte is a letter of ASCII.
pub fn is_letter(byte: u8) -> bool
    ensures { result ≡ ascii.is_letter byte }
{
    let small = lower(byte);
    97 <= small && small <= 122
}

/// Returns whether URL parsers remove the byte at the beginning of an address.
pub fn is_blank_or_control(byte: u8) -> bool
    ensures { result ≡ ascii.is_blank_or_control byte }
{
    byte <= b' '
}

/// Returns whether an address may be read as if the byte were a slash.
pub fn is_any_slash(byte: u8) -> bool
    ensures { result ≡ ascii.is_any_slash byte }
{
    byte == b'/' || byte == b'\\'
}

/// Returns whether the query or the fragment of an address begins at the byte.
pub fn begins_query(byte: u8) -> bool
    ensures { result ≡ ascii.begins_query byte }
{
    byte == b'?' || byte == b'#'
}
