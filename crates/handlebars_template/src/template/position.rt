//! Lines and columns.

ghost use Rattle.std.specs.Prelude.{◌≡◌, ◌+◌, ◌<◌, ◌^◌, ◌&&◌, ◌==◌, true, not, nat_lt, fold, length};
ghost use Rattle.handlebars_base.specs.Bytes.{newline};
ghost use Rattle.handlebars_template.specs.Position.{position_after};
ghost use Rattle.handlebars_template.specs.TreeView.{position_of};

use crate::template::tree::TemplateMapping;

/// Returns the position after a text that begins at this position.
pub fn advance(position: TemplateMapping, text: &str) -> TemplateMapping
    requires line { position.0 + length text.now < 2 ^ 64 }
    requires column { position.1 + length text.now < 2 ^ 64 }
    ensures { position_of result ≡ position_after (position_of position) text.now }
{
    if are_columns(text.as_bytes()) {
        TemplateMapping(position.0, position.1 + text.len())
    } else {
        advance_by_bytes(position, text)
    }
}

// Whether a byte is a column of its own and ends no line.
fn is_column(byte: u8) -> bool
    ensures { result ≡ nat_lt byte 128 && not (byte == newline) }
{
    byte < 128 && byte != b'\n'
}

// Whether each byte is one for which `is_column` holds. The loop doesn't stop early, so that many bytes can be tested at once.
fn are_columns(bytes: &[u8]) -> bool
    ensures { result ≡ fold (λ all b. all && (nat_lt b 128 && not (b == newline))) true bytes.now }
{
    let mut all = true;
    'bytes: for byte in bytes {
        all &= is_column(*byte);
    }
    all
}

fn advance_by_bytes(position: TemplateMapping, text: &str) -> TemplateMapping
    requires line { position.0 + length text.now < 2 ^ 64 }
    requires column { position.1 + length text.now < 2 ^ 64 }
    ensures { position_of result ≡ position_after (position_of position) text.now }
{
    let mut line = position.0;
    let mut column = position.1;

    // From this index on, each byte so far is a column. Most bytes are, and they change nothing.
    let mut from = 0;
    let bytes = text.as_bytes();
    for (at, byte) in bytes.iter().enumerate() {
        if *byte < 11 || *byte > 127 {
            if *byte == b'\n' {
                line += 1;
                column = 1;
                from = at + 1;
            } else if *byte > 127 && *byte < 192 {
                from += 1;
            }
        }
    }
    TemplateMapping(line, column + (bytes.len() - from))
}
