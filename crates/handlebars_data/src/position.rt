//! Lines and columns.

ghost use Rattle.std.specs.Prelude.{◌≡◌, ◌≤◌, length, take};
ghost use Rattle.handlebars_data.specs.Position.{position, continues_character};

/// Returns the line and the column of an offset in bytes, both 1-based. Columns count characters.
///
/// Runs in time linear in the offset.
pub fn position_of(text: &[u8], offset: usize) -> (usize, usize)
    requires { offset ≤ length text.now }
    ensures { result ≡ position (take offset text.now) }
{
    let mut line = 1;
    let mut column = 1;
    for byte in &text[..offset] {
        if *byte == b'\n' {
            line += 1;
            column = 1;
        } else if !continues_character(*byte) {
            column += 1;
        }
    }
    (line, column)
}

fn continues_character(byte: u8) -> bool
    ensures { result ≡ continues_character byte }
{
    128 <= byte && byte < 192
}
