//! How many problems there are.

ghost use Rattle.std.specs.Prelude.{◌≡◌, Some};
ghost use Rattle.std.specs.Fmt.{WritesOnOk};
ghost use Rattle.handlebars_report.specs.Summary.{amount, summary_text};

use std::fmt;

/// How many errors and warnings there are.
#[derive(Clone, Copy, Debug, PartialEq, Eq)]
pub struct Summary {
    pub errors: usize,
    pub warnings: usize,
}

/// Shows the counts, as `2 errors, 1 warning`, `1 warning` or `no problems`.
impl fmt::Display for Summary {
    ghost output = { λ s. Some (summary_text s) };

    fn fmt<W: fmt::Write>(&self, f: &mut fmt::Formatter<W>) -> fmt::Result {
        match (self.errors, self.warnings) {
            (0, 0) => f.write_str("no problems"),
            (0, warnings) => write_amount(f, warnings, "warning"),
            (errors, 0) => write_amount(f, errors, "error"),
            (errors, warnings) => {
                write_amount(f, errors, "error")?;
                f.write_str(", ")?;
                write_amount(f, warnings, "warning")
            }
        }
    }
}

// Writes a number and what there are so many of.
fn write_amount<W: fmt::Write>(f: &mut fmt::Formatter<W>, number: usize, what: &str) -> fmt::Result
    ensures { WritesOnOk W.write_str_gives f.old result (amount number what.now) f.new }
{
    if number == 1 {
        write!(f, "{number} {what}")
    } else {
        write!(f, "{number} {what}s")
    }
}
