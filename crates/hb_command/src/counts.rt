//! Numbers with separators.

use std::fmt;

/// A number that is written with a comma before each three digits, as 1,000,000.
#[derive(Clone, Copy)]
pub struct Grouped(pub u64);

const POWERS: [u64; 7] = [
    1_000_000_000_000_000_000,
    1_000_000_000_000_000,
    1_000_000_000_000,
    1_000_000_000,
    1_000_000,
    1_000,
    1,
];

impl fmt::Display for Grouped {
    fn fmt<W: fmt::Write>(&self, f: &mut fmt::Formatter<W>) -> fmt::Result {
        let mut begun = false;
        for power in POWERS {
            if power == 0 {
                continue;
            }
            let group = self.0 / power % 1_000;
            if begun {
                write!(f, ",{group:03}")?;
            } else if group > 0 || power == 1 {
                write!(f, "{group}")?;
                begun = true;
            }
        }
        Ok(())
    }
}
