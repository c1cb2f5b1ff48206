//! An output of one writer, which its type names: whatever is written to the output is written to that writer.

ghost use Rattle.std.specs.Prelude.{◌≡◌, Option};
ghost use Rattle.handlebars_base.specs.Bytes.{Text};
ghost use Rattle.handlebars.specs.Taken.{ReportsTaken};
ghost use base.Fml.{GName};

use crate::output::put_all;
use crate::output::taken::Taken;
use handlebars_base::output::Output;
use std::io;
use std::io::Write;
use std::marker::{Brand, PhantomData};

/// Identifies the writer, and what it reported at first that it holds. A call picks both, in its proof.
pub(crate) trait Named {
    ghost name: { GName };

    ghost first: { Option Text };
}

impl Named for Brand {
    ghost use Rattle.std.specs.Prelude.{None};

    ghost name = { 0 };

    ghost first = { None };
}

/// An output to that writer, which had taken nothing at first.
#[derive(Drop)]
pub(crate) struct NamedOutput<'w, W: Write, K: Named> {
    pub(crate) writer: &'w mut W,
    pub(crate) taken: Taken,
    pub(crate) write_errors: u64,
    pub(crate) of: PhantomData<K>,
    ghost same: { writer.ghost_name ≡ K.name },
    ghost reported: { ReportsTaken K.first taken.text (W.contents writer.now) },
}

impl<W: Write, K: Named> Output for NamedOutput<'_, W, K> {
    ghost use Rattle.handlebars.specs.Writers.{held_by_output};

    ghost held = { held_by_output };

    #[inline(always)]
    fn write(&mut self, seg: &str) -> Result<(), io::Error> {
        match put_all(self.writer, &mut self.taken, seg.as_bytes()) {
            Ok(()) => Ok(()),
            Err(cause) => {
                self.write_errors = self.write_errors.saturating_add(1);
                Err(cause)
            }
        }
    }
}
