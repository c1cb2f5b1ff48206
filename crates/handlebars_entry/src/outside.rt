//! The environment outside of every inclusion, over the frames from outside.

ghost use Rattle.std.specs.Prelude.{List};
ghost use Rattle.serde_json.specs.Data.{Data};
ghost use Rattle.handlebars_scope.specs.declared.block.BlockContext.{BlockContext};
ghost use Rattle.handlebars_entry.specs.Entry.{IsNoInclusion, IsOutermost, IsOutside};

use handlebars_layers::innermost::Innermost;
use handlebars_scope::block::BlockContext;
use handlebars_values::environment::{Environment, Inclusion};
use handlebars_write::location::IterationsAround;

/// Returns the environment outside of every inclusion.
pub(crate) fn environment_outside<'r, P>(
    inclusion: &'r Inclusion<'r, P>,
    innermost: Innermost<'r, 'r>,
    iterations: &'r IterationsAround<'r>,
) -> Environment<'r, 'r, P>
    ensures { (blocks : List BlockContext) (parts : P) (d : Data) → IsOutside blocks d innermost.entry iterations.now
        → IsNoInclusion parts inclusion.now → IsOutermost result parts d blocks }
{
    Environment {
        inclusion,
        innermost,
        iterations,
    }
}
