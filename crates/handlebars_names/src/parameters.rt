//! How many parameters helpers need.

ghost use Rattle.std.specs.Prelude.{◌≡◌};
ghost use Rattle.handlebars_helpers.specs.View.{built_in_kind};
ghost use Rattle.handlebars_template.specs.TreeView.{params_view};
ghost use Rattle.handlebars_names.specs.Whys as whys;

use handlebars_helpers::built_in::BuiltIn;
use handlebars_template::template::Parameter;

/// Returns how many parameters a built-in helper needs.
pub fn needed_params(kind: BuiltIn) -> usize
    ensures { result ≡ whys.needed_params (built_in_kind kind) }
{
    match kind {
        BuiltIn::If => 1,
        BuiltIn::Unless => 1,
        BuiltIn::Each => 1,
        BuiltIn::With => 1,
        BuiltIn::Lookup => 2,
        BuiltIn::Raw => 0,
        BuiltIn::Log => 0,
        BuiltIn::Eq => 2,
        BuiltIn::Ne => 2,
        BuiltIn::Gt => 2,
        BuiltIn::Gte => 2,
        BuiltIn::Lt => 2,
        BuiltIn::Lte => 2,
        BuiltIn::And => 0,
        BuiltIn::Or => 0,
        BuiltIn::Not => 1,
        BuiltIn::Len => 1,
    }
}

/// Returns whether there are so many parameters.
pub fn has_params(params: &[Parameter], needed: usize) -> bool
    ensures { result ≡ whys.has_params needed (params_view params.now) }
{
    needed <= params.len()
}
