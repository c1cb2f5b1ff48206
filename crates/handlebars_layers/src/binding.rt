//! The names that blocks and layers bind.

ghost use Rattle.std.specs.Prelude.{◌≡◌, option_map};
ghost use Rattle.handlebars_helpers.specs.CallView.{bound_name};
ghost use Rattle.handlebars_template.specs.TreeView.{binding_of, binding_view, param_view};
ghost use Rattle.handlebars_layers.specs.Binding.{binds_names, is_some_value};
ghost use Rattle.handlebars_layers.specs.FrameValues.{hash_values};
ghost use Rattle.handlebars_layers.specs.LayerView.{names_seen};
ghost use Rattle.handlebars_layers.specs.Layering.{bound_names};

use crate::destination::FrameValue;
use crate::layer::{BlockNames, LayerKind};
use handlebars_template::template::{BlockParam, Parameter};

/// Returns the names that a block binds. A parameter that is not a name binds nothing; if one of two is not a name, the block
/// binds neither. Only hand-built templates have such parameters.
pub fn block_names<'r>(binding: Option<&'r BlockParam>) -> BlockNames<'r>
    ensures { names_seen result ≡ bound_names (binding_of (option_map (λ b. binding_view b.now) binding.entry)) }
{
    match binding {
        Some(BlockParam::Single(parameter)) => match bound_name(parameter) {
            Some(name) => BlockNames::One(name),
            None => BlockNames::Unnamed,
        },
        Some(BlockParam::Pair(parameters)) => {
            match (bound_name(&parameters.0), bound_name(&parameters.1)) {
                (Some(first), Some(second)) => BlockNames::Two(first, second),
                _ => BlockNames::Unnamed,
            }
        }
        None => BlockNames::Unnamed,
    }
}

// Returns the name that a parameter binds.
fn bound_name(parameter: &Parameter) -> Option<&str>
    ensures { option_map (λ name. name.now) result ≡ bound_name (param_view parameter.now) }
{
    match parameter {
        Parameter::Name(name) => Some(name.as_str()),
        Parameter::Path(_) => None,
        Parameter::Literal(_) => None,
        Parameter::Subexpression(_) => None,
    }
}

impl<'r> LayerKind<'r> {
    ghost use Rattle.std.specs.Prelude.{◌≡◌};
    ghost use Rattle.handlebars_layers.specs.Binding.{kind_binds};
    ghost use Rattle.handlebars_layers.specs.LayerView.{kind_view};

    // Returns whether a layer of this kind binds a name.
    pub(crate) fn binds(self) -> bool
        ensures { result ≡ kind_binds (kind_view self.entry) }
    {
        match self {
            LayerKind::Iteration { names, .. } => binds_names(names),
            LayerKind::With { names } => binds_names(names),
            LayerKind::Partial { hash } => has_values(hash),
        }
    }
}

fn binds_names(names: &BlockNames) -> bool
    ensures { result ≡ binds_names (names_seen names.now) }
{
    match names {
        BlockNames::Unnamed => false,
        BlockNames::One(_) => true,
        BlockNames::Two(_, _) => true,
    }
}

fn has_values(hash: &[(&str, FrameValue)]) -> bool
    ensures { result ≡ is_some_value (hash_values hash.now) }
{
    hash.len() > 0
}
