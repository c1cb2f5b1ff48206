//! Hash arguments that built-in helpers read.

ghost use Rattle.std.specs.Prelude.{◌≡◌, [], option_map};
ghost use Rattle.handlebars_helpers.specs.CallView.{hash_at};
ghost use Rattle.handlebars_helpers.specs.Choice.{includes_zero};
ghost use Rattle.handlebars_values.specs.BuiltIn.{passed_call};
ghost use Rattle.handlebars_values.specs.ParamView.{argument_view};
ghost use Rattle.handlebars_values.specs.View.{arguments_seen};

use crate::param_value::Argument;
use std::collections::BTreeMap;

/// Returns the hash argument with this key, or `None` if there is none.
pub(crate) fn argument<'h, 'v>(
    hash: &'h BTreeMap<&'v str, Argument<'v>>,
    key: &str,
) -> Option<&'h Argument<'v>>
    ensures { option_map (λ p. argument_view p.now) result ≡ hash_at key.now (passed_call ([], arguments_seen hash.now.entries)) }
{
    hash.get(key)
}

/// Returns whether 0 counts as true: the value of the hash argument `includeZero`, if that is a boolean.
pub(crate) fn includes_zero<'v>(hash: &BTreeMap<&'v str, Argument<'v>>) -> bool
    ensures { result ≡ includes_zero (passed_call ([], arguments_seen hash.now.entries)) }
{
    match argument(hash, "includeZero") {
        Some(param) => match param.as_json() {
            Some(value) => value.as_bool().unwrap_or(false),
            None => false,
        },
        None => false,
    }
}
