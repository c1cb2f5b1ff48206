//! What a tag calls, and whether that moves the value in which names are looked up.

ghost use Rattle.std.specs.Prelude.{◌≡◌, not};
ghost use Rattle.handlebars_template.specs.Tree.{lacks_params};
ghost use Rattle.handlebars_template.specs.TreeView.{call_view, params_view};
ghost use Rattle.handlebars_includes.specs.Frames as scopes;
ghost use Rattle.handlebars_includes.specs.Hidden as hidden;
ghost use Rattle.handlebars_includes.specs.View.{text_in};

use crate::frame::is_one_of;
use handlebars_template::template::{HelperTemplate, Parameter};

/// Whether the body of a call is rendered where the call is.
pub fn stays(call: &HelperTemplate) -> bool
    ensures { result ≡ hidden.stays (call_view call.now) }
{
    match call.name.as_name() {
        Some(name) => is_staying(name),
        None => false,
    }
}

fn is_staying(name: &str) -> bool
    ensures { result ≡ scopes.is_one_of hidden.staying_helpers name.now }
{
    is_one_of(
        &[
            "if", "unless", "lookup", "raw", "log", "len", "eq", "ne", "gt", "gte", "lt", "lte",
            "and", "or", "not",
        ],
        name,
    )
}

fn is_moving(name: &str) -> bool
    ensures { result ≡ scopes.is_one_of hidden.moving_helpers name.now }
{
    is_one_of(&["each", "with"], name)
}

/// Whether a call is of a built-in helper.
pub fn is_helper(call: &HelperTemplate) -> bool
    ensures { result ≡ hidden.is_helper (call_view call.now) }
{
    match call.name.as_name() {
        Some(name) => is_staying(name) || is_moving(name),
        None => false,
    }
}

/// Whether a partial call stands for the captured block.
pub fn is_partial_block(name: Option<&str>) -> bool
    ensures { result ≡ hidden.is_partial_block (text_in name.entry) }
{
    match name {
        Some(name) => name == "@partial-block",
        None => false,
    }
}

/// Whether a tag has parameters.
pub fn has_params(params: &Vec<Parameter>) -> bool
    ensures { result ≡ not (lacks_params (params_view params.now.items)) }
{
    match params.first() {
        Some(_) => true,
        None => false,
    }
}
