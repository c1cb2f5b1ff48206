//! Decorators, which change how the rest is rendered and write nothing themselves.

ghost use Rattle.std.specs.Prelude.{◌≡◌, ◌∷◌, [], MatchResult, None, Some, option_map};
ghost use Rattle.serde_json.specs.View.{view};
ghost use Rattle.handlebars_base.specs.Answers.{Answers, gives};
ghost use Rattle.handlebars_base.specs.PathAndData.{path_and_data};
ghost use Rattle.handlebars_base.specs.Reasons.{param_not_found_for_index};
ghost use Rattle.handlebars_base.specs.RenderRefusals.{plain_refusal, refusal_of};
ghost use Rattle.handlebars_template.specs.TreeView.{tree_view};
ghost use Rattle.handlebars_helpers.specs.Decoration.{by_body, by_text, inline_actions, sets_partial};
ghost use Rattle.handlebars_helpers.specs.DecoratorsView.{tag_view};

pub mod def;
pub mod entry;
pub mod function;
pub mod view;

use handlebars_base::error::{RenderError, RenderErrorReason};
use handlebars_base::json::value::{Json, PathAndJson};
use handlebars_scope::context::Context;
use handlebars_template::template::Template;
use view::Decorator;

/// What is registered under a decorator's name.
#[derive(Clone, Copy, Debug, PartialEq, Eq)]
pub enum DecoratorKind {
    /// `inline`.
    Inline,
    /// A user-defined decorator, which is called by that name.
    User,
}

/// An action of a decorator.
#[derive(Drop)]
pub enum DecoratorStep {
    /// Replaces the data by that of this context, from now on.
    SetContext(Context),
    /// Binds the local name to what is registered under another one. The constants are passed before the
    /// parameters of each call.
    BindHelper {
        local: String,
        registered: String,
        constants: Vec<Json>,
    },
    /// Removes the local helper of the name.
    UnbindHelper(String),
    /// Makes the body of the tag a partial of the nearest scope frame, under this name.
    SetLocalPartial(String),
}

/// What a decorator answers for a tag: its actions, which are executed in order.
pub type DecoratorResult = Result<Vec<DecoratorStep>, RenderError>;

/// Returns the name of the partial that `inline` makes of the body of a tag.
///
/// # Errors
///
/// Fails with `ParamNotFoundForIndex` if the tag has no parameter, with `InvalidParamType` if the first one
/// isn't a string, and with `BlockContentRequired` if the tag has no body, in this order.
pub fn inline<'d>(decorator: &'d Decorator) -> Result<&'d str, RenderError>
    ensures { Answers (λ name. sets_partial name.now ∷ []) result (inline_actions (tag_view decorator.now)) }
{
    let name = text_of(there(decorator.param(0), "inline", 0)?.value())?;
    body_of(decorator)?;
    Ok(name)
}

// The parameter of a decorator at an index. Fails with `ParamNotFoundForIndex` if there is none.
fn there<'h>(
    param: Option<&'h PathAndJson<'h>>,
    name: &'static str,
    index: usize,
) -> Result<&'h PathAndJson<'h>, RenderError>
    ensures { MatchResult result
        (λ p. option_map (λ x. path_and_data x.now) param.entry ≡ Some (path_and_data p.now))
        (λ e. (option_map (λ x. path_and_data x.now) param.entry ≡ None)
        × (refusal_of e ≡ plain_refusal (param_not_found_for_index name.now index))) }
{
    match param {
        Some(param) => Ok(param),
        None => Err(RenderErrorReason::ParamNotFoundForIndex(name, index).into()),
    }
}

// The text of a value that is a string. Fails with `InvalidParamType` for any other value.
fn text_of(value: &Json) -> Result<&str, RenderError>
    ensures { Answers (λ t. t.now) result (by_text (view value.now) (λ t. gives t)) }
{
    match value {
        Json::String(text) => Ok(text.as_str()),
        Json::Null | Json::Bool(_) | Json::Number(_) | Json::Array(_) | Json::Object(_) => {
            Err(RenderErrorReason::InvalidParamType("String").into())
        }
    }
}

// The body of a tag. Fails with `BlockContentRequired` if there is none.
fn body_of<'d>(decorator: &'d Decorator) -> Result<&'d Template, RenderError>
    ensures { Answers (λ t. tree_view t.now) result (by_body (tag_view decorator.now).body (λ t. gives t)) }
{
    match decorator.template() {
        Some(template) => Ok(template),
        None => Err(RenderErrorReason::BlockContentRequired.into()),
    }
}
