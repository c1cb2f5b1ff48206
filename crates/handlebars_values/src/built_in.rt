//! What the built-in helpers choose. Each evaluates what it is called with: nothing is built for the call.

ghost use Rattle.std.specs.Prelude.{IfOk, map};
ghost use Rattle.serde_json.specs.View.{view};
ghost use Rattle.handlebars_helpers.specs.CallView.{HelperView};
ghost use Rattle.handlebars_helpers.specs.View.{built_in_kind};
ghost use Rattle.handlebars_scope.specs.Contexts.{data_of};
ghost use Rattle.handlebars_template.specs.Tree.{call_args};
ghost use Rattle.handlebars_template.specs.TreeView.{call_view};
ghost use Rattle.handlebars_expand.specs.Boxed.{answer_of};
ghost use Rattle.handlebars_expand.specs.View.{Yields};
ghost use Rattle.handlebars_values.specs.BuiltIn.{AsksFor, HasBuiltInChoice};
ghost use Rattle.handlebars_values.specs.ChoiceView.{IsChoiceOf, choice_seen};
ghost use Rattle.handlebars_values.specs.Judgement.{InState};

use crate::boolean::Test;
use crate::by_first::ByFirst;
use crate::by_two::ByTwo;
use crate::environment::Environment;
use crate::evaluate::{choose_body, choose_by_first, choose_by_truth, choose_by_two, choose_line};
use crate::param_value::ParamValue;
use crate::run::Run;
use handlebars_base::json::value::Json;
use handlebars_expand::boxed::BoxedError;
use handlebars_expand::registered::Registered;
use handlebars_helpers::built_in::BuiltIn;
use handlebars_template::template::HelperTemplate;
use log::Level;

/// What is known of a call of a built-in helper besides its parameters and hash arguments: the values that a local helper passes
/// before the parameters, and whether the call has a body and an inverse. In parentheses it has neither.
#[derive(Clone, Copy)]
pub struct Asked<'c> {
    pub constants: &'c [Json],
    pub has_body: bool,
    pub has_inverse: bool,
}

/// What is rendered for a call of a built-in helper.
#[derive(Drop)]
pub enum BuiltInChoice<'v> {
    /// The body, if the call has one.
    Body,
    /// The inverse (what follows `else`), if the call has one.
    Inverse,
    /// The body, in a scope frame at this value.
    With(ParamValue<'v>),
    /// The body, for each member of this value, an array or an object that has members.
    Each(ParamValue<'v>),
    /// A value that `lookup` picks, or null if it is missing. It is borrowed where it lasts longer than the call.
    Value(ParamValue<'v>),
    /// A number.
    Count(usize),
    /// The text of a boolean helper; in a block it selects the body or the inverse.
    Boolean(bool),
    /// A line for the logger, and nothing in the output.
    Line(Level, String),
    Nothing,
}

/// Returns what a built-in helper chooses for a call. The parameters are evaluated in order, then the hash arguments, and then the
/// helper decides.
///
/// # Errors
///
/// - If a parameter or a hash argument fails.
/// - `ParamNotFoundForIndex` if a required parameter of a helper other than `len` is absent. In strict mode a
///   missing value counts as absent for the tests of two values and for `not`.
/// - `ParamNotFoundForName` if the parameter of `len` is absent or, in strict mode, if its value is missing.
/// - `MissingVariable` in strict mode: if `each` or `with` chooses an inverse that the call doesn't have, or
///   `lookup` finds nothing.
/// - `InvalidLoggingLevel` if `level` of `log` names no level.
/// - `OutOfMemory` if memory runs out.
#[cycle(value)]
#[inline(always)]
pub fn choose_built_in<'v, P: Registered>(
    environment: &'v Environment<'v, 'v, P>,
    run: &Run,
    helper: &'v HelperTemplate,
    kind: BuiltIn,
    asked: Asked<'_>,
) -> Result<BuiltInChoice<'v>, BoxedError>
    ensures chooses { InState P.parts environment.now run.now (λ p s. (h : HelperView) → AsksFor asked.entry h → Yields
        (HasBuiltInChoice p s (built_in_kind kind) (map view asked.entry.constants.now) (call_args (call_view helper.now)) h)
        choice_seen (answer_of result)) }
    ensures given { IfOk result (IsChoiceOf (data_of environment.now.innermost.given.now)) }
{
    match kind {
        BuiltIn::If => choose_by_first(environment, run, helper, asked, ByFirst::If),
        BuiltIn::Unless => choose_by_first(environment, run, helper, asked, ByFirst::Unless),
        BuiltIn::Each => choose_by_first(environment, run, helper, asked, ByFirst::Each),
        BuiltIn::With => choose_by_first(environment, run, helper, asked, ByFirst::With),
        other => choose_other(environment, run, helper, other, asked),
    }
}

// Returns what a built-in helper chooses. It is not inlined: calls of the four helpers of blocks don't reserve space for it.
#[cycle(value)]
#[inline(never)]
fn choose_other<'v, P: Registered>(
    environment: &'v Environment<'v, 'v, P>,
    run: &Run,
    helper: &'v HelperTemplate,
    kind: BuiltIn,
    asked: Asked<'_>,
) -> Result<BuiltInChoice<'v>, BoxedError>
    ensures chooses { InState P.parts environment.now run.now (λ p s. (h : HelperView) → AsksFor asked.entry h → Yields
        (HasBuiltInChoice p s (built_in_kind kind) (map view asked.entry.constants.now) (call_args (call_view helper.now)) h)
        choice_seen (answer_of result)) }
    ensures given { IfOk result (IsChoiceOf (data_of environment.now.innermost.given.now)) }
{
    match kind {
        BuiltIn::If => choose_by_first(environment, run, helper, asked, ByFirst::If),
        BuiltIn::Unless => choose_by_first(environment, run, helper, asked, ByFirst::Unless),
        BuiltIn::Each => choose_by_first(environment, run, helper, asked, ByFirst::Each),
        BuiltIn::With => choose_by_first(environment, run, helper, asked, ByFirst::With),
        BuiltIn::Lookup => choose_by_two(environment, run, helper, asked, ByTwo::Lookup),
        BuiltIn::Raw => choose_body(environment, run, helper, asked),
        BuiltIn::Log => choose_line(environment, run, helper, asked),
        BuiltIn::Eq => choose_by_two(environment, run, helper, asked, ByTwo::Test(Test::Equal)),
        BuiltIn::Ne => choose_by_two(environment, run, helper, asked, ByTwo::Test(Test::Differ)),
        BuiltIn::Gt => choose_by_two(environment, run, helper, asked, ByTwo::Test(Test::Greater)),
        BuiltIn::Gte => choose_by_two(
            environment,
            run,
            helper,
            asked,
            ByTwo::Test(Test::GreaterOrEqual),
        ),
        BuiltIn::Lt => choose_by_two(environment, run, helper, asked, ByTwo::Test(Test::Less)),
        BuiltIn::Lte => choose_by_two(
            environment,
            run,
            helper,
            asked,
            ByTwo::Test(Test::LessOrEqual),
        ),
        BuiltIn::And => choose_by_truth(environment, run, helper, asked, true),
        BuiltIn::Or => choose_by_truth(environment, run, helper, asked, false),
        BuiltIn::Not => choose_by_first(environment, run, helper, asked, ByFirst::Not),
        BuiltIn::Len => choose_by_first(environment, run, helper, asked, ByFirst::Len),
    }
}
