//! Sections: blocks whose name has no helper, which act on the value of that name.

ghost use Rattle.std.specs.Prelude.{◌≡◌, [], IfOk, Some, true, unwrap_or};
ghost use Rattle.serde_json.specs.Data.{Data};
ghost use Rattle.serde_json.specs.View.{view};
ghost use Rattle.handlebars_base.specs.Answers.{Answers, gives};
ghost use Rattle.handlebars_base.specs.PathView.{reference_of};
ghost use Rattle.handlebars_base.specs.Scoped.{data_in};
ghost use Rattle.handlebars_template.specs.Tree as tree;
ghost use Rattle.handlebars_template.specs.Tree.{as_name, call_name};
ghost use Rattle.handlebars_template.specs.TreeView.{call_view};
ghost use Rattle.handlebars_helpers.specs.CallView.{CallView};
ghost use Rattle.handlebars_scope.specs.Contexts.{data_of};
ghost use Rattle.handlebars_scope.specs.LineView.{line_of};
ghost use Rattle.handlebars_semantics.specs.Execute.{view_with_bodies};
ghost use Rattle.handlebars_semantics.specs.Means.{render_call};
ghost use Rattle.handlebars_semantics.specs.Occurrences.{Occurrence};
ghost use Rattle.handlebars_semantics.specs.Sections.{HasSectionPath, section_kind};
ghost use Rattle.handlebars_expand.specs.Boxed.{answer_of};
ghost use Rattle.handlebars_expand.specs.View.{name_alone};
ghost use Rattle.handlebars_values.specs.ChoiceView.{IsChoiceOf, choice_seen};
ghost use Rattle.handlebars_values.specs.BuiltIn.{kind_by_first};
ghost use Rattle.handlebars_values.specs.ParamView.{IsOf, value_found};
ghost use Rattle.handlebars_values.specs.View.{CapturedIn, setting_in, state_with, within};
ghost use Rattle.handlebars_write.specs.OutcomeView.{outcome_answer};
ghost use Rattle.handlebars_elements.specs.Chosen.{section_choice};
ghost use Rattle.handlebars_elements.specs.Judgement.{LeadsWith, RefinesWith, Stays};
ghost use Rattle.handlebars_elements.specs.Left.{IsNextOf, IsSection, left_of, then_out};
ghost use Rattle.handlebars_elements.specs.View.{Captures, KnowsLocation};

use crate::bracket::{line_in, line_out};
use crate::call::render_next;
use crate::execute::execute_built_in;
use crate::next::Next;
use handlebars_base::json::path::{Path, read_path};
use handlebars_base::json::value::Json;
use handlebars_expand::boxed::BoxedError;
use handlebars_expand::called::helper_not_found;
use handlebars_expand::registered::Registered;
use handlebars_template::template::{HelperTemplate, Parameter};
use handlebars_values::built_in::{Asked, BuiltInChoice};
use handlebars_values::by_first::{ByFirst, decide_by_first};
use handlebars_values::environment::Environment;
use handlebars_values::find::find;
use handlebars_values::param_value::ParamValue;
use handlebars_values::run::Run;
use handlebars_write::location::ElementLocation;
use handlebars_write::outcome::Outcome;
use handlebars_write::output_mode::OutputMode;
use handlebars_write::sink::Sink;
use std::alloc::AllocError;

/// Renders a section by a path, or by a name, which is parsed as one.
///
/// # Errors
///
/// Fails with `HelperNotFound` if the name is no path, and otherwise if finding the value or rendering the section fails.
#[inline(never)]
#[cycle(render)]
pub fn render_section<'v, O, T: OutputMode<O>, P: Registered>(
    helper: &'v HelperTemplate,
    environment: &'v Environment<'v, 'v, P>,
    fuel: u64,
    at: ElementLocation<'v>,
    run: &mut Run,
    sink: &mut Sink<'_, O, T>,
) -> Outcome
    ensures renders { (occurrence : Occurrence) → KnowsLocation T.mode.asks environment.now at.entry occurrence → (captured : CapturedIn (within environment.now)) → Captures T.mode.asks captured → IsSection (setting_in P.parts environment.now) (state_with captured run.old) (call_view helper.now)
        → RefinesWith P.parts T.mode environment.now run sink (outcome_answer result) captured
        (render_call occurrence true (call_view helper.now)) }
    ensures stays { Stays run sink }
{
    match &helper.name {
        Parameter::Path(path) => render_section_at(helper, environment, fuel, at, path, run, sink),
        Parameter::Name(text) => {
            render_section_named(helper, environment, fuel, at, text.as_str(), run, sink)
        }
        Parameter::Literal(_) => Outcome::Done,
        Parameter::Subexpression(_) => Outcome::Done,
    }
}

// Renders a section by a name, which is parsed as a path once, however many iterations follow. It fails with `HelperNotFound` if
// the name is no path.
#[inline(never)]
#[cycle(render)]
fn render_section_named<'v, O, T: OutputMode<O>, P: Registered>(
    helper: &'v HelperTemplate,
    environment: &'v Environment<'v, 'v, P>,
    fuel: u64,
    at: ElementLocation<'v>,
    text: &str,
    run: &mut Run,
    sink: &mut Sink<'_, O, T>,
) -> Outcome
    ensures renders { (occurrence : Occurrence) → KnowsLocation T.mode.asks environment.now at.entry occurrence → (captured : CapturedIn (within environment.now)) → Captures T.mode.asks captured → IsSection (setting_in P.parts environment.now) (state_with captured run.old) (call_view helper.now)
        → call_name (call_view helper.now) ≡ tree.name text.now
        → RefinesWith P.parts T.mode environment.now run sink (outcome_answer result) captured
        (render_call occurrence true (call_view helper.now)) }
    ensures stays { Stays run sink }
{
    let alloc = environment.inclusion.alloc;
    match read_path(alloc, text) {
        Ok(Some(path)) => { render_section_at(helper, &*environment, fuel, at, &path, run, sink) }
        Ok(None) => Outcome::from(helper_not_found(alloc, text)),
        Err(AllocError) => Outcome::OutOfMemory,
    }
}

// Renders a section by a path: it acts on what the path leads to.
#[cycle(render)]
fn render_section_at<'v, O, T: OutputMode<O>, P: Registered>(
    helper: &'v HelperTemplate,
    environment: &'v Environment<'v, 'v, P>,
    fuel: u64,
    at: ElementLocation<'v>,
    path: &'v Path,
    run: &mut Run,
    sink: &mut Sink<'_, O, T>,
) -> Outcome
    ensures renders { (occurrence : Occurrence) → KnowsLocation T.mode.asks environment.now at.entry occurrence → (captured : CapturedIn (within environment.now)) → Captures T.mode.asks captured → IsSection (setting_in P.parts environment.now) (state_with captured run.old) (call_view helper.now)
        → HasSectionPath (call_name (call_view helper.now)) (name_alone (unwrap_or (as_name (call_name (call_view helper.now))) [])) (gives (reference_of path.now))
        → RefinesWith P.parts T.mode environment.now run sink (outcome_answer result) captured
        (render_call occurrence true (call_view helper.now)) }
    ensures stays { Stays run sink }
{
    let before = run.line;
    match settle_section(helper, environment, at, path, run, sink) {
        Ok(next) => {
            let outcome = render_next(helper, environment, fuel, at, next, run, sink);
            run.line = line_out(before, run.line);
            outcome
        }
        Err(e) => Outcome::from(e),
    }
}

// Calls the built-in helper that a section is by its value, which is the only parameter of the call. Returns what is left to be
// rendered in the bracket of the call.
#[inline(never)]
fn settle_section<'v, O, T: OutputMode<O>, P: Registered>(
    helper: &'v HelperTemplate,
    environment: &'v Environment<'v, 'v, P>,
    at: ElementLocation<'_>,
    path: &'v Path,
    run: &mut Run,
    sink: &mut Sink<'_, O, T>,
) -> Result<Next<'v>, BoxedError>
    ensures leads { (occurrence : Occurrence) → KnowsLocation T.mode.asks environment.now at.entry occurrence → (captured : CapturedIn (within environment.now)) → IsSection (setting_in P.parts environment.now) (state_with captured run.old) (call_view helper.now)
        → HasSectionPath (call_name (call_view helper.now)) (name_alone (unwrap_or (as_name (call_name (call_view helper.now))) [])) (gives (reference_of path.now))
        → (v : CallView) × LeadsWith P.parts T.mode environment.now run sink result captured
        (render_call occurrence true (call_view helper.now))
        (λ next. then_out (line_of run.old.line) (left_of occurrence (view_with_bodies true (call_view helper.now) v) next)) }
    ensures given { IfOk result (IsNextOf (data_of environment.now.innermost.given.now)) }
    ensures stays { Stays run sink }
{
    let value = find(environment, run, path)?;
    let choice = choose_by_value(helper, environment, value)?;
    run.line = line_in(run.line, helper.indent_before_write);
    execute_built_in(environment, at, true, choice, run, sink)
}

// Returns what the built-in helper that a section is by its value chooses. The value is the only parameter of the call.
fn choose_by_value<'v, P: Registered>(
    helper: &'v HelperTemplate,
    environment: &'v Environment<'v, 'v, P>,
    value: ParamValue<'v>,
) -> Result<BuiltInChoice<'v>, BoxedError>
    ensures chooses { Answers choice_seen (answer_of result) (section_choice (P.parts environment.now.inclusion.now.parts.now).strict
        (call_view helper.now) (value_found value.entry)) }
    ensures given { (d : Data) → IsOf d value.entry → IfOk result (IsChoiceOf d) }
{
    let asked = Asked {
        constants: &[],
        has_body: helper.template.is_some(),
        has_inverse: helper.inverse.is_some(),
    };
    decide_by_first(
        environment.inclusion.alloc,
        environment.inclusion.parts.strict(),
        section_kind(&value),
        asked,
        Some(&helper.name),
        false,
        Some(value),
    )
}

// A section is `each`, `if` or `with`, by its value.
fn section_kind(value: &ParamValue<'_>) -> ByFirst
    ensures { kind_by_first result ≡ section_kind (data_in (value_found value.now)) }
{
    match value.as_json() {
        Some(value) => kind_for(value),
        None => ByFirst::With,
    }
}

fn kind_for(value: &Json) -> ByFirst
    ensures { kind_by_first result ≡ section_kind (view value.now) }
{
    match value {
        Json::Array(_) => ByFirst::Each,
        Json::Bool(_) => ByFirst::If,
        Json::Null => ByFirst::With,
        Json::Number(_) => ByFirst::With,
        Json::String(_) => ByFirst::With,
        Json::Object(_) => ByFirst::With,
    }
}
