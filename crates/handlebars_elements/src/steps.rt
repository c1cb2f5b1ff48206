//! Executing the steps that a user-defined helper returns.

ghost use Rattle.std.specs.Prelude.{ℕ, Bool, map};
ghost use Rattle.handlebars_template.specs.TreeView.{call_view};
ghost use Rattle.handlebars_helpers.specs.CallView.{CallView};
ghost use Rattle.handlebars_helpers.specs.UserView.{step_of};
ghost use Rattle.handlebars_semantics.specs.Execute.{take_step, take_steps, view_with_bodies};
ghost use Rattle.handlebars_semantics.specs.Occurrences.{Occurrence};
ghost use Rattle.handlebars_elements.specs.Judgement.{Refines, Stays};
ghost use Rattle.handlebars_elements.specs.View.{KnowsLocation};

use crate::iteration::render_in_frame;
use crate::tree::render_part;
use handlebars_expand::registered::Registered;
use handlebars_helpers::user::HelperStep;
use handlebars_template::template::HelperTemplate;
use handlebars_values::environment::Environment;
use handlebars_values::run::Run;
use handlebars_write::location::ElementLocation;
use handlebars_write::outcome::Outcome;
use handlebars_write::output_mode::OutputMode;
use handlebars_write::sink::Sink;

/// Executes the steps, in order.
#[inline(never)]
#[cycle(render)]
pub fn take_steps<'v, O, T: OutputMode<O>, P: Registered>(
    helper: &'v HelperTemplate,
    environment: &'v Environment<'v, 'v, P>,
    fuel: u64,
    at: ElementLocation<'v>,
    steps: Vec<HelperStep>,
    run: &mut Run,
    sink: &mut Sink<'_, O, T>,
) -> Outcome
    ensures renders { (occurrence : Occurrence) → KnowsLocation T.mode.asks environment.now at.entry occurrence → (block : Bool) (v : CallView)
        → Refines P.parts T.mode environment.now run sink result
        (take_steps occurrence (view_with_bodies block (call_view helper.now) v) 0 (map step_of steps.items)) }
    ensures stays { Stays run sink }
{
    'steps: for step in steps {
        match take_step(helper, environment, fuel, at, step, run, sink) {
            Outcome::Done => {}
            Outcome::OutOfMemory => return Outcome::OutOfMemory,
            Outcome::Error(e) => return Outcome::Error(e),
        }
    }
    Outcome::Done
}

#[cycle(render)]
fn take_step<'v, O, T: OutputMode<O>, P: Registered>(
    helper: &'v HelperTemplate,
    environment: &'v Environment<'v, 'v, P>,
    fuel: u64,
    at: ElementLocation<'v>,
    step: HelperStep,
    run: &mut Run,
    sink: &mut Sink<'_, O, T>,
) -> Outcome
    ensures renders { (occurrence : Occurrence) → KnowsLocation T.mode.asks environment.now at.entry occurrence → (i : ℕ) (block : Bool) (v : CallView)
        → Refines P.parts T.mode environment.now run sink result
        (take_step occurrence (view_with_bodies block (call_view helper.now) v) i (step_of step)) }
    ensures stays { Stays run sink }
{
    match step {
        HelperStep::Write(text) => T::put_step(at, text.as_str(), sink),
        HelperStep::Body => render_part(helper.template.as_ref(), environment, fuel, run, sink),
        HelperStep::Inverse => render_part(helper.inverse.as_ref(), environment, fuel, run, sink),
        HelperStep::BodyIn(frame) => render_in_frame(helper, environment, fuel, frame, run, sink),
    }
}
