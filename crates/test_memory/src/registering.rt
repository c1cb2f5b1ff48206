//! Registrations: one that fails changes nothing.

use crate::given::data_of;
use crate::outcome::{Outcome, Stop, of_error, of_stored, of_template_error, of_unit};
use crate::pair::Pair;
use handlebars::{
    BuiltIn, DecoratorDef, DecoratorEntry, HelperDef, HelperEntry, Markup, MarkupFault, NoFiles,
    RenderError, RenderErrorReason, Template, TemplateError, TemplateErrorReason,
};
use log::sink::Discard;
use std::alloc::{AllocError, Global};
use test_parts::decorators::SettingData;
use test_parts::helpers::Twice;

/// A call of a registry that reads no files.
pub enum Call {
    New,
    RegisterTree,
    RegisterSource,
    RegisterPartial,
    RegisterRejected,
    RegisterHelper,
    RegisterUserHelper,
    RegisterDecorator,
    RegisterUserDecorator,
    OfMarkup(MarkupCall),
    JudgeSource,
}

/// A call that asks whether markup is fixed, if it isn't.
pub enum MarkupCall {
    Judge,
    Report,
    ReportOfSource,
}

/// Returns the outcome of a call.
pub fn outcome(alloc: Global, call: &Call) -> Result<Outcome, Stop> {
    match call {
        Call::New => made(alloc),
        Call::RegisterTree => tree(alloc),
        Call::RegisterSource => source(alloc, false),
        Call::RegisterPartial => source(alloc, true),
        Call::RegisterRejected => rejected(alloc),
        Call::RegisterHelper => helper(alloc),
        Call::RegisterUserHelper => user_helper(alloc),
        Call::RegisterDecorator => decorator(alloc),
        Call::RegisterUserDecorator => user_decorator(alloc),
        Call::OfMarkup(call) => of_markup(alloc, call),
        Call::JudgeSource => judged_source(alloc),
    }
}

fn made(alloc: Global) -> Result<Outcome, Stop> {
    let source = "{{#if (eq 1 1)}}a{{/if}}{{#*inline \"p\"}}b{{/inline}}{{> p}}";
    match Pair::new(alloc) {
        Ok(pair) => Ok(Outcome::answer_if(renders(&pair, source, "ab")?)),
        Err(AllocError) => Ok(Outcome::OutOfMemory),
    }
}

// ---- templates

// Returns a registry in which `name` and `other` are registered, and strict mode is on.
fn strict_pair(alloc: Global) -> Result<Pair, Stop> {
    let mut pair = Pair::with(alloc, &[("name", "old"), ("other", "{{> name}}")])?;
    pair.registry.set_strict_mode(true);
    Ok(pair)
}

const NEW_SOURCE: &str = "n{{m}}";

// Returns the outcome of a registration of that source as `name`, given the outcome of the call itself.
fn of_registered(alloc: Global, pair: &Pair, outcome: Outcome) -> Result<Outcome, Stop> {
    let mut expected = strict_pair(alloc)?;
    if outcome.is_answer() {
        expected.put_all(&[("name", NEW_SOURCE)])?;
    }
    Ok(outcome.if_so(pair.is_like(&expected)))
}

fn tree(alloc: Global) -> Result<Outcome, Stop> {
    let mut pair = strict_pair(alloc)?;
    let name = String::from_str(alloc, "name")?;
    let template = Template::compile_with_name(alloc, NEW_SOURCE, name)?;
    let answer = pair.registry.register_template("name", template);
    of_registered(alloc, &pair, of_unit(answer))
}

fn source(alloc: Global, as_partial: bool) -> Result<Outcome, Stop> {
    let mut pair = strict_pair(alloc)?;
    let answer = match as_partial {
        true => pair.registry.register_partial("name", NEW_SOURCE),
        false => pair.registry.register_template_string("name", NEW_SOURCE),
    };
    of_registered(alloc, &pair, of_stored(&answer))
}

// A source that is rejected changes nothing either, whether there is memory for its error or not.
fn rejected(alloc: Global) -> Result<Outcome, Stop> {
    let mut pair = strict_pair(alloc)?;
    let answer = pair
        .registry
        .register_template_string("name", "{{#if a}}x{{/unless}}");
    let outcome = match answer {
        Ok(()) => Outcome::Other,
        Err(error) => of_mismatch(&error),
    };
    Ok(outcome.if_so(pair.is_like(&strict_pair(alloc)?)))
}

fn of_mismatch(error: &TemplateError) -> Outcome {
    match error.reason() {
        TemplateErrorReason::MismatchingClosedHelper(opened, closing) => {
            let names = opened.as_str() == "if" && closing.as_str() == "unless";
            Outcome::answer_if(names && error.pos() == Some((1, 11)))
        }
        _ => of_template_error(error),
    }
}

// ---- helpers and decorators, which are observed by what a source renders to

fn rendered(pair: &Pair, source: &str) -> Result<String, RenderError> {
    let Pair { registry, data } = pair;
    registry.render_template_with_context(source, data, &Discard, &mut NoFiles)
}

fn renders(pair: &Pair, source: &str, expected: &str) -> Result<bool, Stop> {
    Ok(rendered(pair, source)?.as_str() == expected)
}

// Returns whether rendering a source fails because the helper or decorator doesn't exist.
fn has_no_part(pair: &Pair, source: &str) -> Result<bool, Stop> {
    match rendered(pair, source) {
        Ok(_) => Ok(false),
        Err(error) => match error.reason() {
            RenderErrorReason::HelperNotFound(_) => Ok(true),
            RenderErrorReason::DecoratorNotFound(_) => Ok(true),
            RenderErrorReason::OutOfMemory => Err(Stop::Memory),
            _ => Ok(false),
        },
    }
}

// Returns the outcome of registering a helper or a decorator under a name, with which a source renders to this text. Before
// that the name has none.
fn of_part(
    pair: &Pair,
    answer: Result<(), AllocError>,
    source: &str,
    expected: &str,
) -> Result<Outcome, Stop> {
    let there = match answer.is_ok() {
        true => renders(pair, source, expected)?,
        false => has_no_part(pair, source)?,
    };
    let unchanged = renders(pair, "{{len \"abc\"}}", "3")?;
    Ok(of_unit(answer).if_so(there && unchanged))
}

fn helper(alloc: Global) -> Result<Outcome, Stop> {
    let mut pair = Pair::with(alloc, &[])?;
    let answer = pair
        .registry
        .register_helper("size", HelperEntry::Built(BuiltIn::Len));
    of_part(&pair, answer, "{{size \"ab\"}}", "2")
}

fn user_helper(alloc: Global) -> Result<Outcome, Stop> {
    let mut pair = Pair::with(alloc, &[])?;
    let twice: Box<dyn HelperDef> = Box::new(alloc, Twice { alloc })?;
    let answer = pair
        .registry
        .register_helper("twice", HelperEntry::Own(twice));
    of_part(&pair, answer, "{{#twice 1}}a{{/twice}}", "aa")
}

fn decorator(alloc: Global) -> Result<Outcome, Stop> {
    let mut pair = Pair::with(alloc, &[])?;
    let answer = pair
        .registry
        .register_decorator("keep", DecoratorEntry::Inline);
    let source = "{{#*keep \"p\"}}a{{/keep}}{{> p}}";
    of_part(&pair, answer, source, "a")
}

fn user_decorator(alloc: Global) -> Result<Outcome, Stop> {
    let mut pair = Pair::with(alloc, &[])?;
    let data = data_of(alloc, r#"{"x":1}"#)?;
    let foo: Box<dyn DecoratorDef> = Box::new(alloc, SettingData { alloc, data })?;
    let answer = pair
        .registry
        .register_decorator("foo", DecoratorEntry::Own(foo));
    of_part(&pair, answer, "{{*foo}}{{x}}", "1")
}

// ---- whether markup is fixed

static UNFIXED: [(&str, &str); 2] = [("a", "{{{x}}}"), ("b", "x{{len y}}")];

// Returns the outcome of a call if markup isn't fixed at two locations of the registry and one of the source.
fn of_markup(alloc: Global, call: &MarkupCall) -> Result<Outcome, Stop> {
    let pair = Pair::with(alloc, &UNFIXED)?;
    let (registry, files) = (&pair.registry, &mut NoFiles);
    match call {
        MarkupCall::Judge => Ok(of_judgement(registry.markup_is_fixed(files), false)),
        MarkupCall::Report => Ok(of_faults(registry.markup_faults(files), 2)),
        MarkupCall::ReportOfSource => {
            Ok(of_faults(registry.template_markup_faults("{{&z}}", files), 3))
        }
    }
}

// A source whose markup is fixed, with an empty registry.
fn judged_source(alloc: Global) -> Result<Outcome, Stop> {
    let pair = Pair::with(alloc, &[])?;
    let (source, files) = ("<p>{{#if a}}{{b}}{{/if}}", &mut NoFiles);
    Ok(of_judgement(pair.registry.template_markup_is_fixed(source, files), true))
}

fn of_judgement(answer: Result<Markup, RenderError>, is_fixed: bool) -> Outcome {
    match answer {
        Ok(markup) => Outcome::answer_if(matches!(markup, Markup::Fixed) == is_fixed),
        Err(error) => of_error(&error),
    }
}

fn of_faults(answer: Result<Vec<MarkupFault>, RenderError>, count: usize) -> Outcome {
    match answer {
        Ok(faults) => Outcome::answer_if(faults.len() == count),
        Err(error) => of_error(&error),
    }
}
