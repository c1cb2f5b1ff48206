//! The calls that render a test case.

use crate::given::{data_of, value_of};
use crate::outcome::{Outcome, Stop, if_holds, of_error};
use crate::pair::Pair;
use crate::setup::{Both, Scene};
use crate::test_case::TestCase;
use handlebars::{
    DecoratorDef, DecoratorEntry, HelperDef, HelperEntry, NoFiles, RenderError, RenderErrorReason,
    StringOutput,
};
use log::sink::Discard;
use std::alloc::{AllocError, Global};
use test_parts::decorators::SettingData;
use test_parts::helpers::{Stepping, Twice};
use test_pieces::{HeldPiece, HeldPieces};

/// A call that renders a test case.
pub struct RenderCall {
    pub name: &'static str,
    renders: Renders,
    /// Whether the template is registered under a name, rather than passed as a source.
    is_by_name: bool,
    /// Whether the data are passed as a context, rather than as a value.
    has_context: bool,
}

// What is rendered, and where to.
#[derive(Clone, Copy)]
enum Renders {
    Text,
    ToWriter,
    Pieces,
    TreeText,
    TreeToOutput,
}

/// The calls: ten of the registry, and two of the tree alone.
pub static RENDER_CALLS: [RenderCall; 12] = [
    RenderCall {
        name: "render_template",
        renders: Renders::Text,
        is_by_name: false,
        has_context: false,
    },
    RenderCall {
        name: "render_template_with_context",
        renders: Renders::Text,
        is_by_name: false,
        has_context: true,
    },
    RenderCall {
        name: "render_template_to_write",
        renders: Renders::ToWriter,
        is_by_name: false,
        has_context: false,
    },
    RenderCall {
        name: "render_template_with_context_to_write",
        renders: Renders::ToWriter,
        is_by_name: false,
        has_context: true,
    },
    RenderCall {
        name: "render_template_pieces",
        renders: Renders::Pieces,
        is_by_name: false,
        has_context: true,
    },
    RenderCall {
        name: "Template::render",
        renders: Renders::TreeToOutput,
        is_by_name: false,
        has_context: true,
    },
    RenderCall {
        name: "Template::renders",
        renders: Renders::TreeText,
        is_by_name: false,
        has_context: true,
    },
    RenderCall {
        name: "render",
        renders: Renders::Text,
        is_by_name: true,
        has_context: false,
    },
    RenderCall {
        name: "render_with_context",
        renders: Renders::Text,
        is_by_name: true,
        has_context: true,
    },
    RenderCall {
        name: "render_to_write",
        renders: Renders::ToWriter,
        is_by_name: true,
        has_context: false,
    },
    RenderCall {
        name: "render_with_context_to_write",
        renders: Renders::ToWriter,
        is_by_name: true,
        has_context: true,
    },
    RenderCall {
        name: "render_pieces",
        renders: Renders::Pieces,
        is_by_name: true,
        has_context: true,
    },
];

/// Returns the call of that name, if there is one.
pub fn render_call_named(name: &str) -> Option<&'static RenderCall> {
    for render_call in &RENDER_CALLS {
        if render_call.name == name {
            return Some(render_call);
        }
    }
    None
}

/// Returns whether this call applies to a test case. A source that is rejected has no tree, and can't be registered under a
/// name.
pub fn has_render_call(test_case: &TestCase, render_call: &RenderCall) -> bool {
    !test_case.unread || render_call.name.starts_with("render_template")
}

/// Returns the outcome of a test case that is rendered by this call. Registers the user-defined helpers and decorators: a
/// helper `twice`, which renders its body twice, a helper `steps`, which writes a text and renders its body twice, and a
/// decorator `foo`, which sets data.
pub fn outcome(
    alloc: Global,
    test_case: &TestCase,
    render_call: &RenderCall,
) -> Result<Outcome, Stop> {
    let mut both = both_of(alloc, test_case, render_call)?;
    let registry = &mut both.pair.registry;
    let twice: Box<dyn HelperDef> = Box::new(alloc, Twice { alloc })?;
    registry.register_helper("twice", HelperEntry::Own(twice))?;
    let steps: Box<dyn HelperDef> = Box::new(alloc, stepping(alloc)?)?;
    registry.register_helper("steps", HelperEntry::Own(steps))?;
    let foo: Box<dyn DecoratorDef> = Box::new(alloc, setting(alloc)?)?;
    registry.register_decorator("foo", DecoratorEntry::Own(foo))?;
    outcome_of(alloc, test_case, render_call, &both)
}

// Returns the helper `steps`. It writes `<` and renders its body twice, the second time in a
// scope frame whose base value is 7.
fn stepping(alloc: Global) -> Result<Stepping, Stop> {
    let value = value_of(alloc, "7")?;
    let text = String::from_str(alloc, "<")?;
    Ok(Stepping { alloc, text, value })
}

fn setting(alloc: Global) -> Result<SettingData, Stop> {
    let data = data_of(alloc, r#"{"hello":"war"}"#)?;
    Ok(SettingData { alloc, data })
}

fn both_of(alloc: Global, test_case: &TestCase, render_call: &RenderCall) -> Result<Both, Stop> {
    let mut both = Both::of(alloc, test_case)?;
    if render_call.is_by_name {
        let templates = [("main", test_case.source)];
        both.pair.put_all(&templates)?;
        both.other.put_all(&templates)?;
    }
    Ok(both)
}

fn outcome_of(
    alloc: Global,
    test_case: &TestCase,
    render_call: &RenderCall,
    both: &Both,
) -> Result<Outcome, Stop> {
    match render_call.renders {
        Renders::Text => returned(alloc, test_case, render_call, both),
        Renders::ToWriter => written(alloc, test_case, render_call, both),
        Renders::Pieces => emitted(alloc, test_case, render_call, both),
        Renders::TreeText => tree_returned(alloc, test_case, both),
        Renders::TreeToOutput => tree_written(alloc, test_case, both),
    }
}

fn returned(
    alloc: Global,
    test_case: &TestCase,
    render_call: &RenderCall,
    both: &Both,
) -> Result<Outcome, Stop> {
    let answer = text(&both.pair, test_case, render_call);
    if_holds(of_text(alloc, test_case, &answer), both.holds())
}

fn text(
    pair: &Pair,
    test_case: &TestCase,
    render_call: &RenderCall,
) -> Result<String, RenderError> {
    let Pair { registry, data } = pair;
    let (log, files) = (&Discard, &mut NoFiles);
    match (render_call.is_by_name, render_call.has_context) {
        (false, false) => registry.render_template(test_case.source, data.data(), log, files),
        (false, true) => registry.render_template_with_context(test_case.source, data, log, files),
        (true, false) => registry.render("main", data.data(), log, files),
        (true, true) => registry.render_with_context("main", data, log, files),
    }
}

fn written(
    alloc: Global,
    test_case: &TestCase,
    render_call: &RenderCall,
    both: &Both,
) -> Result<Outcome, Stop> {
    let mut held = Vec::new(alloc);
    let answer = write(&both.pair, test_case, render_call, &mut held);
    let outcome = of_written(alloc, test_case, &answer, held.as_slice());
    if_holds(outcome, both.holds())
}

fn write(
    pair: &Pair,
    test_case: &TestCase,
    render_call: &RenderCall,
    held: &mut Vec<u8>,
) -> Result<(), RenderError> {
    let Pair { registry, data } = pair;
    let (log, files) = (&Discard, &mut NoFiles);
    match (render_call.is_by_name, render_call.has_context) {
        (false, false) => {
            registry.render_template_to_write(test_case.source, data.data(), held, log, files)
        }
        (false, true) => {
            registry.render_template_with_context_to_write(test_case.source, data, held, log, files)
        }
        (true, false) => registry.render_to_write("main", data.data(), held, log, files),
        (true, true) => registry.render_with_context_to_write("main", data, held, log, files),
    }
}

// The pieces that are emitted are compared with those that were emitted before, with enough memory.
fn emitted(
    alloc: Global,
    test_case: &TestCase,
    render_call: &RenderCall,
    both: &Both,
) -> Result<Outcome, Stop> {
    let whole = all_emitted(alloc, test_case, render_call, &both.pair)?;
    emitted_again(alloc, test_case, render_call, both, whole.pieces.as_slice())
}

fn emitted_again(
    alloc: Global,
    test_case: &TestCase,
    render_call: &RenderCall,
    both: &Both,
    whole: &[HeldPiece],
) -> Result<Outcome, Stop> {
    let mut out = HeldPieces::new(alloc);
    let answer = emit(&both.pair, test_case, render_call, &mut out);
    let emitted = out.pieces.as_slice();
    let outcome = of_answer(
        alloc,
        test_case,
        &answer,
        emitted == whole,
        whole.starts_with(emitted),
    );
    if_holds(outcome, both.holds())
}

// Returns all pieces of the answer.
fn all_emitted(
    alloc: Global,
    test_case: &TestCase,
    render_call: &RenderCall,
    pair: &Pair,
) -> Result<HeldPieces, Stop> {
    let mut whole = HeldPieces::new(alloc);
    let answer = emit(pair, test_case, render_call, &mut whole);
    match of_all(alloc, test_case, &answer, &whole) {
        Ok(Outcome::Answer) => Ok(whole),
        Ok(Outcome::OutOfMemory) | Err(Stop::Memory) => Err(Stop::Memory),
        _ => Err(Stop::Broken),
    }
}

fn of_all(
    alloc: Global,
    test_case: &TestCase,
    answer: &Result<(), RenderError>,
    whole: &HeldPieces,
) -> Result<Outcome, Stop> {
    let text = whole.text()?;
    of_written(alloc, test_case, answer, text.as_str().as_bytes())
}

fn emit(
    pair: &Pair,
    test_case: &TestCase,
    render_call: &RenderCall,
    out: &mut HeldPieces,
) -> Result<(), RenderError> {
    let Pair { registry, data } = pair;
    let (log, files) = (&Discard, &mut NoFiles);
    match render_call.is_by_name {
        false => registry.render_template_pieces(test_case.source, data, out, log, files),
        true => registry.render_pieces("main", data, out, log, files),
    }
}

fn tree_written(alloc: Global, test_case: &TestCase, both: &Both) -> Result<Outcome, Stop> {
    let mut scene = Scene::of(alloc, test_case.source)?;
    let mut out = StringOutput::new(alloc);
    let answer = scene.write(alloc, &both.pair, &mut out);
    let holds = scene.holds(alloc, both, answer.is_err());
    let held = out.into_string();
    if_holds(
        of_written(alloc, test_case, &answer, held.as_str().as_bytes()),
        holds,
    )
}

fn tree_returned(alloc: Global, test_case: &TestCase, both: &Both) -> Result<Outcome, Stop> {
    let mut scene = Scene::of(alloc, test_case.source)?;
    let answer = scene.text(alloc, &both.pair);
    let holds = scene.holds(alloc, both, answer.is_err());
    if_holds(of_text(alloc, test_case, &answer), holds)
}

// ---- outcomes

fn of_text(
    alloc: Global,
    test_case: &TestCase,
    answer: &Result<String, RenderError>,
) -> Result<Outcome, Stop> {
    match answer {
        Ok(text) => Ok(Outcome::answer_if(
            test_case.refusal.is_none() && text.as_str() == test_case.text,
        )),
        Err(error) => of_refusal(alloc, test_case, error),
    }
}

fn of_written(
    alloc: Global,
    test_case: &TestCase,
    answer: &Result<(), RenderError>,
    held: &[u8],
) -> Result<Outcome, Stop> {
    let whole = test_case.text.as_bytes();
    of_answer(
        alloc,
        test_case,
        answer,
        held == whole,
        whole.starts_with(held),
    )
}

// If memory runs out, a prefix of the text was written. After any other error, all of the expected text was written.
fn of_answer(
    alloc: Global,
    test_case: &TestCase,
    answer: &Result<(), RenderError>,
    is_whole: bool,
    is_beginning: bool,
) -> Result<Outcome, Stop> {
    match answer {
        Ok(()) => Ok(Outcome::answer_if(test_case.refusal.is_none() && is_whole)),
        Err(error) => match of_error(error) {
            Outcome::OutOfMemory => Ok(Outcome::OutOfMemory.if_so(is_beginning)),
            _ => if_holds(of_refusal(alloc, test_case, error), is_whole),
        },
    }
}

// For a template that doesn't compile, the printed reason and the position are those of the template's error.
fn of_refusal(alloc: Global, test_case: &TestCase, error: &RenderError) -> Result<Outcome, Stop> {
    match error.reason() {
        RenderErrorReason::OutOfMemory => Ok(Outcome::OutOfMemory),
        RenderErrorReason::TemplateError(cause) => {
            of_printed(test_case, cause.reason().to_string(alloc), cause.pos())
        }
        reason => of_printed(test_case, reason.to_string(alloc), position_of(error)),
    }
}

fn position_of(error: &RenderError) -> Option<(usize, usize)> {
    match (error.line_no, error.column_no) {
        (Some(line), Some(column)) => Some((line, column)),
        _ => None,
    }
}

fn of_printed(
    test_case: &TestCase,
    printed: Result<String, AllocError>,
    position: Option<(usize, usize)>,
) -> Result<Outcome, Stop> {
    let text = printed?;
    match test_case.refusal {
        Some((reason, line, column)) => {
            Ok(Outcome::answer_if(text.as_str() == reason && position == Some((line, column))))
        }
        None => Ok(Outcome::Other),
    }
}
