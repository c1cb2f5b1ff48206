//! Render contexts: if memory runs out, a context is unchanged or, if it was rendering, has failed.

use crate::given::data_of;
use crate::outcome::{Outcome, Stop, if_holds, of_error, of_unit};
use crate::pair::Pair;
use crate::scopes::{DATA, of_found};
use crate::setup::{Both, Scene, has_failed};
use crate::test_case::{PLAIN, TestCase};
use handlebars::template::Parameter;
use handlebars::{
    BlockContext, Decorator, Evaluable, Expand, PathAndJson, RenderContext, RenderError,
    Renderable, ScopedJson, StringOutput, Template, TemplateElement, expand_partial,
    indent_aware_write,
};
use log::sink::Discard;
use std::alloc::{AllocError, Global};
use std::borrow::CowStr;
use std::collections::BTreeMap;

/// A call of a context.
pub enum Call {
    New,
    PushBlock,
    BindHelper,
    Evaluate,
    Write,
    Rendering(RenderingCall),
}

/// A call that renders, or does what renderings do.
pub enum RenderingCall {
    Expand,
    ExpandAsName,
    EvalTree,
    EvalElement,
    RenderElement,
    ElementText,
    ExpandPartial,
}

/// Returns the outcome of a call.
pub fn outcome(alloc: Global, call: &Call) -> Result<Outcome, Stop> {
    match call {
        Call::New => made(alloc),
        Call::PushBlock => pushed(alloc),
        Call::BindHelper => bound(alloc),
        Call::Evaluate => evaluated(alloc),
        Call::Write => put(alloc),
        Call::Rendering(call) => of_rendering(alloc, call),
    }
}

// ---- the state of a context

fn made(alloc: Global) -> Result<Outcome, Stop> {
    let name = String::from_str(alloc, "page")?;
    match RenderContext::new(alloc, Some(&name)) {
        Ok(rc) => Ok(Outcome::answer_if(rc.get_root_template_name() == Some(&name))),
        Err(AllocError) => Ok(Outcome::OutOfMemory),
    }
}

// More blocks than a new context has capacity for.
const BLOCKS: u64 = 16;

fn pushed(alloc: Global) -> Result<Outcome, Stop> {
    let mut rc = RenderContext::new(alloc, None)?;
    for index in 0..BLOCKS {
        let answer = rc.push_block(block_of(alloc, index)?);
        if answer.is_err() {
            let before = nearest_index(&rc) == index.checked_sub(1);
            return Ok(of_unit(answer).if_so(before));
        }
    }
    Ok(Outcome::answer_if(nearest_index(&rc) == BLOCKS.checked_sub(1)))
}

fn block_of(alloc: Global, index: u64) -> Result<BlockContext, Stop> {
    let mut block = BlockContext::new(alloc);
    block.set_local_var("index", index.into())?;
    Ok(block)
}

// Returns the index of the nearest block. The block of a new context has none.
fn nearest_index(rc: &RenderContext) -> Option<u64> {
    rc.block()?.get_local_var("index")?.as_u64()
}

fn bound(alloc: Global) -> Result<Outcome, Stop> {
    let mut rc = RenderContext::new(alloc, None)?;
    rc.register_local_helper("other", "len", Vec::new(alloc))?;
    let answer = rc.register_local_helper("name", "eq", Vec::new(alloc));
    let holds = is_bound(&rc, "name", "eq") == answer.is_ok() && is_bound(&rc, "other", "len");
    Ok(of_unit(answer).if_so(holds))
}

fn is_bound(rc: &RenderContext, name: &str, registered: &str) -> bool {
    match rc.get_local_helper(name) {
        Some(local) => local.registered.as_str() == registered,
        None => false,
    }
}

fn evaluated(alloc: Global) -> Result<Outcome, Stop> {
    let rc = RenderContext::new(alloc, None)?;
    let data = data_of(alloc, DATA)?;
    Ok(of_found(rc.evaluate(&data, "a.[1].b")).if_so(!rc.has_failed()))
}

fn put(alloc: Global) -> Result<Outcome, Stop> {
    let mut rc = RenderContext::new(alloc, None)?;
    let mut out = StringOutput::new(alloc);
    let answer = indent_aware_write("a\n", &mut rc, &mut out);
    let written = out.into_string();
    let (newline, content) = (rc.get_trailine_newline(), rc.get_content_produced());
    match answer {
        Ok(()) => Ok(Outcome::answer_if(newline && content && written.as_str() == "a\n")),
        Err(error) => Ok(of_error(&error).if_so(!newline && !content && written.is_empty())),
    }
}

// ---- calls that render in a context

static GIVEN: TestCase = TestCase {
    partial: Some(("p", "<{{x}}>")),
    data: r#"{"x":"y","a":[1,2]}"#,
    ..PLAIN
};

// The text of the first element is written, the parameter of the next one is expanded, and the partial of the last one is
// registered.
const SOURCE: &str =
    r#"{{#each a}}{{this}}{{../x}}{{/each}}{{len (lookup a (len "b") k=1)}}{{#*inline "h"}}z{{/inline}}"#;

const WRITTEN_TEXT: &str = "1y2y";

// The context fails exactly if there is an error.
fn of_rendering(alloc: Global, call: &RenderingCall) -> Result<Outcome, Stop> {
    let both = Both::of(alloc, &GIVEN)?;
    let mut scene = Scene::of(alloc, SOURCE)?;
    let outcome = outcome_of(alloc, call, &both.pair, &mut scene);
    let failed = !matches!(outcome, Ok(Outcome::Answer));
    if_holds(outcome, scene.holds(alloc, &both, failed))
}

fn outcome_of(
    alloc: Global,
    call: &RenderingCall,
    pair: &Pair,
    scene: &mut Scene,
) -> Result<Outcome, Stop> {
    match call {
        RenderingCall::Expand => Ok(expanded(alloc, pair, scene)),
        RenderingCall::ExpandAsName => Ok(expanded_as_name(alloc, pair, scene)),
        RenderingCall::EvalTree => Ok(executed(alloc, true, pair, scene)),
        RenderingCall::EvalElement => Ok(executed(alloc, false, pair, scene)),
        RenderingCall::RenderElement => Ok(written(alloc, pair, scene)),
        RenderingCall::ElementText => Ok(returned(alloc, pair, scene)),
        RenderingCall::ExpandPartial => included(alloc, pair, scene),
    }
}

fn parameter(template: &Template) -> Option<&Parameter> {
    match template.elements.get(1) {
        Some(TemplateElement::Expression(call)) => call.params.first(),
        _ => None,
    }
}

fn expanded(alloc: Global, pair: &Pair, scene: &mut Scene) -> Outcome {
    let Pair { registry, data } = pair;
    let Scene { template, rc } = scene;
    match parameter(template) {
        Some(param) => match param.expand(alloc, registry, data, rc, &Discard) {
            Ok(value) => Outcome::answer_if(value.value().as_u64() == Some(2)),
            Err(error) => of_error(&error),
        },
        None => Outcome::Other,
    }
}

fn expanded_as_name(alloc: Global, pair: &Pair, scene: &mut Scene) -> Outcome {
    let Pair { registry, data } = pair;
    let Scene { template, rc } = scene;
    match parameter(template) {
        Some(param) => match param.expand_as_name(alloc, registry, data, rc, &Discard) {
            Ok(name) => Outcome::answer_if(name.as_str() == "2"),
            Err(error) => of_error(&error),
        },
        None => Outcome::Other,
    }
}

// Returns the outcome of executing a decorator. Its partial is registered, or the context has failed.
fn executed(alloc: Global, whole: bool, pair: &Pair, scene: &mut Scene) -> Outcome {
    let answer = execute(alloc, whole, pair, scene);
    let there = scene.rc.get_partial("h").is_some();
    match answer {
        Ok(()) => Outcome::answer_if(there),
        Err(error) => {
            let again = execute(alloc, whole, pair, scene);
            of_error(&error).if_so(!there && has_failed(&again))
        }
    }
}

// Executes the decorators of the tree, or of its last element.
fn execute(alloc: Global, whole: bool, pair: &Pair, scene: &mut Scene) -> Result<(), RenderError> {
    let Pair { registry, data } = pair;
    let Scene { template, rc } = scene;
    match template.elements.last() {
        Some(element) if !whole => element.eval(alloc, registry, data, rc, &Discard),
        _ => template.eval(alloc, registry, data, rc, &Discard),
    }
}

fn written(alloc: Global, pair: &Pair, scene: &mut Scene) -> Outcome {
    let mut out = StringOutput::new(alloc);
    let Pair { registry, data } = pair;
    let Scene { template, rc } = scene;
    let answer = match template.elements.first() {
        Some(element) => element.render(alloc, registry, data, rc, &mut out, &Discard),
        None => Ok(()),
    };
    of_written(answer, out.into_string(), WRITTEN_TEXT)
}

// Returns the outcome of writing a text: this text, or a prefix of it if memory ran out.
fn of_written(answer: Result<(), RenderError>, held: String, expected: &str) -> Outcome {
    match answer {
        Ok(()) => Outcome::answer_if(held.as_str() == expected),
        Err(error) => of_error(&error).if_so(expected.starts_with(held.as_str())),
    }
}

fn returned(alloc: Global, pair: &Pair, scene: &mut Scene) -> Outcome {
    let Pair { registry, data } = pair;
    let Scene { template, rc } = scene;
    match template.elements.first() {
        Some(element) => match element.renders(alloc, registry, data, rc, &Discard) {
            Ok(text) => Outcome::answer_if(text.as_str() == WRITTEN_TEXT),
            Err(error) => of_error(&error),
        },
        None => Outcome::Other,
    }
}

// Returns what a tag `{{> p k=3}}` after two blanks gives.
fn tag(alloc: Global) -> Result<Decorator<'static>, Stop> {
    let mut hash = BTreeMap::new(alloc);
    hash.insert(
        "k",
        PathAndJson::new(None, ScopedJson::Derived(3u64.into())),
    )?;
    let (name, indent) = (CowStr::Borrowed("p"), CowStr::Borrowed("  "));
    Ok(Decorator::new(name, Vec::new(alloc), hash, None, Some(indent)))
}

fn included(alloc: Global, pair: &Pair, scene: &mut Scene) -> Result<Outcome, Stop> {
    let tag = tag(alloc)?;
    let mut out = StringOutput::new(alloc);
    let (registry, data, rc) = (&pair.registry, &pair.data, &mut scene.rc);
    rc.set_indent_before_write(true);
    let answer = expand_partial(alloc, &tag, registry, data, rc, &mut out, &Discard);
    Ok(of_written(answer, out.into_string(), "  <y>"))
}
