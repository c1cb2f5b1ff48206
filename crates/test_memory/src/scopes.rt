//! Scope frames, and data: if memory runs out, a block is unchanged.

use crate::given::{data_of, value_of};
use crate::outcome::{Outcome, Stop, of_error, of_unit};
use handlebars::{
    BlockContext, BlockParamHolder, BlockParams, Context, FullPath, JsonValue, LocalVars, Path,
    PathSeg, RenderError, ScopedJson, Template,
};
use std::alloc::{AllocError, Global};
use std::collections::VecDeque;
use std::rc::Rc;

/// A call of a scope frame, or of data.
pub enum Call {
    PutVariable,
    CloneVariables,
    AddPath,
    AddValue,
    SetLocalVar,
    SetLocalPartial,
    SetBlockParam,
    CopyVariables,
    Wrap,
    CloneData,
    Navigate,
    CopyNames,
}

/// Returns the outcome of a call.
pub fn outcome(alloc: Global, call: &Call) -> Result<Outcome, Stop> {
    match call {
        Call::PutVariable => variable(alloc),
        Call::CloneVariables => cloned_variables(alloc),
        Call::AddPath => bound_path(alloc),
        Call::AddValue => bound_value(alloc),
        Call::SetLocalVar => block_variable(alloc),
        Call::SetLocalPartial => block_partial(alloc),
        Call::SetBlockParam => block_param(alloc),
        Call::CopyVariables => block_with_variables(alloc),
        Call::Wrap => wrapped(alloc),
        Call::CloneData => copied(alloc),
        Call::Navigate => navigated(alloc),
        Call::CopyNames => copied_names(alloc),
    }
}

// Returns whether a name has this number, or no value.
fn is(value: Option<&JsonValue>, expected: Option<u64>) -> bool {
    match value {
        Some(value) => value.as_u64() == expected && expected.is_some(),
        None => expected.is_none(),
    }
}

// Returns the outcome of a call after which a name has this number, and before which it has no value.
fn of_put(answer: Result<(), AllocError>, value: Option<&JsonValue>, expected: u64) -> Outcome {
    let there = match answer {
        Ok(()) => is(value, Some(expected)),
        Err(AllocError) => is(value, None),
    };
    of_unit(answer).if_so(there)
}

fn variable(alloc: Global) -> Result<Outcome, Stop> {
    let mut variables = LocalVars::new(alloc);
    variables.put("other", 1u64.into())?;
    let answer = variables.put("name", 2u64.into());
    let outcome = of_put(answer, variables.get("name"), 2);
    Ok(outcome.if_so(is(variables.get("other"), Some(1))))
}

fn cloned_variables(alloc: Global) -> Result<Outcome, Stop> {
    let mut variables = LocalVars::new(alloc);
    variables.put("name", 1u64.into())?;
    match variables.clone() {
        Ok(copy) => Ok(Outcome::answer_if(is(copy.get("name"), Some(1)))),
        Err(AllocError) => Ok(Outcome::OutOfMemory),
    }
}

fn held_value(holder: Option<&BlockParamHolder>) -> Option<&JsonValue> {
    match holder {
        Some(BlockParamHolder::Value(value)) => Some(value),
        _ => None,
    }
}

fn path_of(alloc: Global) -> Result<Vec<String>, Stop> {
    Ok(vec![in alloc; String::from_str(alloc, "a")?]?)
}

fn is_path(holder: Option<&BlockParamHolder>) -> bool {
    match holder {
        Some(BlockParamHolder::Path(path)) => path.len() == 1,
        _ => false,
    }
}

fn bound_path(alloc: Global) -> Result<Outcome, Stop> {
    let mut params = BlockParams::new(alloc);
    params.add_value("other", 1u64.into())?;
    let answer = params.add_path("name", path_of(alloc)?);
    let there = is_path(params.get("name")) == answer.is_ok();
    let unchanged = is(held_value(params.get("other")), Some(1));
    Ok(of_unit(answer).if_so(there && unchanged))
}

fn bound_value(alloc: Global) -> Result<Outcome, Stop> {
    let mut params = BlockParams::new(alloc);
    params.add_value("other", 1u64.into())?;
    let answer = params.add_value("name", 2u64.into());
    let outcome = of_put(answer, held_value(params.get("name")), 2);
    Ok(outcome.if_so(is(held_value(params.get("other")), Some(1))))
}

fn block_variable(alloc: Global) -> Result<Outcome, Stop> {
    let mut block = BlockContext::new(alloc);
    block.set_local_var("other", 1u64.into())?;
    let answer = block.set_local_var("name", 2u64.into());
    let outcome = of_put(answer, block.get_local_var("name"), 2);
    Ok(outcome.if_so(is(block.get_local_var("other"), Some(1))))
}

fn block_param(alloc: Global) -> Result<Outcome, Stop> {
    let mut block = BlockContext::new(alloc);
    block.set_block_param("other", BlockParamHolder::value(1u64.into()))?;
    let answer = block.set_block_param("name", BlockParamHolder::value(2u64.into()));
    let outcome = of_put(answer, held_value(block.get_block_param("name")), 2);
    Ok(outcome.if_so(is(held_value(block.get_block_param("other")), Some(1))))
}

fn block_with_variables(alloc: Global) -> Result<Outcome, Stop> {
    let mut block = BlockContext::new(alloc);
    block.set_local_var("name", 1u64.into())?;
    match BlockContext::with_variables_of(&block) {
        Ok(copy) => Ok(Outcome::answer_if(is(copy.get_local_var("name"), Some(1)))),
        Err(AllocError) => Ok(Outcome::OutOfMemory),
    }
}

fn shared(alloc: Global, source: &str) -> Result<Rc<Template>, Stop> {
    Ok(Rc::new(alloc, Template::compile(alloc, source)?)?)
}

fn block_with_partial(alloc: Global) -> Result<BlockContext, Stop> {
    let partial = shared(alloc, "a")?;
    let mut block = BlockContext::new(alloc);
    block.set_local_partial("other", partial)?;
    Ok(block)
}

fn block_partial(alloc: Global) -> Result<Outcome, Stop> {
    let partial = shared(alloc, "b")?;
    let mut block = block_with_partial(alloc)?;
    let answer = block.set_local_partial("name", partial);
    let there = block.get_local_partial("name").is_some() == answer.is_ok();
    let unchanged = block.get_local_partial("other").is_some();
    Ok(of_unit(answer).if_so(there && unchanged))
}

// ---- data

/// Data in which the path `a.[1].b` leads to the text `c`.
pub const DATA: &str = r#"{"a":[1,{"b":"c"}]}"#;

/// Returns the outcome of looking up that path.
pub fn of_found(answer: Result<ScopedJson, RenderError>) -> Outcome {
    match answer {
        Ok(found) => Outcome::answer_if(is_text(found.as_json(), "c") && has_steps(&found, 3)),
        Err(error) => of_error(&error),
    }
}

fn is_text(value: Option<&JsonValue>, expected: &str) -> bool {
    match value {
        Some(value) => value.as_str() == Some(expected),
        None => false,
    }
}

fn has_steps(found: &ScopedJson, count: usize) -> bool {
    match found.context_path() {
        Some(path) => path.len() == count,
        None => false,
    }
}

fn wrapped(alloc: Global) -> Result<Outcome, Stop> {
    let expected = value_of(alloc, DATA)?;
    Ok(of_data(Context::wraps(alloc, &expected), &expected))
}

fn of_data(answer: Result<Context, RenderError>, expected: &JsonValue) -> Outcome {
    match answer {
        Ok(data) => Outcome::answer_if(data.data() == expected),
        Err(error) => of_error(&error),
    }
}

fn copied(alloc: Global) -> Result<Outcome, Stop> {
    let data = data_of(alloc, DATA)?;
    match data.clone(alloc) {
        Ok(copy) => Ok(Outcome::answer_if(copy.data() == data.data())),
        Err(AllocError) => Ok(Outcome::OutOfMemory),
    }
}

fn navigated(alloc: Global) -> Result<Outcome, Stop> {
    let path = Path::parse(alloc, "a.[1].b")?;
    match path {
        Path::Relative((segments, _)) => of_path(alloc, segments.as_slice()),
        Path::Local(_) => Err(Stop::Broken),
    }
}

fn of_path(alloc: Global, segments: &[PathSeg]) -> Result<Outcome, Stop> {
    let data = data_of(alloc, DATA)?;
    let blocks = VecDeque::new(alloc);
    Ok(of_found(data.navigate(alloc, segments, &blocks, false)))
}

fn copied_names(alloc: Global) -> Result<Outcome, Stop> {
    let path = path_of(alloc)?;
    match FullPath::of(path.as_slice()).copied(alloc) {
        Ok(copy) => Ok(Outcome::answer_if(copy.len() == 1)),
        Err(AllocError) => Ok(Outcome::OutOfMemory),
    }
}
