//! Templates and their parts.

use crate::outcome::{Outcome, Stop, of_template_error};
use handlebars::template::{Parameter, Subexpression, Template, TemplateOptions};
use handlebars::{Path, TemplateError};
use std::alloc::{AllocError, Global};
use std::collections::BTreeMap;

/// A call that creates a tree, or a part of one.
pub enum Call {
    Compile,
    CompileWithName,
    Compile2,
    Clone,
    ParseParameter,
    NewSubexpression,
}

/// Returns the outcome of a call.
pub fn outcome(alloc: Global, call: &Call) -> Result<Outcome, Stop> {
    match call {
        Call::Compile => compile(alloc),
        Call::CompileWithName => compile_with_name(alloc),
        Call::Compile2 => compile2(alloc),
        Call::Clone => copy(alloc),
        Call::ParseParameter => parsed(alloc),
        Call::NewSubexpression => subexpression(alloc),
    }
}

// A source with elements of most kinds.
const SOURCE: &str =
    r#"a{{b.c}}{{{d}}}{{#if (eq e 1)}}{{f "g" h=[1]}}{{else if i}}j{{else}}k{{/if}}{{> l m=n}}{{#*o "p"}}q{{/o}}{{! r }}"#;

// The expected tree is the result of the same call once more. What a source compiles to is specified elsewhere.
fn of_tree(answer: Result<Template, TemplateError>, expected: &Template) -> Outcome {
    match answer {
        Ok(template) => Outcome::answer_if(template == *expected && template.elements.len() == 7),
        Err(error) => of_template_error(&error),
    }
}

fn compile(alloc: Global) -> Result<Outcome, Stop> {
    let expected = Template::compile(alloc, SOURCE)?;
    Ok(of_tree(Template::compile(alloc, SOURCE), &expected))
}

fn named(alloc: Global) -> Result<Template, Stop> {
    let name = String::from_str(alloc, "page")?;
    let mut expected = Template::compile(alloc, SOURCE)?;
    expected.name = Some(name);
    Ok(expected)
}

fn compile_with_name(alloc: Global) -> Result<Outcome, Stop> {
    let name = String::from_str(alloc, "page")?;
    let expected = named(alloc)?;
    Ok(of_tree(Template::compile_with_name(alloc, SOURCE, name), &expected))
}

fn compile2(alloc: Global) -> Result<Outcome, Stop> {
    let name = Some(String::from_str(alloc, "page")?);
    let expected = named(alloc)?;
    let options = TemplateOptions {
        name,
        prevent_indent: true,
    };
    Ok(of_tree(Template::compile2(alloc, SOURCE, options), &expected))
}

fn copy(alloc: Global) -> Result<Outcome, Stop> {
    let template = named(alloc)?;
    match template.clone(alloc) {
        Ok(copy) => Ok(Outcome::answer_if(copy == template)),
        Err(AllocError) => Ok(Outcome::OutOfMemory),
    }
}

const PARAMETER: &str = r#"(a "b" c=(d [1,{"e":2}]))"#;

fn parsed(alloc: Global) -> Result<Outcome, Stop> {
    let expected = Parameter::parse(alloc, PARAMETER)?;
    Ok(of_parameter(Parameter::parse(alloc, PARAMETER), &expected))
}

fn of_parameter(answer: Result<Parameter, TemplateError>, expected: &Parameter) -> Outcome {
    match answer {
        Ok(parameter) => Outcome::answer_if(
            parameter == *expected && matches!(expected, Parameter::Subexpression(_)),
        ),
        Err(error) => of_template_error(&error),
    }
}

fn named_parameter(alloc: Global, name: &str) -> Result<Parameter, Stop> {
    Ok(Parameter::Path(Path::parse(alloc, name)?))
}

fn subexpression(alloc: Global) -> Result<Outcome, Stop> {
    let params = vec![in alloc; named_parameter(alloc, "b")?]?;
    let name = named_parameter(alloc, "a")?;
    match Subexpression::new(alloc, name, params, BTreeMap::new(alloc)) {
        Ok(call) => Ok(Outcome::answer_if(is_call(&call))),
        Err(AllocError) => Ok(Outcome::OutOfMemory),
    }
}

fn is_call(call: &Subexpression) -> bool {
    match call.params() {
        Some(params) => call.name() == Some("a") && params.len() == 1,
        None => false,
    }
}
