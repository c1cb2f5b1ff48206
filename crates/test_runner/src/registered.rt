//! The registry of a test case.

use crate::shelf::Shelf;
use handlebars::{
    DirectorySourceOptions, EscapeKind, HelperEntry, JsonValue, Registry, RenderError,
    TemplateError,
};
use serde_json::Map;
use std::alloc::{AllocError, Global};
use test_cases::fields::Fields;
use test_cases::helpers::helper_named;
use test_cases::names::Names;
use test_cases::outcome::Failed;
use test_cases::rendering::{Escape, Rendering};
use test_cases::shape::limit;
use test_cases::steps::StepCame;

/// A registry.
pub struct Held {
    pub registry: Registry,
}

impl Drop for Held {
    fn drop(self) {
        let Held { registry: _ } = self;
    }
}

impl Held {
    /// Creates a registry with nothing registered yet.
    pub fn new(alloc: Global) -> Result<Held, AllocError> {
        Ok(Held {
            registry: Registry::new(alloc)?,
        })
    }
}

/// Registers what the test case has, in byte order of name: helpers, then templates. Then takes its steps.
///
/// # Errors
///
/// Fails if a template doesn't compile. Fails with an error that no test case expects if the result of a step is not the
/// expected one.
pub fn registry_of(
    alloc: Global,
    test_case: &Rendering<'_>,
    files: &mut Shelf,
) -> Result<Held, RenderError> {
    let mut held = Held::new(alloc)?;
    register(alloc, &mut held.registry, test_case, files)?;
    Ok(held)
}

fn register(
    alloc: Global,
    registry: &mut Registry,
    test_case: &Rendering<'_>,
    files: &mut Shelf,
) -> Result<(), RenderError> {
    set_modes(registry, test_case.fields);
    if let Some(helpers) = test_case.fields.members("helpers") {
        register_helpers(registry, helpers)?;
    }
    if let Some(templates) = test_case.fields.members("templates") {
        register_templates(registry, templates)?;
    }
    if let Some(stored) = test_case.files {
        files.put(stored)?;
    }
    match test_case.steps {
        Some(steps) => take_steps(alloc, registry, steps, files),
        None => Ok(()),
    }
}

fn set_modes(registry: &mut Registry, fields: Fields<'_>) {
    if let Some(value) = fields.get("escape") {
        register_escape(registry, value);
    }
    registry.set_strict_mode(fields.is_set("strict"));
    registry.set_recursive_lookup(fields.is_set("recursive"));
    registry.set_prevent_indent(fields.is_set("prevent_indent"));
    if let Some(limit) = fields.get("limit").and_then(limit) {
        registry.set_inclusion_limit(limit);
    }
}

// A name with no helper is unregistered.
fn register_helpers(
    registry: &mut Registry,
    helpers: &Map<String, JsonValue>,
) -> Result<(), AllocError> {
    for (name, value) in helpers.iter() {
        match helper_named(value) {
            Some(kind) => registry.register_helper(name.as_str(), HelperEntry::Built(kind))?,
            None => registry.unregister_helper(name.as_str()),
        }
    }
    Ok(())
}

// `Html` is registered after `Plain`, which it replaces.
fn register_escape(registry: &mut Registry, value: &JsonValue) {
    registry.register_escape_fn(EscapeKind::Plain);
    match Escape::read(value) {
        Some(Escape::Html) => registry.register_escape_fn(EscapeKind::Html),
        _ => {}
    }
}

fn register_templates(
    registry: &mut Registry,
    templates: &Map<String, JsonValue>,
) -> Result<(), TemplateError> {
    for (name, source) in templates.iter() {
        registry.register_template_string(name.as_str(), source.as_str().unwrap_or(""))?;
    }
    Ok(())
}

// Takes the steps in order, and stops at the first whose result is not the expected one.
fn take_steps(
    alloc: Global,
    registry: &mut Registry,
    steps: &[JsonValue],
    files: &mut Shelf,
) -> Result<(), RenderError> {
    for (index, step) in steps.iter().enumerate() {
        if let Some(members) = step.as_object() {
            let number = index.saturating_add(1);
            take_step(alloc, registry, Fields(members), number, files)?;
        }
    }
    Ok(())
}

fn take_step(
    alloc: Global,
    registry: &mut Registry,
    fields: Fields<'_>,
    number: usize,
    files: &mut Shelf,
) -> Result<(), RenderError> {
    let came = came(alloc, registry, fields, files)?;
    match came.is_expected(fields) {
        true => Ok(()),
        false => Err(otherwise(alloc, number, &came)),
    }
}

fn otherwise(alloc: Global, number: usize, came: &StepCame) -> RenderError {
    match format!(in alloc; "step {number}: {came}") {
        Ok(text) => RenderError::new(alloc, text.as_str()),
        Err(AllocError) => RenderError::new(alloc, "a step"),
    }
}

fn came(
    alloc: Global,
    registry: &mut Registry,
    fields: Fields<'_>,
    files: &mut Shelf,
) -> Result<StepCame, AllocError> {
    let refusal = match taken(registry, fields, files) {
        Ok(()) => None,
        Err(error) => Some(Failed::of_template(alloc, &error)?),
    };
    let names = names_in(alloc, registry)?;
    Ok(StepCame {
        refusal,
        asked: files.take_asked(),
        names,
    })
}

fn names_in(alloc: Global, registry: &Registry) -> Result<Names, AllocError> {
    let mut names = Names::new(alloc);
    for (name, _template) in registry.get_templates().iter() {
        names.push(name.as_str(), "")?;
    }
    Ok(names)
}

// Does what the step says. Its fields have one action.
fn taken(
    registry: &mut Registry,
    fields: Fields<'_>,
    files: &mut Shelf,
) -> Result<(), TemplateError> {
    if let Some(sources) = fields.members("register") {
        return register_templates(registry, sources);
    }
    if let Some(paths) = fields.members("file") {
        return register_files(registry, paths, files);
    }
    if let Some(path) = fields.text("folder") {
        return registry.register_templates_directory(path, options(fields), files);
    }
    if let Some(stored) = fields.members("files") {
        files.put(stored)?;
    }
    change(registry, fields);
    Ok(())
}

// An action that can't fail.
fn change(registry: &mut Registry, fields: Fields<'_>) {
    if let Some(name) = fields.text("unregister") {
        registry.unregister_template(name);
    }
    if fields.is_set("clear") {
        registry.clear_templates();
    }
    if fields.has("dev") {
        registry.set_dev_mode(fields.is_set("dev"));
    }
}

fn register_files(
    registry: &mut Registry,
    paths: &Map<String, JsonValue>,
    files: &mut Shelf,
) -> Result<(), TemplateError> {
    for (name, path) in paths.iter() {
        registry.register_template_file(name.as_str(), path.as_str().unwrap_or(""), files)?;
    }
    Ok(())
}

// The default options, except for those that the step gives.
fn options(fields: Fields<'_>) -> DirectorySourceOptions<'_> {
    let default = DirectorySourceOptions::default();
    DirectorySourceOptions {
        tpl_extension: fields.text("extension").unwrap_or(default.tpl_extension),
        hidden: fields.is_set("hidden"),
        temporary: fields.is_set("temporary"),
    }
}
