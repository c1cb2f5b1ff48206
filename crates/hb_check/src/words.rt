//! What is said of faults of names: what is wrong, and what to do about it.

use handlebars_names::fault::NameFaultReason;
use std::alloc::{AllocError, Global};
use std::fmt;

/// Shows what is wrong, in one line.
#[derive(Clone, Copy)]
pub struct Wrong<'f>(pub &'f NameFaultReason);

impl fmt::Display for Wrong<'_> {
    fn fmt<W: fmt::Write>(&self, f: &mut fmt::Formatter<W>) -> fmt::Result {
        match self.0 {
            NameFaultReason::MissingHelper(name, _) => write!(f, "no helper is named {name:?}"),
            NameFaultReason::MissingParams(name, 1) => {
                write!(f, "the helper {name:?} needs a parameter")
            }
            NameFaultReason::MissingParams(name, needed) => {
                write!(f, "the helper {name:?} needs {needed} parameters")
            }
            NameFaultReason::MadeName => {
                f.write_str(
                    "this name is computed when the template is rendered, so it can't be checked",
                )
            }
            NameFaultReason::OtherDecorator(name) => write!(f, "no decorator is named {name:?}"),
            NameFaultReason::UnnamedInline => {
                f.write_str("the name of an inline partial is not a text in quotes")
            }
            NameFaultReason::EmptyInline(name) => {
                write!(f, "the inline partial {name:?} has no body")
            }
            NameFaultReason::MissingPartial(name, _) => write!(f, "no partial is named {name:?}"),
            NameFaultReason::IncludesItself(_) => {
                f.write_str("this template includes itself, in no block that could end it")
            }
            NameFaultReason::MissingBlock => {
                f.write_str(
                    "there may be no `@partial-block`: this is included by a tag without a block",
                )
            }
            NameFaultReason::NamedBody(name) => write!(f, "a body has the name {name:?}"),
        }
    }
}

// Shows the name that may be meant.
#[derive(Clone, Copy)]
struct Meant<'f>(&'f str);

impl fmt::Display for Meant<'_> {
    fn fmt<W: fmt::Write>(&self, f: &mut fmt::Formatter<W>) -> fmt::Result {
        write!(f, "did you mean {:?}?", self.0)
    }
}

/// Returns what to do about a fault, each in one line.
///
/// # Errors
///
/// Fails if memory runs out.
pub fn help_for(alloc: Global, reason: &NameFaultReason) -> Result<Vec<String>, AllocError> {
    match reason {
        NameFaultReason::MissingHelper(name, near) => helper_help(alloc, name.as_str(), near),
        NameFaultReason::MissingParams(name, _) => one(alloc, parameter_help(name.as_str())),
        NameFaultReason::MadeName => one(
            alloc,
            "to have it checked, write each name out, for example in the branches of `{{#if}}`",
        ),
        NameFaultReason::OtherDecorator(_) => one(
            alloc,
            "`inline` is the only decorator: {{#*inline \"name\"}}..{{/inline}}",
        ),
        NameFaultReason::UnnamedInline => one(alloc, "write {{#*inline \"name\"}}..{{/inline}}"),
        NameFaultReason::EmptyInline(_) => {
            one(
                alloc,
                "write it as a block: {{#*inline \"name\"}}..{{/inline}}",
            )
        }
        NameFaultReason::MissingPartial(name, near) => partial_help(alloc, name.as_str(), near),
        NameFaultReason::IncludesItself(_) => one(
            alloc,
            "include it in the body of a block that ends, as {{#each children}}..{{/each}}",
        ),
        NameFaultReason::MissingBlock => one(
            alloc,
            "write {{#> @partial-block}}..{{/@partial-block}} with what stands here without a block",
        ),
        NameFaultReason::NamedBody(_) => one(alloc, "remove that name"),
    }
}

fn one(alloc: Global, help: &str) -> Result<Vec<String>, AllocError> {
    let mut list = Vec::new(alloc);
    list.push(String::from_str(alloc, help)?)?;
    Ok(list)
}

// What other template languages call by this name, and how it is written here.
fn habit(name: &str) -> Option<&'static str> {
    match name {
        "elseif" | "elif" | "elsif" | "elseIf" | "else-if" | "else_if" => {
            Some("write {{else if condition}}")
        }
        "endif" | "end" | "endfor" | "endeach" | "endblock" => {
            Some("a block is closed by its name, as {{/if}} or {{/each}}")
        }
        "for" | "foreach" | "forEach" | "range" => {
            Some("write {{#each list as |item|}}..{{/each}}")
        }
        "include" | "partial" | "render" | "template" | "import" => {
            Some("a partial is included by {{> name}}")
        }
        "extends" | "block" | "yield" | "layout" | "slot" => Some(
            "a layout is {{#> layout}}..{{/layout}}, and its place for the block {{> @partial-block}}",
        ),
        "inline" => Some("write {{#*inline \"name\"}}..{{/inline}}"),
        "set" | "assign" | "let" => Some("write {{#with value as |name|}}..{{/with}}"),
        "-" => Some("white space is trimmed by tildes: {{~name~}}"),
        name => compared(name),
    }
}

// Names of comparisons, and of helpers that other engines have.
fn compared(name: &str) -> Option<&'static str> {
    match name {
        "case" | "switch" => Some("write {{#if (eq x \"a\")}}..{{else if (eq x \"b\")}}..{{/if}}"),
        "ifEquals"
        | "ifeq"
        | "ifEq"
        | "ifCond"
        | "ifCompare"
        | "compare"
        | "when"
        | "is"
        | "equal"
        | "equals" => Some("write {{#if (eq a b)}}..{{/if}}"),
        "ifnot"
        | "isnt"
        | "neq"
        | "notEqual"
        | "not-equal"
        | "ifNotEquals"
        | "unlessEq"
        | "unlessEquals" => Some("write {{#if (ne a b)}}..{{/if}}"),
        "length" | "size" | "count" => Some("write (len list)"),
        "safe" | "html" => Some("{{{value}}} writes a value as it is"),
        _ => None,
    }
}

fn helper_help(
    alloc: Global,
    name: &str,
    near: &Option<String>,
) -> Result<Vec<String>, AllocError> {
    if let Some(help) = habit(name) {
        return one(alloc, help);
    }
    match near {
        Some(near) => suggestion(alloc, near.as_str()),
        None => no_such_helper(alloc),
    }
}

fn no_such_helper(alloc: Global) -> Result<Vec<String>, AllocError> {
    let mut list = one(
        alloc,
        "there are if, unless, each, with, lookup, log, len, eq, ne, gt, gte, lt, lte, and, or, not",
    )?;
    list.push(String::from_str(
        alloc,
        "what else a page shows is made in its data; a program may register helpers of its own",
    )?)?;
    Ok(list)
}

fn suggestion(alloc: Global, near: &str) -> Result<Vec<String>, AllocError> {
    let near = Meant(near);
    let mut list = Vec::new(alloc);
    list.push(format!(in alloc; "{near}")?)?;
    Ok(list)
}

fn partial_help(
    alloc: Global,
    name: &str,
    near: &Option<String>,
) -> Result<Vec<String>, AllocError> {
    if let Some(stem) = without_ending(name) {
        let mut list = Vec::new(alloc);
        list.push(format!(in alloc; "a partial's name has no ending: {{{{> {stem}}}}}")?)?;
        return Ok(list);
    }
    if let Some(near) = near {
        return suggestion(alloc, near.as_str());
    }
    let mut list = Vec::new(alloc);
    list.push(format!(in alloc;
        "{name:?} is in no folder of -p: a partial's name is the path of its file there, without .hbs"
    )?)?;
    list.push(format!(in alloc;
        "or set it before the tag, by {{{{#*inline {name:?}}}}}..{{{{/inline}}}}"
    )?)?;
    Ok(list)
}

fn without_ending(name: &str) -> Option<&str> {
    if let Some(stem) = name.strip_suffix(".hbs") {
        return Some(stem);
    }
    if let Some(stem) = name.strip_suffix(".handlebars") {
        return Some(stem);
    }
    if let Some(stem) = name.strip_suffix(".mustache") {
        return Some(stem);
    }
    name.strip_suffix(".html")
}

fn parameter_help(name: &str) -> &'static str {
    match name {
        "if" => "write {{#if condition}}, or to compare {{#if (eq a b)}}",
        "unless" => "write {{#unless condition}}",
        "each" => "write {{#each list}}",
        "with" => "write {{#with value}}",
        "lookup" => "write {{lookup list index}}, or {{./lookup}} for a value of that name",
        "not" => "write (not condition), or {{./not}} for a value of that name",
        "len" => "write {{len list}}, or {{./len}} for a value of that name",
        _ => "write what it compares, as (eq a b)",
    }
}
