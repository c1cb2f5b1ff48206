//! Compiles a source to its tree.

ghost use Rattle.std.specs.Prelude.{◌≡◌, ◌≢◌, [], IfOk, IfErr, IsSome, string_bytes};
ghost use Rattle.handlebars_base.specs.Reasons.{template_out_of_memory};
ghost use Rattle.handlebars_base.specs.TemplateRefusals.{template_reason_of, template_refusal_of, shown_lines};
ghost use Rattle.handlebars_template.specs.Compile.{Compiles, compiled, rejected, syntax_refusal, mismatch, refusal_for};
ghost use Rattle.handlebars_lexer.specs.Options.{Options, no_options, named_options};
ghost use Rattle.handlebars_template.specs.OptionsView.{options_view};
ghost use Rattle.handlebars_template.specs.NestView.{kind_view, late_nesting_error, nesting_error};
ghost use Rattle.handlebars_template.specs.ScanView.{nested_outcome};
ghost use Rattle.handlebars_template.specs.Position.{Position};
ghost use Rattle.handlebars_template.specs.TreeView.{tree_view, position_of};

use crate::template::chain::BlockKind;
use crate::template::nest::{Late, Nested, SyntaxError};
use crate::template::scan::{Scanned, scan};
use crate::template::tree::{Template, TemplateMapping};
use handlebars_base::error::{TemplateError, TemplateErrorReason};
use std::alloc::{AllocError, Global};

/// Options of a compilation: the name of the template, and whether indentation of its partials is prevented. If it is, the
/// blanks before a partial that is alone on its line remain text.
#[derive(Debug, Default, PartialEq, Drop)]
pub struct TemplateOptions {
    pub name: Option<String>,
    pub prevent_indent: bool,
}

impl Template {
    /// Compiles a source to its tree, with no name and the default options.
    ///
    /// # Errors
    ///
    /// Fails with the errors of `compile2`.
    pub fn compile(alloc: Global, source: &str) -> Result<Template, TemplateError>
        ensures ok { IfOk result (λ template. Compiles source.now no_options (compiled (tree_view template))) }
        ensures err { IfErr result (λ e. (template_refusal_of e).reason ≢ template_out_of_memory
            → Compiles source.now no_options (rejected (template_refusal_of e))) }
        ensures shown { IfErr result (λ e. IsSome (template_refusal_of e).position → IsSome (shown_lines e)) }
    {
        Template::compile2(alloc, source, TemplateOptions::default())
    }

    /// Compiles a source to its tree, under this name and with the default options otherwise.
    ///
    /// # Errors
    ///
    /// Fails with the errors of `compile2`.
    pub fn compile_with_name(
        alloc: Global,
        source: &str,
        name: String,
    ) -> Result<Template, TemplateError>
        ensures ok { IfOk result (λ template.
            Compiles source.now (named_options (string_bytes name)) (compiled (tree_view template))) }
        ensures err { IfErr result (λ e. (template_refusal_of e).reason ≢ template_out_of_memory
            → Compiles source.now (named_options (string_bytes name)) (rejected (template_refusal_of e))) }
        ensures shown { IfErr result (λ e. IsSome (template_refusal_of e).position → IsSome (shown_lines e)) }
    {
        let options = TemplateOptions {
            name: Some(name),
            prevent_indent: false,
        };
        Template::compile2(alloc, source, options)
    }

    /// Compiles a source to its tree, with these options.
    ///
    /// Runs in time linear in the source, except for ordering keys and computing the values of literals, and without
    /// recursion.
    ///
    /// # Errors
    ///
    /// Syntax errors come first, tag by tag along the source:
    ///
    /// - `InvalidSyntax("unreadable tag")` if a tag can't be read, or isn't the end of the raw block that it is in;
    /// - `InvalidSyntax("unexpected tag")` if an inverse or a close isn't allowed at its position;
    /// - `InvalidSyntax("nesting too deep")` if more than 200 blocks, chained inverses, parentheses and brackets of
    ///   literals are open at once inside a tag or inside its block;
    /// - `InvalidSyntax("block not closed")`, at the position of the innermost open block, if a block is still open at
    ///   the end of the source.
    ///
    /// If there is no syntax error, the error is the first of these:
    ///
    /// - `MismatchingClosedHelper` of both names if a name closes the block of another, or
    ///   `MismatchingClosedDecorator` if that is the block of a decorator or of a partial;
    /// - `InvalidParam` of the literal's text alone if a literal has no value.
    ///
    /// Each of these except `InvalidParam` has its position, in the template of the given name, or `Unnamed`. Fails also
    /// when memory runs out.
    pub fn compile2(
        alloc: Global,
        source: &str,
        options: TemplateOptions,
    ) -> Result<Template, TemplateError>
        ensures ok { IfOk result (λ template.
            Compiles source.now (options_view options) (compiled (tree_view template))) }
        ensures err { IfErr result (λ e. (template_refusal_of e).reason ≢ template_out_of_memory
            → Compiles source.now (options_view options) (rejected (template_refusal_of e))) }
        ensures shown { IfErr result (λ e. IsSome (template_refusal_of e).position → IsSome (shown_lines e)) }
    {
        match scan(alloc, source, &options)? {
            Scanned::Through(nested) => nested_tree(alloc, source, options, nested),
            Scanned::Unreadable(at) => {
                Err(syntax_error(alloc, source, options, at, "unreadable tag")?)
            }
            Scanned::Misplaced(error, at) => {
                Err(syntax_error(alloc, source, options, at, message(error))?)
            }
        }
    }
}

fn message(error: SyntaxError) -> &'static str
    ensures { (options : Options) (p : Position)
        → syntax_refusal result.now options p ≡ refusal_for options (nesting_error p error) }
{
    match error {
        SyntaxError::Unexpected => "unexpected tag",
        SyntaxError::TooDeep => "nesting too deep",
    }
}

// The outcome of a source, by the state at its end.
fn nested_tree(
    alloc: Global,
    source: &str,
    options: TemplateOptions,
    nested: Nested,
) -> Result<Template, TemplateError>
    ensures ok { IfOk result (λ template. nested_outcome (options_view options) nested ≡ compiled (tree_view template)) }
    ensures err { IfErr result (λ e. (template_refusal_of e).reason ≢ template_out_of_memory
        → nested_outcome (options_view options) nested ≡ rejected (template_refusal_of e)) }
    ensures shown { IfErr result (λ e. IsSome (template_refusal_of e).position → IsSome (shown_lines e)) }
{
    match nested {
        Nested::Whole(elements) => Ok(elements.named_tree(options)),
        Nested::NotClosed(at) => Err(syntax_error(alloc, source, options, at, "block not closed")?),
        Nested::Late(late) => Err(late_error(alloc, source, options, late)?),
    }
}

fn mismatch(kind: BlockKind, opened: String, closing: String) -> TemplateErrorReason
    ensures { template_reason_of result ≡ mismatch (kind_view kind) (string_bytes opened) (string_bytes closing) }
{
    match kind {
        BlockKind::Helper => TemplateErrorReason::MismatchingClosedHelper(opened, closing),
        BlockKind::Raw => TemplateErrorReason::MismatchingClosedHelper(opened, closing),
        BlockKind::Decorator => TemplateErrorReason::MismatchingClosedDecorator(opened, closing),
        BlockKind::Partial => TemplateErrorReason::MismatchingClosedDecorator(opened, closing),
    }
}

// The error of a closing name, or of a literal.
fn late_error(
    alloc: Global,
    source: &str,
    options: TemplateOptions,
    late: Late,
) -> Result<TemplateError, AllocError>
    ensures refusal { IfOk result (λ e. (template_refusal_of e).reason ≢ template_out_of_memory
        → template_refusal_of e ≡ refusal_for (options_view options) (late_nesting_error late)) }
    ensures shown { IfOk result (λ e. IsSome (template_refusal_of e).position → IsSome (shown_lines e)) }
{
    match late {
        Late::NoValue(raw) => Ok(TemplateError::of(TemplateErrorReason::InvalidParam(raw))),
        Late::Mismatched(kind, opened, closing, at) => {
            positioned_error(alloc, source, options, at, mismatch(kind, opened, closing))
        }
    }
}

// The error of a tag, or of a block that is not closed.
fn syntax_error(
    alloc: Global,
    source: &str,
    options: TemplateOptions,
    at: TemplateMapping,
    message: &str,
) -> Result<TemplateError, AllocError>
    ensures refusal { IfOk result (λ e. (template_refusal_of e).reason ≢ template_out_of_memory
        → template_refusal_of e ≡ syntax_refusal message.now (options_view options) (position_of at)) }
    ensures shown { IfOk result (λ e. IsSome (template_refusal_of e).position → IsSome (shown_lines e)) }
{
    let reason = TemplateErrorReason::InvalidSyntax(String::from_str(alloc, message)?);
    positioned_error(alloc, source, options, at, reason)
}

// An error at a position, in the template of the options' name.
fn positioned_error(
    alloc: Global,
    source: &str,
    options: TemplateOptions,
    at: TemplateMapping,
    reason: TemplateErrorReason,
) -> Result<TemplateError, AllocError>
    ensures refusal { IfOk result (λ e. (template_refusal_of e).reason ≢ template_out_of_memory
        → template_refusal_of e
        ≡ record (syntax_refusal [] (options_view options) (position_of at)) { reason = template_reason_of reason }) }
    ensures shown { IfOk result (λ e. template_reason_of reason ≢ template_out_of_memory
        → IsSome (template_refusal_of e).position → IsSome (shown_lines e)) }
{
    let name = match options.name {
        Some(name) => name,
        None => String::from_str(alloc, "Unnamed")?,
    };
    Ok(
        TemplateError::of(reason)
            .at(alloc, source, at.0, at.1)
            .in_template(name),
    )
}
