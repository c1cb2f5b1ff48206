//! Builds the call that an expression is.

ghost use Rattle.std.specs.Prelude.{◌≡◌, None, IfOk, IfSome, option_map, string_bytes};
ghost use Rattle.handlebars_base.specs.Bytes.{Text};
ghost use Rattle.handlebars_expressions.specs.Expression.{opening_name, in_block, Expression, IsExpression};
ghost use Rattle.handlebars_expressions.specs.ExpressionView.{mode_of, enclosure_of};
ghost use Rattle.handlebars_base.specs.PathView.{reference_of};
ghost use Rattle.handlebars_lexer.specs.TagView.{HasNamed};
ghost use Rattle.handlebars_template.specs.ExpressionBuildingView.{built_call, IsBuilt, IsCallOf, IsPathAlone, HasArguments};
ghost use Rattle.handlebars_template.specs.Calls.{add_argument};
ghost use Rattle.handlebars_template.specs.Tree.{escaped_expression, decorator, no_arguments, no_body, path as means};
ghost use Rattle.handlebars_template.specs.TreeView.{call_view, decorator_view, param_view, arguments_view, subexpression_view};
ghost use Rattle.handlebars_template.specs.NestView.{names_view, kind_view, opening_view};

use crate::template::arguments::Arguments;
use crate::template::build::{first_calls, known_path, path_of};
use crate::template::chain::{BlockKind, BlockNames, BlockOpening};
use crate::template::tree::{DecoratorTemplate, HelperTemplate, Parameter, Subexpression};
use handlebars_base::json::path::Path;
use handlebars_expressions::expression::{
    Enclosure, ExpressionState, NameMode, Step, path_alone, take_step,
};
use std::alloc::{AllocError, Global};

/// The most blocks, chained inverses, parentheses and brackets of literals that may be open at once.
pub const MAX_NESTING: usize = 200;

/// The name and the arguments of an expression, and the first of its literals that is rejected, by its text.
pub struct BuiltExpression<'a> {
    pub name: Parameter,
    pub arguments: Arguments,
    pub rejected: Option<&'a str>,
}

impl Drop for BuiltExpression<'_> {
    fn drop(self) {
        let BuiltExpression {
            name: _,
            arguments: _,
            rejected: _,
        } = self;
    }
}

impl BuiltExpression<'_> {
    /// Returns the expression as a value or a helper call.
    #[inline(always)]
    pub fn call(self) -> HelperTemplate
        ensures { call_view result ≡ built_call self.entry }
    {
        let BuiltExpression {
            name,
            arguments: Arguments { params, hash },
            rejected: _,
        } = self;
        HelperTemplate {
            name,
            params,
            hash,
            block_param: None,
            template: None,
            inverse: None,
            block: false,
            chain: false,
            indent_before_write: false,
        }
    }

    /// Returns the expression as a call in parentheses.
    pub fn subexpression(self, alloc: Global) -> Result<Subexpression, AllocError>
        ensures { IfOk result (λ call. subexpression_view call
            ≡ escaped_expression (built_call self.entry)) }
    {
        let BuiltExpression {
            name,
            arguments: Arguments { params, hash },
            rejected: _,
        } = self;
        Subexpression::new(alloc, name, params, hash)
    }

    /// Returns the expression as a partial without a block, with this indentation.
    pub fn inclusion(self, indent: Option<String>, indent_before_write: bool) -> DecoratorTemplate
        ensures { decorator_view result
            ≡ decorator (param_view self.entry.name) (arguments_view self.entry.arguments) no_body
            (record { indent = option_map string_bytes indent; indent_before_write = indent_before_write }) }
    {
        let BuiltExpression {
            name,
            arguments: Arguments { params, hash },
            rejected: _,
        } = self;
        DecoratorTemplate {
            name,
            params,
            hash,
            template: None,
            indent,
            indent_before_write,
        }
    }

    /// Returns the expression as the content of the opening tag of a block, which this text closes.
    pub fn opening(
        self,
        kind: BlockKind,
        closing: String,
        names: BlockNames,
        indent_before_write: bool,
    ) -> BlockOpening
        ensures { opening_view result
            ≡ record {
              kind = kind_view kind;
              name = param_view self.entry.name;
              closing = string_bytes closing;
              arguments = arguments_view self.entry.arguments;
              binding = names_view names;
              indent = indent_before_write;
            } }
    {
        let BuiltExpression {
            name,
            arguments,
            rejected: _,
        } = self;
        BlockOpening {
            kind,
            name,
            closing,
            arguments,
            names,
            indent_before_write,
        }
    }
}

/// Reads the path if the expression at the start of the text is a path alone, as most expressions are. This is a fast path: it
/// opens no call. The result `None` is inconclusive, and so is any result if the text begins with no expression.
#[inline(always)]
pub fn lone_path(
    alloc: Global,
    mode: NameMode,
    around: Enclosure,
    text: &str,
) -> Result<Option<Path>, AllocError>
    ensures { IfOk result (λ read. IfSome read (λ path. (expression : Expression) (left : Text)
        → IsExpression (mode_of mode) (enclosure_of around) text.now expression left → IsPathAlone expression (reference_of path))) }
{
    match mode {
        NameMode::Value => match path_alone(around, text) {
            Some(path) => known_path(alloc, path.raw, path.is_name),
            None => Ok(None),
        },
        NameMode::Identifier => Ok(None),
        NameMode::Close => Ok(None),
        NameMode::Opening => Ok(None),
    }
}

/// Reads the arguments of a name with one path after it, by the text of that path, as in most blocks. This is a fast path: it
/// opens no call. The result `None` is inconclusive.
pub fn named_arguments(alloc: Global, path: Option<&str>) -> Result<Option<Arguments>, AllocError>
    ensures { IfOk result (λ read. IfSome read (λ arguments. (text : Text) (expression : Expression) (left : Text)
        → IfSome path.entry (λ raw. HasNamed text raw.now)
        → IsExpression opening_name in_block text expression left → HasArguments expression (arguments_view arguments))) }
{
    match path {
        Some(raw) => match path_of(alloc, raw)? {
            Some(path) => Ok(Some(path_arguments(alloc, path)?)),
            None => Ok(None),
        },
        None => Ok(None),
    }
}

fn path_arguments(alloc: Global, path: Path) -> Result<Arguments, AllocError>
    ensures { IfOk result (λ arguments. arguments_view arguments
        ≡ add_argument None (means (reference_of path)) no_arguments) }
{
    let mut arguments = Arguments::new(alloc);
    arguments.add(None, Parameter::Path(path))?;
    Ok(arguments)
}

/// Builds the call that the expression at the start of the text is, in this mode. If the text begins with no such expression,
/// the result is inconclusive.
pub fn build_expression<'a>(
    alloc: Global,
    mode: NameMode,
    around: Enclosure,
    text: &'a str,
) -> Result<Option<BuiltExpression<'a>>, AllocError>
    ensures { IfOk result (λ read. (expression : Expression) (left : Text)
        → IsExpression (mode_of mode) (enclosure_of around) text.now expression left → IsBuilt expression read) }
{
    match lone_path(alloc, mode, around, text)? {
        Some(path) => Ok(Some(path_expression(alloc, path))),
        None => build_terms(alloc, mode, around, text),
    }
}

/// Returns the expression that is this path alone.
#[inline(always)]
pub fn path_expression<'a>(alloc: Global, path: Path) -> BuiltExpression<'a>
    ensures { (expression : Expression) → IsPathAlone expression (reference_of path) → IsCallOf expression result }
{
    BuiltExpression {
        name: Parameter::Path(path),
        arguments: Arguments::new(alloc),
        rejected: None,
    }
}

/// Builds the call that the expression at the start of the text is, term by term.
pub fn build_terms<'a>(
    alloc: Global,
    mode: NameMode,
    around: Enclosure,
    text: &'a str,
) -> Result<Option<BuiltExpression<'a>>, AllocError>
    ensures { IfOk result (λ read. (expression : Expression) (left : Text)
        → IsExpression (mode_of mode) (enclosure_of around) text.now expression left → IsBuilt expression read) }
{
    let mut state = ExpressionState::first(mode);
    let mut rest = text;
    let mut calls = first_calls(alloc, text);
    'building: loop {
        match take_step(alloc, around, state, rest)? {
            Step::Goes(event, next, after) => {
                if !calls.take(alloc, event)? {
                    return Ok(None);
                }
                state = next;
                rest = after;
            }
            Step::Ends => return Ok(calls.finish()),
            Step::Stuck => return Ok(None),
        }
    }
}
