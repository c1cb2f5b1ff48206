//! Builds elements and block openings from tags, and adds them to the nesting.

ghost use Rattle.std.specs.Prelude.{◌≡◌, true, None, IfOk, OnOk, option_map, string_bytes};
ghost use Rattle.handlebars_base.specs.Bytes.{Text};
ghost use Rattle.handlebars_base.specs.Path.{IsIdentifier};
ghost use Rattle.handlebars_base.specs.PathView.{reference_of};
ghost use Rattle.handlebars_expressions.specs.Alone.{IsAlone};
ghost use Rattle.handlebars_expressions.specs.Expression.{value_name, close_name, Expression, in_tag, IsExpression};
ghost use Rattle.handlebars_expressions.specs.BindingView.{bound_names_of};
ghost use Rattle.handlebars_lexer.specs.Tag.{Tag, chain_tag, decorator_tag, partial_tag, partial_block_tag, tag_depth, is_raw_close, BlockExpression};
ghost use Rattle.handlebars_lexer.specs.Options.{Options};
ghost use Rattle.handlebars_lexer.specs.Trim.{WhitespaceControl as TextWhitespaceControl, may_be_standalone, opens_raw, takes_blanks, control_with};
ghost use Rattle.handlebars_lexer.specs.TrimView.{control_view};
ghost use Rattle.handlebars_lexer.specs.TagView.{Holds, IsBlockToken};
ghost use Rattle.handlebars_template.specs.ExpressionBuildingView.{IsPathAlone};
ghost use Rattle.handlebars_template.specs.OptionsView.{options_view};
ghost use Rattle.handlebars_template.specs.Position.{Position};
ghost use Rattle.handlebars_template.specs.TreeView.{call_view, element_view, param_view, position_of};
ghost use Rattle.handlebars_template.specs.Tree.{comment, name, no_arguments};
ghost use Rattle.handlebars_template.specs.Calls.{first_rejected, literals_in};
ghost use Rattle.handlebars_template.specs.Nest.{leaf, opens};
ghost use Rattle.handlebars_template.specs.NestView.{names_view, kind_view, opening_view, early, Looks, AppliesPiece};
ghost use Rattle.handlebars_template.specs.Tokens.{may_follow};
ghost use Rattle.handlebars_template.specs.ScanView.{value_element, value_piece, IsOpening, KnowsName};
ghost use Rattle.handlebars_template.specs.Compile.{block_binding, is_indented, opening_of, closing_name, partial_indentation, tag_piece};

use crate::template::arguments::Arguments;
use crate::template::build::known_path;
use crate::template::chain::{BlockKind, BlockNames, BlockOpening};
use crate::template::compile::TemplateOptions;
use crate::template::expression::{build_terms, named_arguments, path_expression};
use crate::template::nest::{Nesting, SyntaxError};
use crate::template::tree::{HelperTemplate, Parameter, TemplateElement, TemplateMapping};
use handlebars_base::json::path::Path;
use handlebars_expressions::binding::BoundNames;
use handlebars_expressions::expression::{Enclosure, NameMode};
use handlebars_lexer::tag::{BlockToken, Content, PathToken, TagToken};
use handlebars_lexer::trim::{WhitespaceControl, control_at};
use std::alloc::{AllocError, Global};

// Whether a tag may be standalone on its line. Values never are.
fn may_be_standalone(content: Content<'_>) -> bool
    ensures { (tag : Tag) → Holds content.entry tag → result ≡ may_be_standalone tag }
{
    match content {
        Content::Expression(_) => false,
        Content::Html(_) => false,
        Content::Path(_) => false,
        Content::Block(_) => true,
        Content::Inverse => true,
        Content::Chain(_) => true,
        Content::Close(_) => true,
        Content::RawBlock(_) => true,
        Content::RawClose(_) => true,
        Content::Decorator(_) => true,
        Content::DecoratorBlock(_) => true,
        Content::Partial(_) => true,
        Content::PartialBlock(_) => true,
        Content::Comment(_) => true,
    }
}

fn opens_raw(content: Content<'_>) -> bool
    ensures { (tag : Tag) → Holds content.entry tag → result ≡ opens_raw tag }
{
    match content {
        Content::RawBlock(_) => true,
        Content::Expression(_) => false,
        Content::Html(_) => false,
        Content::Path(_) => false,
        Content::Block(_) => false,
        Content::Inverse => false,
        Content::Chain(_) => false,
        Content::Close(_) => false,
        Content::RawClose(_) => false,
        Content::Decorator(_) => false,
        Content::DecoratorBlock(_) => false,
        Content::Partial(_) => false,
        Content::PartialBlock(_) => false,
        Content::Comment(_) => false,
    }
}

// Whether the blanks before a tag may be its indentation, as they may for a partial without a block.
fn takes_blanks(content: Content<'_>) -> bool
    ensures { (tag : Tag) → Holds content.entry tag → result ≡ takes_blanks tag }
{
    match content {
        Content::Partial(_) => true,
        Content::Expression(_) => false,
        Content::Html(_) => false,
        Content::Path(_) => false,
        Content::Block(_) => false,
        Content::Inverse => false,
        Content::Chain(_) => false,
        Content::Close(_) => false,
        Content::RawBlock(_) => false,
        Content::RawClose(_) => false,
        Content::Decorator(_) => false,
        Content::DecoratorBlock(_) => false,
        Content::PartialBlock(_) => false,
        Content::Comment(_) => false,
    }
}

fn closes_raw(content: Content<'_>) -> bool
    ensures { (tag : Tag) → Holds content.entry tag → result ≡ is_raw_close tag }
{
    match content {
        Content::RawClose(_) => true,
        Content::Expression(_) => false,
        Content::Html(_) => false,
        Content::Path(_) => false,
        Content::Block(_) => false,
        Content::Inverse => false,
        Content::Chain(_) => false,
        Content::Close(_) => false,
        Content::RawBlock(_) => false,
        Content::Decorator(_) => false,
        Content::DecoratorBlock(_) => false,
        Content::Partial(_) => false,
        Content::PartialBlock(_) => false,
        Content::Comment(_) => false,
    }
}

/// Returns whether a tag may follow this whitespace control: after the opening of a raw block, only its end may.
pub fn may_follow(control: WhitespaceControl<'_>, content: Content<'_>) -> bool
    ensures { (tag : Tag) → Holds content.entry tag → result ≡ may_follow (control_view control.entry) tag }
{
    !control.is_raw || closes_raw(content)
}

/// Returns the whitespace control of a tag: what it does to the texts beside it, after a line that is fresh or not and ends
/// with these blanks.
pub fn control_after<'s>(fresh: bool, blanks: &'s str, tag: TagToken<'_>) -> WhitespaceControl<'s>
    ensures { (t : Tag) → Holds tag.entry.content t → control_view result
        ≡ control_with fresh blanks.now t (record { left = tag.entry.left; right = tag.entry.right }) tag.entry.rest.now }
{
    let sides = WhitespaceControl {
        standalone: may_be_standalone(tag.content),
        blanks,
        left: tag.left,
        right: tag.right,
        is_raw: opens_raw(tag.content),
        takes_blanks: takes_blanks(tag.content),
    };
    control_at(fresh, sides, tag.rest)
}

/// Checks whether a tag may come next, with this many parentheses and brackets open in it, before anything is built from it.
/// Returns the error, if there is one.
pub fn look(nesting: &Nesting, content: Content<'_>, depth: usize) -> Option<SyntaxError>
    ensures { (options : Options) (p : Position) (e : TextWhitespaceControl) (tag : Tag) → Holds content.entry tag → tag_depth tag ≡ depth
        → Looks p (early nesting.now (tag_piece options p e tag)) result }
{
    match content {
        Content::Expression(_) => nesting.look_at_leaf(depth),
        Content::Html(_) => nesting.look_at_leaf(depth),
        Content::Path(_) => nesting.look_at_leaf(depth),
        Content::Block(_) => nesting.look_at_opening(depth),
        Content::Inverse => nesting.look_at_inverse(),
        Content::Chain(_) => nesting.look_at_chained(depth),
        Content::Close(name) => nesting.look_at_close(false, name),
        Content::RawBlock(_) => nesting.look_at_opening(depth),
        Content::RawClose(name) => nesting.look_at_close(true, name),
        Content::Decorator(_) => nesting.look_at_leaf(depth),
        Content::DecoratorBlock(_) => nesting.look_at_opening(depth),
        Content::Partial(_) => nesting.look_at_leaf(depth),
        Content::PartialBlock(_) => nesting.look_at_opening(depth),
        Content::Comment(_) => nesting.look_at_leaf(0),
    }
}

fn block_names(alloc: Global, binding: BoundNames<'_>) -> Result<BlockNames, AllocError>
    ensures { IfOk result (λ names. names_view names ≡ block_binding (bound_names_of binding.entry)) }
{
    match binding {
        BoundNames::Unbound => Ok(BlockNames::Unbound),
        BoundNames::Bound(name) => Ok(BlockNames::Bound(String::from_str(alloc, name)?)),
        BoundNames::BothBound(name, other) => {
            let name = String::from_str(alloc, name)?;
            let other = String::from_str(alloc, other)?;
            Ok(BlockNames::BothBound(name, other))
        }
    }
}

// Whether indentation is written before the output of a tag: the tag is alone on its line and has no tilde at its start.
fn is_indented(control: WhitespaceControl<'_>) -> bool
    ensures { result ≡ is_indented (control_view control.entry) }
{
    control.standalone && !control.left
}

/// The content of the tag of a block or of a decorator, and the first of its literals that is rejected.
#[derive(Drop)]
struct BuiltOpening<'a> {
    opening: BlockOpening,
    rejected: Option<&'a str>,
}

// An opening with a name given by its text, and no arguments yet.
fn bare_opening(
    alloc: Global,
    block: BlockToken<'_>,
    kind: BlockKind,
    control: WhitespaceControl<'_>,
) -> Result<BlockOpening, AllocError>
    ensures { IfOk result (λ opening. opening_view opening
        ≡ record {
          kind = kind_view kind;
          name = name block.entry.name.now;
          closing = block.entry.name.now;
          arguments = no_arguments;
          binding = block_binding (bound_names_of block.entry.binding);
          indent = is_indented (control_view control.entry);
        }) }
{
    let name = String::from_str(alloc, block.name)?;
    let closing = String::from_str(alloc, block.name)?;
    let names = block_names(alloc, block.binding)?;
    Ok(BlockOpening {
        kind,
        name: Parameter::Name(name),
        closing,
        arguments: Arguments::new(alloc),
        names,
        indent_before_write: is_indented(control),
    })
}

// The opening of a block. If there is no block expression, the result is inconclusive.
fn opening<'a>(
    alloc: Global,
    block: BlockToken<'a>,
    kind: BlockKind,
    control: WhitespaceControl<'_>,
) -> Result<Option<BuiltOpening<'a>>, AllocError>
    ensures { IfOk result (λ built. (expression : BlockExpression) (rest : Text) → IsBlockToken block.entry expression rest
        → IsOpening (kind_view kind) (control_view control.entry) expression built) }
{
    let Some(arguments) = named_arguments(alloc, block.path)? else {
        return opening_by_terms(alloc, block, kind, control);
    };
    let mut opening = bare_opening(alloc, block, kind, control)?;
    opening.arguments = arguments;
    Ok(Some(BuiltOpening {
        opening,
        rejected: None,
    }))
}

// The opening of a block, built term by term: for an expression with any parameters, and for one whose name is a path.
#[inline(never)]
fn opening_by_terms<'a>(
    alloc: Global,
    block: BlockToken<'a>,
    kind: BlockKind,
    control: WhitespaceControl<'_>,
) -> Result<Option<BuiltOpening<'a>>, AllocError>
    ensures { IfOk result (λ built. (expression : BlockExpression) (rest : Text) → IsBlockToken block.entry expression rest
        → IsOpening (kind_view kind) (control_view control.entry) expression built) }
{
    let Some(expression) = build_terms(
        alloc,
        NameMode::Opening,
        Enclosure::Block,
        block.expression,
    )?
    else {
        return Ok(None);
    };
    let rejected = expression.rejected;
    let closing = String::from_str(alloc, block.name)?;
    let names = block_names(alloc, block.binding)?;
    let opening = expression.opening(kind, closing, names, is_indented(control));
    Ok(Some(BuiltOpening { opening, rejected }))
}

#[inline(always)]
fn value_element(is_escaped: bool, call: Box<HelperTemplate>) -> TemplateElement
    ensures { element_view result ≡ value_element is_escaped (call_view call.value) }
{
    if is_escaped {
        TemplateElement::Expression(call)
    } else {
        TemplateElement::HtmlExpression(call)
    }
}

// Adds the value of a path that is alone in its tag.
#[inline(never)]
fn add_path(
    alloc: Global,
    nesting: &mut Nesting,
    at: TemplateMapping,
    token: PathToken<'_>,
) -> Result<(), AllocError>
    requires { token.is_name ≡ true → IsIdentifier token.raw.now }
    ensures { OnOk result ((expression : Expression) (text after left : Text) → IsExpression value_name in_tag text expression after
        → IsAlone in_tag text token.entry.raw.now left
        → AppliesPiece nesting.old (value_piece token.entry.is_escaped (position_of at) expression) nesting.new) }
{
    match known_path(alloc, token.raw, token.is_name)? {
        Some(path) => add_known(alloc, nesting, at, path, token.is_escaped),
        None => Ok(()),
    }
}

#[inline(always)]
fn add_known(
    alloc: Global,
    nesting: &mut Nesting,
    at: TemplateMapping,
    path: Path,
    is_escaped: bool,
) -> Result<(), AllocError>
    ensures { OnOk result ((expression : Expression) → IsPathAlone expression (reference_of path)
        → AppliesPiece nesting.old (value_piece is_escaped (position_of at) expression) nesting.new) }
{
    let call = path_expression(alloc, path).call().boxed(alloc)?;
    nesting.add(alloc, at, value_element(is_escaped, call), None)
}

// Adds a value of other terms.
#[inline(never)]
fn add_terms(
    alloc: Global,
    nesting: &mut Nesting,
    at: TemplateMapping,
    text: &str,
    is_escaped: bool,
) -> Result<(), AllocError>
    ensures { OnOk result ((expression : Expression) (rest : Text) → IsExpression value_name in_tag text.now expression rest
        → AppliesPiece nesting.old (value_piece is_escaped (position_of at) expression) nesting.new) }
{
    let Some(expression) = build_terms(alloc, NameMode::Value, Enclosure::Tag, text)? else {
        return Ok(());
    };
    let rejected = expression.rejected;
    let call = expression.call().boxed(alloc)?;
    nesting.add(alloc, at, value_element(is_escaped, call), rejected)
}

fn begin(
    alloc: Global,
    nesting: &mut Nesting,
    at: TemplateMapping,
    block: BlockToken<'_>,
    kind: BlockKind,
    control: WhitespaceControl<'_>,
) -> Result<(), AllocError>
    ensures { OnOk result ((expression : BlockExpression) (rest : Text) → IsBlockToken block.entry expression rest
        → AppliesPiece nesting.old (opens (position_of at) (opening_of (kind_view kind) (control_view control.entry) expression) expression.depth
        (first_rejected (literals_in expression.terms))) nesting.new) }
{
    match opening(alloc, block, kind, control)? {
        Some(built) => nesting.begin(alloc, at, built.opening, built.rejected),
        None => Ok(()),
    }
}

#[inline(never)]
fn chain(
    alloc: Global,
    nesting: &mut Nesting,
    at: TemplateMapping,
    block: BlockToken<'_>,
    control: WhitespaceControl<'_>,
) -> Result<(), AllocError>
    ensures { OnOk result ((options : Options) (expression : BlockExpression) (rest : Text) → IsBlockToken block.entry expression rest
        → AppliesPiece nesting.old (tag_piece options (position_of at) (control_view control.entry) (chain_tag expression)) nesting.new) }
{
    match opening(alloc, block, BlockKind::Helper, control)? {
        Some(built) => nesting.chain(alloc, at, built.opening, built.rejected),
        None => Ok(()),
    }
}

#[inline(never)]
fn add_decorator(
    alloc: Global,
    nesting: &mut Nesting,
    at: TemplateMapping,
    block: BlockToken<'_>,
    control: WhitespaceControl<'_>,
) -> Result<(), AllocError>
    ensures { OnOk result ((options : Options) (expression : BlockExpression) (rest : Text) → IsBlockToken block.entry expression rest
        → AppliesPiece nesting.old (tag_piece options (position_of at) (control_view control.entry) (decorator_tag expression)) nesting.new) }
{
    let Some(built) = opening(alloc, block, BlockKind::Decorator, control)? else {
        return Ok(());
    };
    let rejected = built.rejected;
    let tag = Box::new(alloc, built.opening.decorator(None))?;
    nesting.add(
        alloc,
        at,
        TemplateElement::DecoratorExpression(tag),
        rejected,
    )
}

// The blanks before a partial without a block, if they are its indentation.
fn indentation(
    alloc: Global,
    options: &TemplateOptions,
    control: WhitespaceControl<'_>,
) -> Result<Option<String>, AllocError>
    ensures { IfOk result (λ indent. option_map string_bytes indent
        ≡ partial_indentation (options_view options.now) (control_view control.entry)) }
{
    if options.prevent_indent || control.left || control.blanks.is_empty() {
        return Ok(None);
    }
    Ok(Some(String::from_str(alloc, control.blanks)?))
}

#[inline(never)]
fn add_partial(
    alloc: Global,
    nesting: &mut Nesting,
    options: &TemplateOptions,
    at: TemplateMapping,
    text: &str,
    control: WhitespaceControl<'_>,
) -> Result<(), AllocError>
    ensures { OnOk result ((expression : Expression) (rest : Text) → IsExpression close_name in_tag text.now expression rest
        → AppliesPiece nesting.old (tag_piece (options_view options.now) (position_of at) (control_view control.entry) (partial_tag expression)) nesting.new) }
{
    let Some(expression) = build_terms(alloc, NameMode::Close, Enclosure::Tag, text)? else {
        return Ok(());
    };
    let rejected = expression.rejected;
    let indent = indentation(alloc, options, control)?;
    let tag = Box::new(alloc, expression.inclusion(indent, is_indented(control)))?;
    nesting.add(alloc, at, TemplateElement::PartialExpression(tag), rejected)
}

// The name that closes a partial block.
fn closing_name(alloc: Global, name: &Parameter) -> Result<String, AllocError>
    ensures { IfOk result (λ closing. string_bytes closing ≡ closing_name (param_view name.now)) }
{
    let closing = name.as_name().unwrap_or("(subexpression)");
    Ok(String::from_str(alloc, closing)?)
}

#[inline(never)]
fn begin_partial(
    alloc: Global,
    nesting: &mut Nesting,
    at: TemplateMapping,
    text: &str,
    control: WhitespaceControl<'_>,
) -> Result<(), AllocError>
    ensures { OnOk result ((options : Options) (expression : Expression) (rest : Text) → IsExpression close_name in_tag text.now expression rest
        → AppliesPiece nesting.old (tag_piece options (position_of at) (control_view control.entry) (partial_block_tag expression)) nesting.new) }
{
    let Some(expression) = build_terms(alloc, NameMode::Close, Enclosure::Tag, text)? else {
        return Ok(());
    };
    let rejected = expression.rejected;
    let closing = closing_name(alloc, &expression.name)?;
    let names = BlockNames::Unbound;
    let opening = expression.opening(BlockKind::Partial, closing, names, is_indented(control));
    nesting.begin(alloc, at, opening, rejected)
}

#[inline(never)]
fn add_comment(
    alloc: Global,
    nesting: &mut Nesting,
    at: TemplateMapping,
    text: &str,
) -> Result<(), AllocError>
    ensures { OnOk result (AppliesPiece nesting.old (leaf (position_of at) (comment text.now) 0 None) nesting.new) }
{
    let text = TemplateElement::Comment(String::from_str(alloc, text)?);
    nesting.add(alloc, at, text, None)
}

/// Adds a tag, at this position and with this whitespace control.
pub fn take_tag(
    alloc: Global,
    nesting: &mut Nesting,
    options: &TemplateOptions,
    at: TemplateMapping,
    content: Content<'_>,
    control: WhitespaceControl<'_>,
) -> Result<(), AllocError>
    requires { KnowsName content }
    ensures { OnOk result ((tag : Tag) → Holds content.entry tag
        → AppliesPiece nesting.old (tag_piece (options_view options.now) (position_of at) (control_view control.entry) tag) nesting.new) }
{
    match content {
        Content::Expression(text) => add_terms(alloc, nesting, at, text, true),
        Content::Html(text) => add_terms(alloc, nesting, at, text, false),
        Content::Path(token) => add_path(alloc, nesting, at, token),
        Content::Block(block) => begin(alloc, nesting, at, block, BlockKind::Helper, control),
        Content::Inverse => nesting.invert(alloc, at),
        Content::Chain(block) => chain(alloc, nesting, at, block, control),
        Content::Close(name) => nesting.close(alloc, at, false, name),
        Content::RawBlock(block) => begin(alloc, nesting, at, block, BlockKind::Raw, control),
        Content::RawClose(name) => nesting.close(alloc, at, true, name),
        Content::Decorator(block) => add_decorator(alloc, nesting, at, block, control),
        Content::DecoratorBlock(block) => {
            begin(alloc, nesting, at, block, BlockKind::Decorator, control)
        }
        Content::Partial(text) => add_partial(alloc, nesting, options, at, text, control),
        Content::PartialBlock(text) => begin_partial(alloc, nesting, at, text, control),
        Content::Comment(text) => add_comment(alloc, nesting, at, text),
    }
}
