//! What is inside tags, with what closes it.

ghost use Rattle.std.specs.Prelude.{◌≡◌, Bool, true, IfOk, IfSome, MatchOption, Some, None, codes, drop};
ghost use Rattle.handlebars_base.specs.Bytes.{Text};
ghost use Rattle.handlebars_base.specs.Path.{IsIdentifier};
ghost use Rattle.handlebars_expressions.specs.Alone.{IsAlone};
ghost use Rattle.handlebars_expressions.specs.Expression.{identifier_name, value_name, close_name, Expression, in_tag, in_block, IsExpression};
ghost use Rattle.handlebars_expressions.specs.ExpressionView.{mode_of};
ghost use Rattle.handlebars_lexer.specs.Comment.{HasNoLong};
ghost use Rattle.handlebars_lexer.specs.Kind.{after_text, closing_of, comment_kind, else_kind, block_kind, raw_kind, raw_close_kind, close_kind, decorator_kind, decorator_block_kind};
ghost use Rattle.handlebars_lexer.specs.KindView.{kind_of};
ghost use Rattle.handlebars_lexer.specs.Tag.{BlockExpression, written_name, block_mode, IsDecoratorExpression};
ghost use Rattle.handlebars_lexer.specs.TagView.{NoneClosed, NoBlockExpression, NoClosedExpression, HasBlock, HasDecorator, HasClosing, HasClosedExpression, HasInside, HasNamed, is_value_kind, is_escaped_kind};

use super::beginning::{TagBeginning, TagKind};
use super::closing::closing_of;
use crate::comment::split_comment;
use handlebars_base::json::path::marks::{after_white, starts_white, symbols};
use handlebars_expressions::binding::{BoundNames, split_binding};
use handlebars_expressions::expression::{
    Enclosure, LonePath, NameMode, close_name_at, path_alone, path_named, path_token, split_terms,
};
use std::alloc::{AllocError, Global};

/// The content of a tag, given by its parts of the source.
#[derive(Clone, Copy)]
pub enum Content<'a> {
    /// A value or a call, by the text that begins with its expression.
    Expression(&'a str),
    /// A value or a call that is written raw.
    Html(&'a str),
    /// A value that is a path alone.
    Path(PathToken<'a>),
    Block(BlockToken<'a>),
    Inverse,
    /// `else` with an expression.
    Chain(BlockToken<'a>),
    /// The name that closes a block, possibly empty.
    Close(&'a str),
    RawBlock(BlockToken<'a>),
    RawClose(&'a str),
    Decorator(BlockToken<'a>),
    DecoratorBlock(BlockToken<'a>),
    /// A partial, by the text that begins with its expression.
    Partial(&'a str),
    /// A partial with a block.
    PartialBlock(&'a str),
    /// A comment's text.
    Comment(&'a str),
}

/// A path that is alone in its tag: its text, whether it is known to be a name, and whether its value is escaped.
#[derive(Clone, Copy)]
pub struct PathToken<'a> {
    pub raw: &'a str,
    pub is_name: bool,
    pub is_escaped: bool,
}

/// The expression of a block or of a decorator: the text that begins with it, its name as it is written, which may be a path,
/// the one path after the name, if it is known, and the names that it binds.
#[derive(Clone, Copy)]
pub struct BlockToken<'a> {
    pub expression: &'a str,
    pub name: &'a str,
    pub path: Option<&'a str>,
    pub binding: BoundNames<'a>,
}

/// The inside of a tag: its content, whether a tilde precedes its closing braces, how deep it nests, and what follows the
/// braces.
#[derive(Clone, Copy)]
pub struct Inside<'a> {
    pub content: Content<'a>,
    pub right: bool,
    pub depth: usize,
    pub rest: &'a str,
    /// Whether a long comment may end in the rest, as far as is known from the tag.
    pub long_ahead: bool,
}

/// Returns the inside of the tag that begins with `begins` at the start of `left`, or `None` if it isn't there or isn't closed.
/// `long_ahead` says whether a long comment may end in `left`.
///
/// # Errors
///
/// Fails with `AllocError` if memory runs out.
pub fn inside_at<'a>(
    alloc: Global,
    begins: TagBeginning<'a>,
    left: &'a str,
    long_ahead: bool,
) -> Result<Option<Inside<'a>>, AllocError>
    requires comment { kind_of begins.kind ≡ comment_kind → after_text (codes "{{!") left.now ≡ Some begins.inside.now }
    requires ahead { HasNoLong long_ahead left.now }
    ensures reads { IfOk result (λ read. MatchOption read (NoneClosed (kind_of begins.entry.kind) begins.entry.inside.now)
        (λ inside. HasInside (kind_of begins.entry.kind) begins.entry.inside.now inside)) }
    ensures ahead { IfOk result (λ read. IfSome read (λ inside. HasNoLong inside.long_ahead inside.rest.now)) }
{
    let text = begins.inside;
    match begins.kind {
        TagKind::Expression => value(alloc, TagKind::Expression, Content::Expression(text), text),
        TagKind::Html => value(alloc, TagKind::Html, Content::Html(text), text),
        TagKind::HtmlSign => value(alloc, TagKind::HtmlSign, Content::Html(text), text),
        TagKind::Block => block(alloc, text),
        TagKind::Close => Ok(close(text)),
        TagKind::Inverse => Ok(closed(TagKind::Inverse, Content::Inverse, 0, text)),
        TagKind::Else => inverse(alloc, text),
        TagKind::Raw => raw_block(alloc, text),
        TagKind::RawClose => Ok(raw_close(text)),
        TagKind::Decorator => decorator(alloc, text),
        TagKind::DecoratorBlock => decorator_block(alloc, text),
        TagKind::Partial => inclusion(alloc, TagKind::Partial, Content::Partial(text), text),
        TagKind::PartialBlock => inclusion(
            alloc,
            TagKind::PartialBlock,
            Content::PartialBlock(text),
            text,
        ),
        TagKind::Comment => Ok(comment(left, long_ahead)),
    }
}

/// Returns the inside of the tag that begins with `begins`: a path alone, as in most tags, or what `inside_at` returns.
///
/// # Errors
///
/// Fails with `AllocError` if memory runs out.
#[inline(always)]
pub fn read_inside<'a>(
    alloc: Global,
    begins: TagBeginning<'a>,
    left: &'a str,
    long_ahead: bool,
) -> Result<Option<Inside<'a>>, AllocError>
    requires comment { kind_of begins.kind ≡ comment_kind → after_text (codes "{{!") left.now ≡ Some begins.inside.now }
    requires ahead { HasNoLong long_ahead left.now }
    ensures reads { IfOk result (λ read. MatchOption read (NoneClosed (kind_of begins.entry.kind) begins.entry.inside.now)
        (λ inside. HasInside (kind_of begins.entry.kind) begins.entry.inside.now inside)) }
    ensures ahead { IfOk result (λ read. IfSome read (λ inside. HasNoLong inside.long_ahead inside.rest.now)) }
{
    match lone_path(begins) {
        Some(path) => Ok(path_inside(begins.kind, path)),
        None => inside_at(alloc, begins, left, long_ahead),
    }
}

/// The path that is alone in the expression of a value. `None` is inconclusive.
#[inline(always)]
fn lone_path(begins: TagBeginning<'_>) -> Option<LonePath<'_>>
    ensures kind { IfSome result (λ path. is_value_kind (kind_of begins.entry.kind) ≡ true) }
    ensures alone { IfSome result (λ path. IsAlone in_tag begins.entry.inside.now path.raw.now path.rest.now) }
    ensures name { IfSome result (λ path. path.is_name ≡ true → IsIdentifier path.raw.now) }
{
    if !is_value_kind(begins.kind) {
        return None;
    }
    match path_alone(Enclosure::Tag, begins.inside) {
        Some(path) => Some(path),
        None => None,
    }
}

fn is_value_kind(kind: TagKind) -> bool
    ensures { result ≡ is_value_kind (kind_of kind) }
{
    match kind {
        TagKind::Expression => true,
        TagKind::Html => true,
        TagKind::HtmlSign => true,
        TagKind::Block => false,
        TagKind::Close => false,
        TagKind::Inverse => false,
        TagKind::Else => false,
        TagKind::Raw => false,
        TagKind::RawClose => false,
        TagKind::Decorator => false,
        TagKind::DecoratorBlock => false,
        TagKind::Partial => false,
        TagKind::PartialBlock => false,
        TagKind::Comment => false,
    }
}

/// A path that is alone in the expression of a value of this kind, with what closes the tag.
#[inline(always)]
fn path_inside(kind: TagKind, path: LonePath<'_>) -> Option<Inside<'_>>
    requires { is_value_kind (kind_of kind) ≡ true }
    ensures reads { (text : Text) → IsAlone in_tag text path.entry.raw.now path.entry.rest.now
        → (path.entry.is_name ≡ true → IsIdentifier path.entry.raw.now)
        → MatchOption result (NoneClosed (kind_of kind) text) (λ inside. HasInside (kind_of kind) text inside) }
    ensures ahead { IfSome result (λ inside. inside.long_ahead ≡ true) }
{
    let token = PathToken {
        raw: path.raw,
        is_name: path.is_name,
        is_escaped: is_escaped_kind(kind),
    };
    closed(kind, Content::Path(token), 0, path.rest)
}

/// Whether a value of this kind is escaped.
#[inline(always)]
fn is_escaped_kind(kind: TagKind) -> bool
    ensures { result ≡ is_escaped_kind (kind_of kind) }
{
    match kind {
        TagKind::Expression => true,
        TagKind::Html => false,
        TagKind::HtmlSign => false,
        TagKind::Block => false,
        TagKind::Close => false,
        TagKind::Inverse => false,
        TagKind::Else => false,
        TagKind::Raw => false,
        TagKind::RawClose => false,
        TagKind::Decorator => false,
        TagKind::DecoratorBlock => false,
        TagKind::Partial => false,
        TagKind::PartialBlock => false,
        TagKind::Comment => false,
    }
}

/// The content that was read, with what closes it.
#[inline(always)]
fn closed<'a>(
    kind: TagKind,
    content: Content<'a>,
    depth: usize,
    after: &'a str,
) -> Option<Inside<'a>>
    ensures { MatchOption result (closing_of (kind_of kind) after.now ≡ None)
        (λ inside. HasClosing (kind_of kind) after.now content.entry depth inside) }
{
    match closing_of(kind, after) {
        Some((right, rest)) => Some(Inside {
            content,
            right,
            depth,
            rest,
            long_ahead: true,
        }),
        None => None,
    }
}

/// An expression with a name of this mode, and what closes it.
fn expression<'a>(
    alloc: Global,
    kind: TagKind,
    mode: NameMode,
    content: Content<'a>,
    text: &'a str,
) -> Result<Option<Inside<'a>>, AllocError>
    ensures { IfOk result (λ read. MatchOption read (NoClosedExpression (kind_of kind) (mode_of mode) text.now)
        (λ inside. HasClosedExpression (kind_of kind) (mode_of mode) text.now content.entry inside)) }
{
    match split_terms(alloc, mode, Enclosure::Tag, text)? {
        Some(expression) => Ok(closed(kind, content, expression.depth, expression.rest)),
        None => Ok(None),
    }
}

/// The expression of a value, and what closes it.
fn value<'a>(
    alloc: Global,
    kind: TagKind,
    content: Content<'a>,
    text: &'a str,
) -> Result<Option<Inside<'a>>, AllocError>
    ensures { IfOk result (λ read. MatchOption read (NoClosedExpression (kind_of kind) value_name text.now)
        (λ inside. HasClosedExpression (kind_of kind) value_name text.now content.entry inside)) }
{
    expression(alloc, kind, NameMode::Value, content, text)
}

/// The expression of a partial, and what closes it.
fn inclusion<'a>(
    alloc: Global,
    kind: TagKind,
    content: Content<'a>,
    text: &'a str,
) -> Result<Option<Inside<'a>>, AllocError>
    ensures { IfOk result (λ read. MatchOption read (NoClosedExpression (kind_of kind) close_name text.now)
        (λ inside. HasClosedExpression (kind_of kind) close_name text.now content.entry inside)) }
{
    expression(alloc, kind, NameMode::Close, content, text)
}

fn block(alloc: Global, text: &str) -> Result<Option<Inside<'_>>, AllocError>
    ensures { IfOk result (λ read. MatchOption read (NoneClosed block_kind text.now)
        (λ inside. HasInside block_kind text.now inside × (inside.long_ahead ≡ true))) }
{
    match block_expression(alloc, true, text)? {
        Some(expression) => Ok(closed(
            TagKind::Block,
            Content::Block(expression.token),
            expression.depth,
            expression.rest,
        )),
        None => Ok(None),
    }
}

fn raw_block(alloc: Global, text: &str) -> Result<Option<Inside<'_>>, AllocError>
    ensures { IfOk result (λ read. MatchOption read (NoneClosed raw_kind text.now)
        (λ inside. HasInside raw_kind text.now inside × (inside.long_ahead ≡ true))) }
{
    match block_expression(alloc, false, text)? {
        Some(expression) => Ok(closed(
            TagKind::Raw,
            Content::RawBlock(expression.token),
            expression.depth,
            expression.rest,
        )),
        None => Ok(None),
    }
}

/// After `else`: what closes it, or an expression.
fn inverse(alloc: Global, text: &str) -> Result<Option<Inside<'_>>, AllocError>
    ensures { IfOk result (λ read. MatchOption read (NoneClosed else_kind text.now)
        (λ inside. HasInside else_kind text.now inside × (inside.long_ahead ≡ true))) }
{
    if let Some(inside) = closed(TagKind::Else, Content::Inverse, 0, text) {
        return Ok(Some(inside));
    }
    if !starts_white(text) {
        return Ok(None);
    }
    match block_expression(alloc, false, after_white(text))? {
        Some(expression) => Ok(closed(
            TagKind::Else,
            Content::Chain(expression.token),
            expression.depth,
            expression.rest,
        )),
        None => Ok(None),
    }
}

fn close(text: &str) -> Option<Inside<'_>>
    ensures { MatchOption result (NoneClosed close_kind text.now)
        (λ inside. HasInside close_kind text.now inside × (inside.long_ahead ≡ true)) }
{
    let (name, after) = close_name_at(text);
    closed(TagKind::Close, Content::Close(name), 0, after)
}

fn raw_close(text: &str) -> Option<Inside<'_>>
    ensures { MatchOption result (NoneClosed raw_close_kind text.now)
        (λ inside. HasInside raw_close_kind text.now inside × (inside.long_ahead ≡ true)) }
{
    let (name, after) = symbols(text);
    if name.is_empty() {
        None
    } else {
        closed(TagKind::RawClose, Content::RawClose(name), 0, after)
    }
}

fn decorator(alloc: Global, text: &str) -> Result<Option<Inside<'_>>, AllocError>
    ensures { IfOk result (λ read. MatchOption read (NoneClosed decorator_kind text.now)
        (λ inside. HasInside decorator_kind text.now inside × (inside.long_ahead ≡ true))) }
{
    match decorator_expression(alloc, text)? {
        Some(expression) => Ok(closed(
            TagKind::Decorator,
            Content::Decorator(expression.token),
            expression.depth,
            expression.rest,
        )),
        None => Ok(None),
    }
}

fn decorator_block(alloc: Global, text: &str) -> Result<Option<Inside<'_>>, AllocError>
    ensures { IfOk result (λ read. MatchOption read (NoneClosed decorator_block_kind text.now)
        (λ inside. HasInside decorator_block_kind text.now inside × (inside.long_ahead ≡ true))) }
{
    match decorator_expression(alloc, text)? {
        Some(expression) => Ok(closed(
            TagKind::DecoratorBlock,
            Content::DecoratorBlock(expression.token),
            expression.depth,
            expression.rest,
        )),
        None => Ok(None),
    }
}

/// A comment, given by the source from its braces on.
fn comment(left: &str, long_ahead: bool) -> Option<Inside<'_>>
    requires begins { after_text (codes "{{!") left.now ≡ Some (drop 3 left.now) }
    requires ahead { HasNoLong long_ahead left.now }
    ensures reads { MatchOption result (NoneClosed comment_kind (drop 3 left.now))
        (λ inside. HasInside comment_kind (drop 3 left.now) inside) }
    ensures ahead { IfSome result (λ inside. HasNoLong inside.long_ahead inside.rest.now) }
{
    match split_comment(left, long_ahead) {
        Some(token) => Some(Inside {
            content: Content::Comment(token.text),
            right: false,
            depth: 0,
            rest: token.rest,
            long_ahead: token.long_ahead,
        }),
        None => None,
    }
}

/// The expression of a block, how deep it nests, and what follows it.
#[derive(Clone, Copy)]
pub struct BlockRead<'a> {
    pub token: BlockToken<'a>,
    pub depth: usize,
    pub rest: &'a str,
}

/// What the name of a block may be, with sections or without.
fn block_mode(sections: bool) -> NameMode
    ensures { mode_of result ≡ block_mode sections }
{
    if sections {
        NameMode::Opening
    } else {
        NameMode::Identifier
    }
}

/// The expression of a block, with sections or without, and the block parameters after it, if any.
fn block_expression(
    alloc: Global,
    sections: bool,
    text: &str,
) -> Result<Option<BlockRead<'_>>, AllocError>
    ensures { IfOk result (λ read. MatchOption read (NoBlockExpression (block_mode sections) text.now)
        (λ read. HasBlock (block_mode sections) text.now read)) }
{
    match path_named(Enclosure::Block, text) {
        Some(found) => Ok(bound_expression(text, found.name, Some(found.raw), 0, found.rest)),
        None => block_terms(alloc, sections, text),
    }
}

/// The expression of a block, where it isn't known that one path alone follows its name.
fn block_terms(
    alloc: Global,
    sections: bool,
    text: &str,
) -> Result<Option<BlockRead<'_>>, AllocError>
    ensures { IfOk result (λ read. MatchOption read (NoBlockExpression (block_mode sections) text.now)
        (λ read. HasBlock (block_mode sections) text.now read)) }
{
    let Some(expression) = split_terms(alloc, block_mode(sections), Enclosure::Block, text)? else {
        return Ok(None);
    };
    match path_token(text) {
        Some(name) => Ok(bound_expression(text, name.raw, None, expression.depth, expression.rest)),
        None => Ok(None),
    }
}

/// The expression that ends here, and the block parameters after it, if any.
fn bound_expression<'a>(
    text: &'a str,
    name: &'a str,
    path: Option<&'a str>,
    depth: usize,
    after: &'a str,
) -> Option<BlockRead<'a>>
    ensures { (sections : Bool) (expression : Expression) → IsExpression (block_mode sections) in_block text.now expression after.now
        → expression.depth ≡ depth → written_name expression.name ≡ name.now → IfSome path.entry (λ raw. HasNamed text.now raw.now)
        → MatchOption result (NoBlockExpression (block_mode sections) text.now)
        (λ read. HasBlock (block_mode sections) text.now read) }
{
    match split_binding(after) {
        Some(binding) => Some(BlockRead {
            token: BlockToken {
                expression: text,
                name,
                path,
                binding: binding.means,
            },
            depth,
            rest: binding.rest,
        }),
        None => None,
    }
}

/// The expression of a decorator: its name is an identifier, and it has no block parameters.
fn decorator_expression(alloc: Global, text: &str) -> Result<Option<BlockRead<'_>>, AllocError>
    ensures { IfOk result (λ read. MatchOption read ((expression : BlockExpression) (rest : Text) → IsDecoratorExpression text.now expression rest → ⊥)
        (λ read. HasDecorator text.now read)) }
{
    let Some(expression) = block_expression(alloc, false, text)? else {
        return Ok(None);
    };
    match expression.token.binding {
        BoundNames::Unbound => Ok(Some(expression)),
        BoundNames::Bound(_) => Ok(None),
        BoundNames::BothBound(_, _) => Ok(None),
    }
}
