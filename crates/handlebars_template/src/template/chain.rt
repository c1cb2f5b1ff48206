//! Blocks and their chains of inverses.

ghost use Rattle.std.specs.Prelude.{◌≡◌, ◌∷◌, [], IfOk, map};
ghost use Rattle.handlebars_template.specs.Tree.{helper_block, body};
ghost use Rattle.handlebars_template.specs.TreeView.{tree_view, call_view, decorator_view, element_view, body_view, block_param_view};
ghost use Rattle.handlebars_template.specs.Nest.{admits_inverse, admits_no_name, has_close, may_end, block_call, inverse_of, helper_call, block_of, decorator_with};
ghost use Rattle.handlebars_template.specs.NestView.{positioned_view, names_view, kind_view, opening_view, branch_view};

use crate::template::arguments::Arguments;
use crate::template::positioned::PositionedElements;
use crate::template::tree::{
    BlockParam, DecoratorTemplate, HelperTemplate, Parameter, Template, TemplateElement,
};
use std::alloc::{AllocError, Global};

/// The names that a block binds, as texts. They are parameters only in its tree.
#[derive(Drop)]
pub enum BlockNames {
    Unbound,
    Bound(String),
    BothBound(String, String),
}

/// What a tag opens: a helper block, a raw block, a decorator block or a partial block.
#[derive(Clone, Copy)]
pub enum BlockKind {
    Helper,
    Raw,
    Decorator,
    Partial,
}

impl BlockKind {
    /// Returns whether the block may have chained inverses and an inverse. A raw block may have only its end.
    pub fn admits_inverse(self) -> bool
        ensures { result ≡ admits_inverse (kind_view self) }
    {
        match self {
            BlockKind::Helper => true,
            BlockKind::Raw => false,
            BlockKind::Decorator => false,
            BlockKind::Partial => false,
        }
    }

    // Whether a close without a name ends the block.
    fn admits_no_name(self) -> bool
        ensures { result ≡ admits_no_name (kind_view self) }
    {
        match self {
            BlockKind::Helper => false,
            BlockKind::Raw => false,
            BlockKind::Decorator => true,
            BlockKind::Partial => true,
        }
    }

    // Whether a close is of the block's kind: of a raw block or of another.
    fn has_close(self, is_raw: bool) -> bool
        ensures { result ≡ has_close (kind_view self) is_raw }
    {
        match self {
            BlockKind::Helper => !is_raw,
            BlockKind::Raw => is_raw,
            BlockKind::Decorator => !is_raw,
            BlockKind::Partial => !is_raw,
        }
    }

    /// Returns whether a close of this kind, with this name, which may be empty, may end the block.
    pub fn may_end(self, is_raw: bool, name: &str) -> bool
        ensures { result ≡ may_end (kind_view self) is_raw name.now }
    {
        self.has_close(is_raw) && (self.admits_no_name() || !name.is_empty())
    }
}

/// The content of the tag of a block or of a chained inverse, and the name that closes the block.
pub struct BlockOpening {
    pub kind: BlockKind,
    pub name: Parameter,
    pub closing: String,
    pub arguments: Arguments,
    pub names: BlockNames,
    pub indent_before_write: bool,
}

impl Drop for BlockOpening {
    fn drop(self) {
        let BlockOpening {
            kind: _,
            name: _,
            closing: _,
            arguments: _,
            names: _,
            indent_before_write: _,
        } = self;
    }
}

/// A whole chained inverse.
pub struct Branch {
    pub opening: BlockOpening,
    pub elements: PositionedElements,
}

impl Drop for Branch {
    fn drop(self) {
        let Branch {
            opening: _,
            elements: _,
        } = self;
    }
}

/// The stage of an open block: in its first body, in a chained inverse, or in its inverse.
#[derive(Drop)]
pub enum Stage {
    First,
    Chained(BlockOpening),
    Inverse,
}

fn block_param(names: BlockNames) -> Option<BlockParam>
    ensures { block_param_view result ≡ names_view names }
{
    match names {
        BlockNames::Unbound => None,
        BlockNames::Bound(name) => Some(BlockParam::Single(Parameter::Name(name))),
        BlockNames::BothBound(name, other) => Some(BlockParam::Pair((
            Parameter::Name(name),
            Parameter::Name(other),
        ))),
    }
}

impl BlockOpening {
    /// Returns the block, or the chained inverse, with these elements and this inverse.
    #[inline(always)]
    pub fn block(
        self,
        elements: PositionedElements,
        inverse: Option<Template>,
        chain: bool,
    ) -> HelperTemplate
        ensures { call_view result
            ≡ block_call (opening_view self) (positioned_view elements) (body_view inverse) chain }
    {
        let BlockOpening {
            kind: _,
            name,
            closing: _,
            arguments: Arguments { params, hash },
            names,
            indent_before_write,
        } = self;
        HelperTemplate {
            name,
            params,
            hash,
            block_param: block_param(names),
            template: Some(elements.template()),
            inverse,
            block: true,
            chain,
            indent_before_write,
        }
    }

    /// Returns the decorator, or the partial with a block, with this body.
    pub fn decorator(self, body: Option<Template>) -> DecoratorTemplate
        ensures { decorator_view result ≡ decorator_with (opening_view self) (body_view body) }
    {
        let BlockOpening {
            kind: _,
            name,
            closing: _,
            arguments: Arguments { params, hash },
            names: _,
            indent_before_write,
        } = self;
        DecoratorTemplate {
            name,
            params,
            hash,
            template: body,
            indent: None,
            indent_before_write,
        }
    }
}

impl Branch {
    // The branch as the inverse of what comes before it.
    #[inline(never)]
    fn inverse(self, alloc: Global, inverse: Option<Template>) -> Result<Template, AllocError>
        ensures { IfOk result (λ t. body (tree_view t) ≡ inverse_of (branch_view self ∷ []) (body_view inverse)) }
    {
        let Branch { opening, elements } = self;
        let call = opening.block(elements, inverse, true).boxed(alloc)?;
        let mut elements = Vec::new(alloc);
        elements.push(TemplateElement::HelperBlock(call))?;
        Ok(Template {
            name: None,
            elements,
            mapping: Vec::new(alloc),
        })
    }
}

// Nests the branches, each in the inverse of the one before it, from the last to the first.
#[tactic(auto, using(crate::proofs::NestsBuilt::inverse_of_pop))]
fn nested_inverse(
    alloc: Global,
    mut branches: Vec<Branch>,
    mut inverse: Option<Template>,
) -> Result<Option<Template>, AllocError>
    ensures { IfOk result (λ t. body_view t ≡ inverse_of (map branch_view branches.items) (body_view inverse)) }
{
    'branches: while let Some(branch) = branches.pop() {
        inverse = Some(branch.inverse(alloc, inverse)?);
    }
    Ok(inverse)
}

// The call that a helper block or a raw block is.
#[inline(always)]
fn helper_call(
    alloc: Global,
    opening: BlockOpening,
    first: PositionedElements,
    branches: Vec<Branch>,
    last: Option<Template>,
) -> Result<HelperTemplate, AllocError>
    ensures { IfOk result (λ h. call_view h
        ≡ helper_call (opening_view opening) (positioned_view first) (map branch_view branches.items) (body_view last)) }
{
    let chain = !branches.is_empty();
    let inverse = nested_inverse(alloc, branches, last)?;
    Ok(opening.block(first, inverse, chain))
}

fn helper_block(
    alloc: Global,
    opening: BlockOpening,
    first: PositionedElements,
    branches: Vec<Branch>,
    last: Option<Template>,
) -> Result<TemplateElement, AllocError>
    ensures { IfOk result (λ e. element_view e
        ≡ helper_block (helper_call (opening_view opening) (positioned_view first) (map branch_view branches.items)
        (body_view last))) }
{
    let call = helper_call(alloc, opening, first, branches, last)?;
    Ok(TemplateElement::HelperBlock(call.boxed(alloc)?))
}

/// Builds the whole block from its first body, its chained inverses and its inverse, in time linear in its branches.
pub fn whole_block(
    alloc: Global,
    opening: BlockOpening,
    first: PositionedElements,
    branches: Vec<Branch>,
    last: Option<Template>,
) -> Result<TemplateElement, AllocError>
    ensures { IfOk result (λ e. element_view e
        ≡ block_of (opening_view opening) (positioned_view first) (map branch_view branches.items) (body_view last)) }
{
    match opening.kind {
        BlockKind::Helper => helper_block(alloc, opening, first, branches, last),
        BlockKind::Raw => helper_block(alloc, opening, first, branches, last),
        BlockKind::Decorator => {
            let tag = opening.decorator(Some(first.template()));
            Ok(TemplateElement::DecoratorBlock(Box::new(alloc, tag)?))
        }
        BlockKind::Partial => {
            let tag = opening.decorator(Some(first.template()));
            Ok(TemplateElement::PartialBlock(Box::new(alloc, tag)?))
        }
    }
}
