//! The open blocks, and how each element and tag changes them.

ghost use Rattle.std.specs.Prelude.{◌≡◌, ◌+◌, ◌<◌, ◌∷◌, ◌++◌, suc, ℕ, [], None, Some, Option, IfOk, OnOk, if◌then◌else◌, nat_lt, option_map};
ghost use Rattle.std.specs.Option.{option_or};
ghost use Rattle.handlebars_base.specs.Bytes.{Text};
ghost use Rattle.handlebars_lexer.specs.Options.{Options};
ghost use Rattle.handlebars_template.specs.Position.{Position};
ghost use Rattle.handlebars_template.specs.Tree.{Element};
ghost use Rattle.handlebars_template.specs.Calls.{max_nesting};
ghost use Rattle.handlebars_template.specs.TreeView.{element_view, position_of};
ghost use Rattle.handlebars_template.specs.Nest.{Opening, leaf, opens, inverts, chains, closes, mismatched, no_value, names_and_literals, may_close, takes_inverse};
ghost use Rattle.handlebars_template.specs.Machine.{is_in_inverse, without_elements, closed_block, new_open_block, next_stage};
ghost use Rattle.handlebars_template.specs.NestView.{positioned_view, kind_view, opening_view, stage_view, open_block_view, open_blocks, late_view, late_of, early, Looks, AppliesPiece};
ghost use Rattle.handlebars_template.specs.ScanView.{compilation_at_end, nested_outcome};

use crate::template::chain::{BlockKind, BlockOpening, Branch, Stage, whole_block};
use crate::template::expression::MAX_NESTING;
use crate::template::positioned::PositionedElements;
use crate::template::tree::{TemplateElement, TemplateMapping};
use std::alloc::{AllocError, Global};
use std::mem;

/// An open block: its position, the content of its tag, how many levels are open around it, its first body and its whole
/// chained inverses, its stage, and the elements before it.
pub struct OpenBlock {
    pub position: TemplateMapping,
    pub opening: BlockOpening,
    pub around: usize,
    pub first: PositionedElements,
    pub branches: Vec<Branch>,
    pub stage: Stage,
    pub outside: PositionedElements,
}

impl Drop for OpenBlock {
    fn drop(self) {
        let OpenBlock {
            position: _,
            opening: _,
            around: _,
            first: _,
            branches: _,
            stage: _,
            outside: _,
        } = self;
    }
}

/// The reason why a tag is not allowed at its position.
#[derive(Clone, Copy)]
pub enum SyntaxError {
    Unexpected,
    TooDeep,
}

/// An error that is reported only if the whole source nests: a literal, by its text; or a close by another name, with the
/// kind of block that it closes, the name that would close it, the name of the close, and its position.
#[derive(Drop)]
pub enum Late {
    NoValue(String),
    Mismatched(BlockKind, String, String, TemplateMapping),
}

/// The state at the end of a source: its elements, the position of the innermost open block, or a late error.
#[derive(Drop)]
pub enum Nested {
    Whole(PositionedElements),
    NotClosed(TemplateMapping),
    Late(Late),
}

/// The state of the nesting: how many levels are open, the open blocks, the outermost first, the elements of the innermost,
/// and the first late error. A chained inverse counts as an open level too.
pub struct Nesting {
    pub depth: usize,
    pub stack: Vec<OpenBlock>,
    pub elements: PositionedElements,
    pub late: Option<Late>,
}

impl Drop for Nesting {
    fn drop(self) {
        let Nesting {
            depth: _,
            stack: _,
            elements: _,
            late: _,
        } = self;
    }
}

// Whether this many levels are too many, with others open around them.
fn is_too_deep(around: usize, number: usize) -> bool
    ensures { result ≡ nat_lt max_nesting (around + number) }
{
    around > MAX_NESTING || number > MAX_NESTING - around
}

// Whether this many levels are too many inside one more block, with others open around it.
fn is_too_deep_inside(around: usize, number: usize) -> bool
    ensures { result ≡ nat_lt max_nesting (around + suc number) }
{
    around >= MAX_NESTING || number >= MAX_NESTING - around
}

// One level more, if one more may be open.
fn one_more(depth: usize) -> usize
    ensures { depth < max_nesting → result ≡ suc depth }
{
    if depth < MAX_NESTING {
        depth + 1
    } else {
        depth
    }
}

// Whether a close by this name closes a block that this text closes.
fn may_close(opened: &str, name: &str) -> bool
    ensures { result ≡ may_close names_and_literals opened.now name.now }
{
    name.is_empty() || opened == name
}

// The late error of a close, if its name is another.
fn name_error(
    alloc: Global,
    kind: BlockKind,
    opened: &str,
    name: &str,
    position: TemplateMapping,
) -> Result<Option<Late>, AllocError>
    ensures { IfOk result (λ late. late_view late
        ≡ if may_close names_and_literals opened.now name.now
        then None
        else Some (mismatched (kind_view kind) opened.now name.now (position_of position))) }
{
    if may_close(opened, name) {
        return Ok(None);
    }
    let opened = String::from_str(alloc, opened)?;
    let name = String::from_str(alloc, name)?;
    Ok(Some(Late::Mismatched(kind, opened, name, position)))
}

fn is_in_inverse(stage: &Stage) -> bool
    ensures { result ≡ is_in_inverse (stage_view stage.now) }
{
    match stage {
        Stage::First => false,
        Stage::Chained(_) => false,
        Stage::Inverse => true,
    }
}

impl OpenBlock {
    fn new(
        alloc: Global,
        position: TemplateMapping,
        opening: BlockOpening,
        around: usize,
        outside: PositionedElements,
    ) -> OpenBlock
        ensures { open_block_view result
            ≡ new_open_block (position_of position) (opening_view opening) around (positioned_view outside) }
    {
        OpenBlock {
            position,
            opening,
            around,
            first: PositionedElements::new(alloc),
            branches: Vec::new(alloc),
            stage: Stage::First,
            outside,
        }
    }

    // Whether an inverse, chained or not, may come next.
    fn takes_inverse(&self) -> bool
        ensures { result ≡ takes_inverse (without_elements (open_block_view self.now)) }
    {
        !is_in_inverse(&self.stage) && self.opening.kind.admits_inverse()
    }

    // Enters the next stage.
    fn enter(&mut self, elements: PositionedElements, next: Stage) -> Result<(), AllocError>
        ensures { OnOk result (open_block_view self.new
            ≡ next_stage (open_block_view self.old) (positioned_view elements) (stage_view next)) }
    {
        match mem::replace(&mut self.stage, next) {
            Stage::First => {
                self.first = elements;
                Ok(())
            }
            Stage::Chained(opening) => {
                self.branches.push(Branch { opening, elements })?;
                Ok(())
            }
            Stage::Inverse => Ok(()),
        }
    }

    // The whole block, when its close comes.
    fn closed(
        self,
        alloc: Global,
        elements: PositionedElements,
    ) -> Result<TemplateElement, AllocError>
        ensures { IfOk result (λ e. element_view e ≡ (closed_block (open_block_view self) (positioned_view elements)).element) }
    {
        let OpenBlock {
            position: _,
            opening,
            around: _,
            first,
            mut branches,
            stage,
            outside: _,
        } = self;
        match stage {
            Stage::First => whole_block(alloc, opening, elements, branches, None),
            Stage::Chained(last) => {
                branches.push(Branch {
                    opening: last,
                    elements,
                })?;
                whole_block(alloc, opening, first, branches, None)
            }
            Stage::Inverse => {
                whole_block(alloc, opening, first, branches, Some(elements.template()))
            }
        }
    }

    // Appends the whole block, at its position, to the elements outside.
    fn end(
        self,
        alloc: Global,
        elements: PositionedElements,
        outside: &mut PositionedElements,
    ) -> Result<(), AllocError>
        ensures { OnOk result (positioned_view outside.new
            ≡ positioned_view outside.old ++ closed_block (open_block_view self) (positioned_view elements) ∷ []) }
    {
        let at = self.position;
        let element = self.closed(alloc, elements)?;
        outside.push(at, element)
    }
}

#[tactic(auto, using(crate::proofs::NestsBuilt::stack_view_push))]
impl Nesting {
    /// Creates the state with no open block and no elements.
    pub fn new(alloc: Global) -> Nesting
        ensures depth { result.depth ≡ 0 }
        ensures open_blocks { open_blocks result ≡ [] }
        ensures elements { positioned_view result.elements ≡ [] }
        ensures late { late_of result ≡ None }
    {
        Nesting {
            depth: 0,
            stack: Vec::new(alloc),
            elements: PositionedElements::new(alloc),
            late: None,
        }
    }

    /// Checks whether an element may come next, with this many parentheses and brackets open in its tag. Returns the error,
    /// if there is one.
    pub fn look_at_leaf(&self, number: usize) -> Option<SyntaxError>
        ensures { (p : Position) (e : Element) (r : Option Text)
            → Looks p (early self.now (leaf p e number r)) result }
    {
        if is_too_deep(self.depth, number) {
            Some(SyntaxError::TooDeep)
        } else {
            None
        }
    }

    /// Checks whether a block may open next. Returns the error, if there is one.
    pub fn look_at_opening(&self, number: usize) -> Option<SyntaxError>
        ensures { (p : Position) (o : Opening) (r : Option Text)
            → Looks p (early self.now (opens p o number r)) result }
    {
        if is_too_deep_inside(self.depth, number) {
            Some(SyntaxError::TooDeep)
        } else {
            None
        }
    }

    /// Checks whether an inverse may come next. Returns the error, if there is one.
    pub fn look_at_inverse(&self) -> Option<SyntaxError>
        ensures { (p : Position) → Looks p (early self.now (inverts p)) result }
    {
        let Some(block) = self.stack.last() else {
            return Some(SyntaxError::Unexpected);
        };
        if block.takes_inverse() {
            None
        } else {
            Some(SyntaxError::Unexpected)
        }
    }

    /// Checks whether a chained inverse may come next. Returns the error, if there is one.
    pub fn look_at_chained(&self, number: usize) -> Option<SyntaxError>
        ensures { (p : Position) (o : Opening) (r : Option Text)
            → Looks p (early self.now (chains p o number r)) result }
    {
        let misplaced = self.look_at_inverse();
        let deep = self.look_at_opening(number);
        misplaced.or(deep)
    }

    /// Checks whether a close may come next: one of the innermost block's kind, with any name, or without one if such a
    /// close may end the block. Returns the error, if there is one.
    pub fn look_at_close(&self, is_raw: bool, name: &str) -> Option<SyntaxError>
        ensures { (p : Position) → Looks p (early self.now (closes p is_raw name.now)) result }
    {
        let Some(block) = self.stack.last() else {
            return Some(SyntaxError::Unexpected);
        };
        if block.opening.kind.may_end(is_raw, name) {
            None
        } else {
            Some(SyntaxError::Unexpected)
        }
    }

    // Records a late error, unless one is recorded already: the first one counts.
    #[inline(never)]
    fn record_late(&mut self, late: Option<Late>)
        ensures late { late_of self.new ≡ option_or (late_of self.old) (late_view late) }
        ensures depth { self.new.depth ≡ self.old.depth }
        ensures open_blocks { open_blocks self.new ≡ open_blocks self.old }
        ensures elements { positioned_view self.new.elements ≡ positioned_view self.old.elements }
    {
        if self.late.is_none() {
            self.late = late;
        }
    }

    // Records the late error of a literal that is rejected, if there is one.
    fn record_literal(&mut self, alloc: Global, rejected: Option<&str>) -> Result<(), AllocError>
        ensures late { OnOk result (late_of self.new
            ≡ option_or (late_of self.old) (option_map no_value (option_map (λ t. t.now) rejected.entry))) }
        ensures depth { OnOk result (self.new.depth ≡ self.old.depth) }
        ensures open_blocks { OnOk result (open_blocks self.new ≡ open_blocks self.old) }
        ensures elements { OnOk result (positioned_view self.new.elements ≡ positioned_view self.old.elements) }
    {
        match rejected {
            Some(raw) => {
                let raw = String::from_str(alloc, raw)?;
                self.record_late(Some(Late::NoValue(raw)));
                Ok(())
            }
            None => Ok(()),
        }
    }

    /// Adds an element with its position.
    #[inline(always)]
    pub fn add(
        &mut self,
        alloc: Global,
        position: TemplateMapping,
        element: TemplateElement,
        rejected: Option<&str>,
    ) -> Result<(), AllocError>
        ensures { OnOk result ((n : ℕ)
            → AppliesPiece self.old (leaf (position_of position) (element_view element) n (option_map (λ t. t.now) rejected.entry))
            self.new) }
    {
        self.elements.push(position, element)?;
        self.record_literal(alloc, rejected)
    }

    /// Opens a block.
    pub fn begin(
        &mut self,
        alloc: Global,
        position: TemplateMapping,
        opening: BlockOpening,
        rejected: Option<&str>,
    ) -> Result<(), AllocError>
        ensures { OnOk result ((n : ℕ)
            → AppliesPiece self.old (opens (position_of position) (opening_view opening) n (option_map (λ t. t.now) rejected.entry))
            self.new) }
    {
        let outside = mem::replace(&mut self.elements, PositionedElements::new(alloc));
        let around = self.depth;
        self.stack
            .push(OpenBlock::new(alloc, position, opening, around, outside))?;
        self.depth = one_more(around);
        self.record_literal(alloc, rejected)?;
        Ok(())
    }

    /// Begins the inverse of the innermost block.
    #[inline(never)]
    pub fn invert(&mut self, alloc: Global, position: TemplateMapping) -> Result<(), AllocError>
        ensures { OnOk result (AppliesPiece self.old (inverts (position_of position)) self.new) }
    {
        let Some(mut block) = self.stack.pop() else {
            return Ok(());
        };
        let elements = mem::replace(&mut self.elements, PositionedElements::new(alloc));
        block.enter(elements, Stage::Inverse)?;
        self.stack.push(block)?;
        Ok(())
    }

    /// Begins a chained inverse of the innermost block.
    pub fn chain(
        &mut self,
        alloc: Global,
        position: TemplateMapping,
        opening: BlockOpening,
        rejected: Option<&str>,
    ) -> Result<(), AllocError>
        ensures { OnOk result ((n : ℕ)
            → AppliesPiece self.old (chains (position_of position) (opening_view opening) n (option_map (λ t. t.now) rejected.entry))
            self.new) }
    {
        let Some(mut block) = self.stack.pop() else {
            return Ok(());
        };
        let elements = mem::replace(&mut self.elements, PositionedElements::new(alloc));
        block.enter(elements, Stage::Chained(opening))?;
        self.stack.push(block)?;
        self.depth = one_more(self.depth);
        self.record_literal(alloc, rejected)?;
        Ok(())
    }

    /// Closes the innermost block, by a close of this name, which is the close of a raw block or not.
    pub fn close(
        &mut self,
        alloc: Global,
        position: TemplateMapping,
        is_raw: bool,
        name: &str,
    ) -> Result<(), AllocError>
        ensures { OnOk result (AppliesPiece self.old (closes (position_of position) is_raw name.now) self.new) }
    {
        let Some(mut block) = self.stack.pop() else {
            return Ok(());
        };
        let opening = &block.opening;
        self.record_late(name_error(
            alloc,
            opening.kind,
            opening.closing.as_str(),
            name,
            position,
        )?);
        self.depth = block.around;
        let outside = mem::replace(&mut block.outside, PositionedElements::new(alloc));
        let elements = mem::replace(&mut self.elements, outside);
        block.end(alloc, elements, &mut self.elements)
    }

    /// Returns the state at the end of the source.
    pub fn finish(self) -> Nested
        ensures { (options : Options) → nested_outcome options result
            ≡ compilation_at_end options (open_blocks self) (late_of self) (positioned_view self.elements) }
    {
        let Nesting {
            depth: _,
            mut stack,
            elements,
            late,
        } = self;
        if let Some(block) = stack.pop() {
            return Nested::NotClosed(block.position);
        }
        match late {
            Some(late) => Nested::Late(late),
            None => Nested::Whole(elements),
        }
    }
}
