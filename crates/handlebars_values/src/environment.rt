//! What a run reads, and what holds within an inclusion.

use crate::null::Null;
use handlebars_expand::ahead::Captured;
use handlebars_layers::innermost::Innermost;
use handlebars_write::location::{IterationsAround, Placement};
use std::alloc::Global;

/// What an element is rendered with.
#[derive(Drop)]
pub struct Environment<'r, 'a, P> {
    /// What is constant within the inclusion around the element.
    pub inclusion: &'r Inclusion<'r, P>,
    /// The scope frames, and the given data.
    pub innermost: Innermost<'r, 'a>,
    /// The iterations around the element.
    pub iterations: &'r IterationsAround<'r>,
}

/// What is constant in a run, and what is constant within an inclusion.
#[derive(Drop)]
pub struct Inclusion<'r, P> {
    pub alloc: Global,
    pub parts: &'r P,
    /// The null that is borrowed where a value is missing.
    pub null: &'r Null,
    /// How many inclusions are being rendered.
    pub inclusions: u16,
    /// What is captured for partial blocks, if anything is.
    pub captured: Option<&'r Captured>,
    /// The indentation in force, and the template that contains the elements.
    pub placement: Placement<'r>,
}
