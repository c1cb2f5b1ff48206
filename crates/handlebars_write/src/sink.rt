//! Where a rendering writes: an output, or what is rendered ahead.

use handlebars_expand::ahead::Ahead;
use std::marker::PhantomData;

/// Where a rendering writes: to the output, in an output mode, or to what is rendered ahead for partial blocks. So the cycle of
/// rendering has one type of output.
#[derive(Drop)]
pub enum Sink<'o, O, T> {
    Out(&'o mut O, PhantomData<T>),
    Ahead(&'o mut Ahead),
}
