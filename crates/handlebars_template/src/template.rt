//! The tree of a template, and the compilation of a source to it.

mod arguments;
mod build;
mod chain;
mod compile;
mod copy;
mod expression;
mod nest;
mod parameter;
mod position;
mod positioned;
mod scan;
mod tags;
mod tree;

pub use compile::TemplateOptions;
pub use tree::{
    BlockParam, DecoratorTemplate, ExpressionSpec, HelperTemplate, Parameter, Subexpression,
    Template, TemplateElement, TemplateMapping,
};
