//! The tree of a template.

ghost use Rattle.std.specs.Prelude.{◌≡◌, true, false, None, IfOk, option_map};
ghost use Rattle.handlebars_template.specs.Tree.{args, empty_tree, as_name, is_value, escaped_expression, expression_call, is_helper, element_name, call_params, call_hash, call_marks};
ghost use Rattle.handlebars_template.specs.Calls.{plain_call};
ghost use Rattle.handlebars_template.specs.TreeView.{tree_view, param_view, params_view, hash_view, call_view, decorator_view, element_view, subexpression_view, spec_call, spec_decorator};

use handlebars_base::json::path::Path;
use handlebars_base::json::value::Json;
use std::alloc::{AllocError, Global};
use std::collections::BTreeMap;

/// The position at which an element begins: line and column, both counted from 1, the column in characters.
#[derive(Clone, Copy, Debug, PartialEq, Eq)]
pub struct TemplateMapping(pub usize, pub usize);

/// A template: its elements in order, and the positions of its first elements, in the same order.
#[derive(Debug, PartialEq, Drop)]
#[cycle(tree)]
pub struct Template {
    pub name: Option<String>,
    pub elements: Vec<TemplateElement>,
    pub mapping: Vec<TemplateMapping>,
}

impl Template {
    /// Creates a template with no name and no elements.
    pub fn new(alloc: Global) -> Template
        ensures { tree_view result ≡ empty_tree }
    {
        Template {
            name: None,
            elements: Vec::new(alloc),
            mapping: Vec::new(alloc),
        }
    }
}

/// A part of a template.
#[derive(Debug, PartialEq, Drop)]
#[cycle(tree)]
pub enum TemplateElement {
    RawString(String),
    HtmlExpression(Box<HelperTemplate>),
    Expression(Box<HelperTemplate>),
    HelperBlock(Box<HelperTemplate>),
    DecoratorExpression(Box<DecoratorTemplate>),
    DecoratorBlock(Box<DecoratorTemplate>),
    PartialExpression(Box<DecoratorTemplate>),
    PartialBlock(Box<DecoratorTemplate>),
    Comment(String),
}

/// A value or a helper call, with its bodies if it is a block.
#[derive(Debug, PartialEq, Drop)]
#[cycle(tree)]
pub struct HelperTemplate {
    pub name: Parameter,
    pub params: Vec<Parameter>,
    pub hash: BTreeMap<String, Parameter>,
    pub block_param: Option<BlockParam>,
    pub template: Option<Template>,
    pub inverse: Option<Template>,
    pub block: bool,
    pub chain: bool,
    pub indent_before_write: bool,
}

impl HelperTemplate {
    /// Creates the call that a tag stands for, without bodies.
    pub fn new(spec: ExpressionSpec, block: bool, indent_before_write: bool) -> HelperTemplate
        ensures { call_view result
            ≡ spec_call spec (record { block = block; chain = false; indent_before_write = indent_before_write }) }
    {
        HelperTemplate {
            name: spec.name,
            params: spec.params,
            hash: spec.hash,
            block_param: spec.block_param,
            template: None,
            inverse: None,
            block,
            chain: false,
            indent_before_write,
        }
    }

    /// Creates the call that a chained tag stands for, without bodies.
    pub fn new_chain(spec: ExpressionSpec, block: bool, indent_before_write: bool) -> HelperTemplate
        ensures { call_view result
            ≡ spec_call spec (record { block = block; chain = true; indent_before_write = indent_before_write }) }
    {
        HelperTemplate {
            chain: true,
            ..HelperTemplate::new(spec, block, indent_before_write)
        }
    }

    /// Moves the call to the heap. The result is matched, since `?` would pass the whole call on along with each result.
    #[inline(always)]
    pub(crate) fn boxed(self, alloc: Global) -> Result<Box<HelperTemplate>, AllocError>
        ensures { IfOk result (λ boxed. call_view boxed.value ≡ call_view self) }
    {
        match Box::new(alloc, self) {
            Ok(boxed) => Ok(boxed),
            Err(_) => Err(AllocError),
        }
    }

    /// Returns whether the block is chained to the block around it, or has one chained to it.
    pub fn is_chained(&self) -> bool
        ensures { result ≡ (call_marks (call_view self.now)).chain }
    {
        self.chain
    }

    /// Returns whether an expression is a name alone, without parameters and hash arguments. It is then a value, unless a
    /// helper has its name.
    pub fn is_value(&self) -> bool
        ensures { result ≡ is_value (call_view self.now) }
    {
        self.params.is_empty() && self.hash.is_empty()
    }
}

/// A decorator or a partial, with its body if it is a block.
#[derive(Debug, PartialEq, Drop)]
#[cycle(tree)]
pub struct DecoratorTemplate {
    pub name: Parameter,
    pub params: Vec<Parameter>,
    pub hash: BTreeMap<String, Parameter>,
    pub template: Option<Template>,
    pub indent: Option<String>,
    pub indent_before_write: bool,
}

impl DecoratorTemplate {
    /// Creates the decorator or partial that a tag stands for, without a body and without an indentation.
    pub fn new(spec: ExpressionSpec, indent_before_write: bool) -> DecoratorTemplate
        ensures { decorator_view result
            ≡ spec_decorator spec (record { indent = None; indent_before_write = indent_before_write }) }
    {
        DecoratorTemplate {
            name: spec.name,
            params: spec.params,
            hash: spec.hash,
            template: None,
            indent: None,
            indent_before_write,
        }
    }
}

/// The names that a block binds: one to its value, or two to its value and its index or key.
#[derive(Debug, PartialEq, Drop)]
#[cycle(tree)]
pub enum BlockParam {
    Single(Parameter),
    Pair((Parameter, Parameter)),
}

/// A name, a path, a literal or a nested call.
#[derive(Debug, PartialEq, Drop)]
#[cycle(tree)]
pub enum Parameter {
    Name(String),
    Path(Path),
    Literal(Json),
    Subexpression(Subexpression),
}

impl Parameter {
    /// Returns the text of a name or a path, as written, and `None` for a literal or a nested call.
    pub fn as_name(&self) -> Option<&str>
        ensures { option_map (λ text. text.now) result ≡ as_name (param_view self.now) }
    {
        match self {
            Parameter::Name(name) => Some(name.as_str()),
            Parameter::Path(path) => Some(path.raw()),
            Parameter::Literal(_) => None,
            Parameter::Subexpression(_) => None,
        }
    }
}

/// A call in parentheses.
#[derive(Debug, PartialEq, Drop)]
#[cycle(tree)]
pub struct Subexpression {
    pub element: Box<TemplateElement>,
}

impl Subexpression {
    /// Creates a subexpression with this name and these arguments.
    pub fn new(
        alloc: Global,
        name: Parameter,
        params: Vec<Parameter>,
        hash: BTreeMap<String, Parameter>,
    ) -> Result<Subexpression, AllocError>
        ensures { IfOk result (λ call. subexpression_view call
            ≡ escaped_expression (plain_call (param_view name) (args (params_view params.items) (hash_view hash.entries)))) }
    {
        let call = HelperTemplate {
            name,
            params,
            hash,
            block_param: None,
            template: None,
            inverse: None,
            block: false,
            chain: false,
            indent_before_write: false,
        };
        let escaped_expression = TemplateElement::Expression(call.boxed(alloc)?);
        let element = Box::new(alloc, escaped_expression)?;
        Ok(Subexpression { element })
    }

    /// Returns the element that the subexpression is.
    pub fn as_element(&self) -> &TemplateElement
        ensures { element_view result.now ≡ subexpression_view self.now }
    {
        &self.element
    }

    /// Returns whether the subexpression calls a helper: whether it is an expression with parameters or hash arguments.
    pub fn is_helper(&self) -> bool
        ensures { result ≡ is_helper (subexpression_view self.now) }
    {
        match self.escaped_expression() {
            Some(call) => !call.is_value(),
            None => false,
        }
    }

    /// Returns the text of its name, as written, if it is an expression whose name is a name or a path.
    pub fn name(&self) -> Option<&str>
        ensures { option_map (λ text. text.now) result ≡ element_name (subexpression_view self.now) }
    {
        match self.escaped_expression() {
            Some(call) => call.name.as_name(),
            None => None,
        }
    }

    /// Returns its parameters, if it is an expression.
    pub fn params(&self) -> Option<&Vec<Parameter>>
        ensures { option_map (λ params. params_view params.now.items) result
            ≡ option_map call_params (expression_call (subexpression_view self.now)) }
    {
        match self.escaped_expression() {
            Some(call) => Some(&call.params),
            None => None,
        }
    }

    /// Returns its hash arguments, if it is an expression.
    pub fn hash(&self) -> Option<&BTreeMap<String, Parameter>>
        ensures { option_map (λ hash. hash_view hash.now.entries) result
            ≡ option_map call_hash (expression_call (subexpression_view self.now)) }
    {
        match self.escaped_expression() {
            Some(call) => Some(&call.hash),
            None => None,
        }
    }

    fn escaped_expression(&self) -> Option<&HelperTemplate>
        ensures { option_map (λ call. call_view call.now) result ≡ expression_call (subexpression_view self.now) }
    {
        match self.as_element() {
            TemplateElement::Expression(call) => Some(call),
            TemplateElement::RawString(_) => None,
            TemplateElement::HtmlExpression(_) => None,
            TemplateElement::HelperBlock(_) => None,
            TemplateElement::DecoratorExpression(_) => None,
            TemplateElement::DecoratorBlock(_) => None,
            TemplateElement::PartialExpression(_) => None,
            TemplateElement::PartialBlock(_) => None,
            TemplateElement::Comment(_) => None,
        }
    }
}

/// The content of a tag between its marks.
#[derive(Debug, PartialEq, Drop)]
pub struct ExpressionSpec {
    pub name: Parameter,
    pub params: Vec<Parameter>,
    pub hash: BTreeMap<String, Parameter>,
    pub block_param: Option<BlockParam>,
    /// Whether a `~` at the start removes the white space before the tag.
    pub omit_pre_ws: bool,
    /// Whether a `~` at the end removes the white space after the tag.
    pub omit_pro_ws: bool,
}
