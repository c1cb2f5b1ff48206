//! Builds the call that an expression is from its steps. The calls that are not yet closed are in a list, so that no function
//! calls itself.

ghost use Rattle.std.specs.Prelude.{◌≡◌, true, [], IfOk, OnOk, option_map, string_bytes};
ghost use Rattle.handlebars_base.specs.Path.{IsIdentifier, name_segments, raw_of, relative};
ghost use Rattle.handlebars_base.specs.PathReading.{path_of};
ghost use Rattle.handlebars_base.specs.PathView.{segments_of, reference_of};
ghost use Rattle.handlebars_expressions.specs.Expression.{Expression};
ghost use Rattle.handlebars_expressions.specs.Parameter.{Term, literal_term, path_term, name_term};
ghost use Rattle.handlebars_expressions.specs.ExpressionReading.{OpenExpression, OpenExpressions, begun_expression, add_term, opened_in, added_in, closed_in, build, first_expressions};
ghost use Rattle.handlebars_expressions.specs.ExpressionView.{key_of, event_of};
ghost use Rattle.handlebars_template.specs.Tree.{escaped_expression, subexpression};
ghost use Rattle.handlebars_template.specs.Calls.{param_of, named_param, name_before, call_with, first_rejected, expression_literals};
ghost use Rattle.handlebars_template.specs.TreeView.{param_view, arguments_view};
ghost use Rattle.handlebars_template.specs.ExpressionBuildingView.{open_view, calls_view, open_call_of, AreCallsOf, IsTaken, whole_expression, IsBuilt};

use crate::template::arguments::Arguments;
use crate::template::expression::BuiltExpression;
use crate::template::tree::{Parameter, Subexpression};
use handlebars_base::json::path::marks::all_symbols;
use handlebars_base::json::path::{Path, PathSeg, read_path};
use handlebars_base::json::value::Json;
use handlebars_expressions::expression::Event;
use handlebars_expressions::literal_value::literal_value;
use std::alloc::{AllocError, Global};
use std::mem;

/// A call that is not yet closed: the key before it, its name and its arguments so far. A path remains a path until it is
/// known whether anything follows it.
pub struct OpenCall<'a> {
    pub key: Option<&'a str>,
    pub name: Option<Parameter>,
    pub arguments: Arguments,
}

impl Drop for OpenCall<'_> {
    fn drop(self) {
        let OpenCall {
            key: _,
            name: _,
            arguments: _,
        } = self;
    }
}

/// The innermost call, those around it, the outermost first, and the first literal that was rejected.
pub struct OpenCalls<'a> {
    pub top: OpenCall<'a>,
    pub around: Vec<OpenCall<'a>>,
    pub rejected: Option<&'a str>,
}

impl Drop for OpenCalls<'_> {
    fn drop(self) {
        let OpenCalls {
            top: _,
            around: _,
            rejected: _,
        } = self;
    }
}

fn new_call<'a>(alloc: Global, key: Option<&'a str>) -> OpenCall<'a>
    ensures { open_view result ≡ open_call_of (begun_expression (key_of key.entry)) }
{
    OpenCall {
        key,
        name: None,
        arguments: Arguments::new(alloc),
    }
}

/// Creates one open call, with nothing in it. A literal that is rejected later is a slice of the text, which gives the
/// lifetime.
pub fn first_calls<'a>(alloc: Global, _text: &'a str) -> OpenCalls<'a>
    ensures { AreCallsOf first_expressions (calls_view result) }
{
    OpenCalls {
        top: new_call(alloc, None),
        around: Vec::new(alloc),
        rejected: None,
    }
}

fn key_text(alloc: Global, key: Option<&str>) -> Result<Option<String>, AllocError>
    ensures { IfOk result (λ text. option_map string_bytes text ≡ key_of key.entry) }
{
    match key {
        Some(name) => Ok(Some(String::from_str(alloc, name)?)),
        None => Ok(None),
    }
}

// The text of a path, as written.
fn written(path: Path) -> String
    ensures { string_bytes result ≡ raw_of (reference_of path) }
{
    match path {
        Path::Relative((_, raw)) => raw,
        Path::Local((_, _, raw)) => raw,
    }
}

fn named(name: Parameter) -> Parameter
    ensures { param_view result ≡ named_param (param_view name) }
{
    match name {
        Parameter::Name(text) => Parameter::Name(text),
        Parameter::Path(path) => Parameter::Name(written(path)),
        Parameter::Literal(value) => Parameter::Literal(value),
        Parameter::Subexpression(call) => Parameter::Subexpression(call),
    }
}

fn name_before(arguments: &Arguments, name: Parameter) -> Parameter
    ensures { param_view result ≡ name_before (arguments_view arguments.now) (param_view name) }
{
    if arguments.is_empty() {
        name
    } else {
        named(name)
    }
}

fn called(alloc: Global, name: Parameter, arguments: Arguments) -> Result<Parameter, AllocError>
    ensures { IfOk result (λ call. param_view call
        ≡ subexpression (escaped_expression (call_with (param_view name) (arguments_view arguments)))) }
{
    let name = name_before(&arguments, name);
    let Arguments { params, hash } = arguments;
    let call = Subexpression::new(alloc, name, params, hash)?;
    Ok(Parameter::Subexpression(call))
}

impl<'a> OpenCall<'a> {
    // The first term is the name.
    #[tactic(auto, using(crate::proofs::OpenExpressions::arguments_in_joined))]
    fn add(&mut self, key: Option<String>, value: Parameter) -> Result<(), AllocError>
        ensures { OnOk result ((expression : OpenExpression) (t : Term) → open_view self.old ≡ open_call_of expression
            → param_view value ≡ param_of t
            → open_view self.new ≡ open_call_of (add_term (option_map string_bytes key) t expression)) }
    {
        if self.name.is_some() {
            self.arguments.add(key, value)?;
        } else {
            self.name = Some(value);
        }
        Ok(())
    }

    // The call as a term of the call around it, if it has its name.
    fn term(self, alloc: Global) -> Result<Option<Parameter>, AllocError>
        ensures { IfOk result (λ call. option_map param_view call
            ≡ option_map (λ n. subexpression (escaped_expression (call_with n (arguments_view self.entry.arguments))))
            (option_map param_view self.entry.name)) }
    {
        let OpenCall {
            key: _,
            name,
            arguments,
        } = self;
        match name {
            Some(name) => Ok(Some(called(alloc, name, arguments)?)),
            None => Ok(None),
        }
    }

    // The call as the outermost call of an expression, if it has its name.
    fn expression(self, rejected: Option<&'a str>) -> Option<BuiltExpression<'a>>
        ensures { (expression : Expression) → open_view self.entry ≡ open_call_of (whole_expression expression)
            → key_of rejected.entry ≡ first_rejected (expression_literals expression) → IsBuilt expression result }
    {
        let OpenCall {
            key: _,
            name,
            arguments,
        } = self;
        let Some(name) = name else {
            return None;
        };
        let name = name_before(&arguments, name);
        Some(BuiltExpression {
            name,
            arguments,
            rejected,
        })
    }
}

// Whether a text is symbols alone, and so a path of one name.
fn is_name(raw: &str) -> bool
    ensures { result ≡ true → IsIdentifier raw.now }
{
    !raw.is_empty() && all_symbols(raw)
}

#[inline(always)]
fn name_segments(alloc: Global, name: &str) -> Result<Vec<PathSeg>, AllocError>
    ensures { IfOk result (λ segs. segments_of segs.items ≡ name_segments name.now) }
{
    if name == "this" {
        return Ok(Vec::new(alloc));
    }
    let mut segs = Vec::with_capacity(alloc, 1)?;
    segs.push(PathSeg::Named(String::from_str(alloc, name)?))?;
    Ok(segs)
}

#[inline(always)]
fn name_path(alloc: Global, name: &str) -> Result<Path, AllocError>
    ensures { IfOk result (λ path. reference_of path ≡ relative (name_segments name.now) name.now) }
{
    let raw = String::from_str(alloc, name)?;
    Ok(Path::Relative((name_segments(alloc, name)?, raw)))
}

/// Reads the whole text as a path, or returns `None`. The contract states what `read_path` does by the function that the steps
/// of expressions cite.
pub fn path_of(alloc: Global, raw: &str) -> Result<Option<Path>, AllocError>
    ensures { IfOk result (λ read. option_map reference_of read ≡ path_of raw.now) }
{
    known_path(alloc, raw, is_name(raw))
}

/// Reads the whole text as a path, or returns `None`. If `is_name` is true, the text is known to be symbols alone.
pub fn known_path(alloc: Global, raw: &str, is_name: bool) -> Result<Option<Path>, AllocError>
    requires { is_name ≡ true → IsIdentifier raw.now }
    ensures { IfOk result (λ read. option_map reference_of read ≡ path_of raw.now) }
{
    if is_name {
        return Ok(Some(name_path(alloc, raw)?));
    }
    match read_path(alloc, raw)? {
        Some(path) => Ok(Some(path)),
        None => Ok(None),
    }
}

impl<'a> OpenCalls<'a> {
    fn begin(&mut self, alloc: Global, key: Option<&'a str>) -> Result<(), AllocError>
        ensures { OnOk result ((expressions : OpenExpressions) → AreCallsOf expressions (calls_view self.old)
            → AreCallsOf (opened_in (key_of key.entry) expressions) (calls_view self.new)) }
    {
        let outer = mem::replace(&mut self.top, new_call(alloc, key));
        self.around.push(outer)?;
        Ok(())
    }

    // Closes the innermost call. Returns whether there is one to close, and one around it.
    fn close(&mut self, alloc: Global) -> Result<bool, AllocError>
        ensures { IfOk result (λ taken. (expressions : OpenExpressions) → AreCallsOf expressions (calls_view self.old)
            → IsTaken (closed_in expressions.top expressions.around) taken (calls_view self.new)) }
    {
        let Some(outer) = self.around.pop() else {
            return Ok(false);
        };
        let inner = mem::replace(&mut self.top, outer);
        let key = key_text(alloc, inner.key)?;
        let Some(call) = inner.term(alloc)? else {
            return Ok(false);
        };
        self.top.add(key, call)?;
        Ok(true)
    }

    // A literal that is rejected is added as null. Only the first one that is rejected is recorded.
    fn add_literal(
        &mut self,
        alloc: Global,
        key: Option<&str>,
        raw: &'a str,
    ) -> Result<(), AllocError>
        ensures { OnOk result ((expressions : OpenExpressions) → AreCallsOf expressions (calls_view self.old)
            → AreCallsOf (added_in (key_of key.entry) (literal_term raw.now) expressions) (calls_view self.new)) }
    {
        let key = key_text(alloc, key)?;
        match literal_value(alloc, raw)? {
            Some(value) => self.top.add(key, Parameter::Literal(value)),
            None => {
                self.rejected = Some(self.rejected.unwrap_or(raw));
                self.top.add(key, Parameter::Literal(Json::Null))
            }
        }
    }

    // Adds a path. Returns whether the text is one.
    fn add_path(&mut self, alloc: Global, key: Option<&str>, raw: &str) -> Result<bool, AllocError>
        ensures { IfOk result (λ taken. (expressions : OpenExpressions) → AreCallsOf expressions (calls_view self.old)
            → IsTaken (option_map (λ means. added_in (key_of key.entry) (path_term means) expressions) (path_of raw.now)) taken
            (calls_view self.new)) }
    {
        let key = key_text(alloc, key)?;
        let Some(path) = path_of(alloc, raw)? else {
            return Ok(false);
        };
        self.top.add(key, Parameter::Path(path))?;
        Ok(true)
    }

    // Adds a name that is no path, without a key.
    fn add_name(&mut self, alloc: Global, raw: &str) -> Result<(), AllocError>
        ensures { OnOk result ((expressions : OpenExpressions) → AreCallsOf expressions (calls_view self.old)
            → AreCallsOf (added_in None (name_term raw.now) expressions) (calls_view self.new)) }
    {
        let name = Parameter::Name(String::from_str(alloc, raw)?);
        self.top.add(None, name)
    }

    /// Takes a step, and returns whether that was possible.
    pub fn take(&mut self, alloc: Global, event: Event<'a>) -> Result<bool, AllocError>
        ensures { IfOk result (λ taken. (expressions : OpenExpressions) → AreCallsOf expressions (calls_view self.old)
            → IsTaken (build expressions (event_of event.entry)) taken (calls_view self.new)) }
    {
        match event {
            Event::Opened(key, _) => {
                self.begin(alloc, key)?;
                Ok(true)
            }
            Event::Literal(key, raw, _) => {
                self.add_literal(alloc, key, raw)?;
                Ok(true)
            }
            Event::Path(key, raw, _) => self.add_path(alloc, key, raw),
            Event::Name(raw) => {
                self.add_name(alloc, raw)?;
                Ok(true)
            }
            Event::Closed => self.close(alloc),
        }
    }

    /// Returns the expression of the innermost call, if it has its name.
    pub fn finish(self) -> Option<BuiltExpression<'a>>
        ensures { (expression : Expression) → AreCallsOf (record { top = whole_expression expression; around = [] }) (calls_view self.entry)
            → IsBuilt expression result }
    {
        let OpenCalls {
            top,
            around: _,
            rejected,
        } = self;
        top.expression(rejected)
    }
}
