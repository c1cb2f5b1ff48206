//! Calls and other tags whose values are known, and what user-defined parts see of them.

ghost use Rattle.std.specs.Prelude.{◌≡◌, ◌++◌, IfOk, Some, map, option_map, string_bytes};
ghost use Rattle.std.specs.Cow.{cow_str_bytes};
ghost use Rattle.serde_json.specs.View.{view};
ghost use Rattle.handlebars_template.specs.Tree.{call_binding, decorator_args, decorator_name};
ghost use Rattle.handlebars_template.specs.TreeView.{call_view, decorator_view};
ghost use Rattle.handlebars_helpers.specs.CallView.{plain_value};
ghost use Rattle.handlebars_helpers.specs.DecoratorsView.{tag_view};
ghost use Rattle.handlebars_helpers.specs.View.{helper_view};
ghost use Rattle.handlebars_semantics.specs.Execute.{view_with_bodies};
ghost use Rattle.handlebars_semantics.specs.Inclusion.{joined_indent};
ghost use Rattle.handlebars_semantics.specs.Means.{shown_tag};
ghost use Rattle.handlebars_semantics.specs.Values.{HasView, view_without_bodies};
ghost use Rattle.handlebars_expand.specs.Boxed.{answer_of};
ghost use Rattle.handlebars_expand.specs.View.{Yields, name_alone};
ghost use Rattle.handlebars_values.specs.Judgement.{InState};
ghost use Rattle.handlebars_values.specs.ParamView.{argument_view};
ghost use Rattle.handlebars_values.specs.View.{called_view};

use crate::environment::Environment;
use crate::expand::{expand_as_name, hash_values, params_values};
use crate::param_value::{Argument, ParamValue};
use crate::passed::{arguments_passed, decorator_of, helper_in_parentheses, helper_of};
use crate::run::Run;
use handlebars_base::json::value::Json;
use handlebars_expand::boxed::BoxedError;
use handlebars_expand::registered::Registered;
use handlebars_helpers::decorators::view::Decorator;
use handlebars_helpers::view::Helper;
use handlebars_template::template::{DecoratorTemplate, HelperTemplate};
use std::alloc::{AllocError, Global};
use std::borrow::CowStr;
use std::collections::BTreeMap;

/// The name of a call or of another tag, and the values of its parameters and hash arguments.
pub struct Called<'v> {
    pub name: CowStr<'v>,
    pub params: Vec<Argument<'v>>,
    pub hash: BTreeMap<&'v str, Argument<'v>>,
}

// Implemented explicitly, so that dropping one is a single call.
impl<'v> Drop for Called<'v> {
    fn drop(self) {
        let Called {
            name: _,
            params: _,
            hash: _,
        } = self;
    }
}

impl<'v> Called<'v> {
    /// Returns a call by a name alone, with no parameters.
    pub fn alone(alloc: Global, name: CowStr<'v>) -> Called<'v>
        ensures { called_view result ≡ name_alone (cow_str_bytes name.entry) }
    {
        Called {
            name,
            params: Vec::new(alloc),
            hash: BTreeMap::new(alloc),
        }
    }

    /// Returns what a user-defined helper sees of a call, of a block or of an expression: its values and its bodies.
    ///
    /// # Errors
    ///
    /// Fails if memory runs out.
    pub fn into_helper(
        self,
        alloc: Global,
        helper: &'v HelperTemplate,
        block: bool,
    ) -> Result<Helper<'v>, AllocError>
        ensures { IfOk result (λ view. helper_view view ≡ view_with_bodies block (call_view helper.now) (called_view self.entry)) }
    {
        let Called { name, params, hash } = self;
        let passed = arguments_passed(alloc, params, hash)?;
        Ok(helper_of(name, passed, helper, block))
    }

    /// Returns what a user-defined helper sees of a call in parentheses, whose bodies count as absent.
    ///
    /// # Errors
    ///
    /// Fails if memory runs out.
    pub fn into_helper_in_parentheses(
        self,
        alloc: Global,
        helper: &'v HelperTemplate,
    ) -> Result<Helper<'v>, AllocError>
        ensures { IfOk result (λ view. helper_view view
            ≡ view_without_bodies (call_binding (call_view helper.now)) (called_view self.entry)) }
    {
        let Called { name, params, hash } = self;
        let passed = arguments_passed(alloc, params, hash)?;
        Ok(helper_in_parentheses(name, passed, helper))
    }

    /// Returns what a decorator sees of a tag: its values, its body and its indentation. The indentation is the one in force,
    /// followed by the tag's own.
    ///
    /// # Errors
    ///
    /// Fails if memory runs out.
    pub fn into_decorator(
        self,
        alloc: Global,
        in_force: Option<&str>,
        tag: &'v DecoratorTemplate,
    ) -> Result<Decorator<'v>, AllocError>
        ensures { IfOk result (λ view. tag_view view
            ≡ shown_tag (option_map (λ t. t.now) in_force.entry) (decorator_view tag.now) (called_view self.entry)) }
    {
        let indent = joined_indent(alloc, in_force, tag.indent.as_ref())?;
        let Called { name, params, hash } = self;
        let passed = arguments_passed(alloc, params, hash)?;
        Ok(decorator_of(name, passed, tag, indent))
    }

    /// Returns the call with these values before its parameters, which no text and no path of the template leads to.
    ///
    /// # Errors
    ///
    /// Fails if memory runs out.
    pub fn after(self, alloc: Global, constants: &[Json]) -> Result<Called<'v>, AllocError>
        ensures { IfOk result (λ call. called_view call ≡ record (called_view self.entry) {
          params = map plain_value (map view constants.now) ++ (called_view self.entry).params;
        }) }
    {
        let Called {
            name,
            mut params,
            hash,
        } = self;
        if constants.is_empty() {
            return Ok(Called { name, params, hash });
        }
        let mut all = plain_values(alloc, constants)?;
        all.append(&mut params)?;
        Ok(Called {
            name,
            params: all,
            hash,
        })
    }
}

// Returns copies of values, which have no text and no path in the template.
fn plain_values<'v>(alloc: Global, constants: &[Json]) -> Result<Vec<Argument<'v>>, AllocError>
    ensures { IfOk result (λ values. map argument_view values.items ≡ map plain_value (map view constants.now)) }
{
    let mut values = Vec::with_capacity(alloc, constants.len())?;
    'constants: for constant in constants {
        values.push(plain(constant.clone()?))?;
    }
    Ok(values)
}

fn plain<'v>(constant: Json) -> Argument<'v>
    ensures { argument_view result ≡ plain_value (view constant) }
{
    Argument::new(None, ParamValue::Computed(constant))
}

/// Returns the indentation in force, followed by the tag's own if there is one. If only the tag's own exists, it is borrowed.
///
/// # Errors
///
/// Fails if memory runs out.
pub fn joined_indent<'v>(
    alloc: Global,
    in_force: Option<&str>,
    tag_indent: Option<&'v String>,
) -> Result<Option<CowStr<'v>>, AllocError>
    ensures { IfOk result (λ indent. option_map cow_str_bytes indent
        ≡ joined_indent (option_map (λ t. t.now) in_force.entry) (option_map (λ t. string_bytes t.now) tag_indent.entry)) }
{
    match in_force {
        Some(outer) => Ok(Some(CowStr::Owned(after(alloc, outer, tag_indent)?))),
        None => match tag_indent {
            Some(tag_indent) => Ok(Some(CowStr::Borrowed(tag_indent.as_str()))),
            None => Ok(None),
        },
    }
}

fn after(alloc: Global, outer: &str, tag_indent: Option<&String>) -> Result<String, AllocError>
    ensures { IfOk result (λ s. Some (string_bytes s)
        ≡ joined_indent (Some outer.now) (option_map (λ t. string_bytes t.now) tag_indent.entry)) }
{
    let mut all = String::from_str(alloc, outer)?;
    if let Some(tag_indent) = tag_indent {
        all.push_str(tag_indent.as_str())?;
    }
    Ok(all)
}

/// Returns the name of the tag of a decorator or of a partial call, and the values of its parameters and hash arguments.
#[inline(always)]
pub fn called_tag<'v, P: Registered>(
    environment: &'v Environment<'v, 'v, P>,
    run: &Run,
    tag: &'v DecoratorTemplate,
) -> Result<Called<'v>, BoxedError>
    ensures { InState P.parts environment.now run.now (λ p s. Yields
        (HasView p s (decorator_name (decorator_view tag.now)) (decorator_args (decorator_view tag.now))) called_view (answer_of result)) }
{
    let name = expand_as_name(environment, run, &tag.name)?;
    let params = params_values(environment, run, &tag.params)?;
    let hash = hash_values(environment, run, &tag.hash)?;
    Ok(Called { name, params, hash })
}
