//! The call of a tag as its caller views it.

ghost use Rattle.std.specs.Prelude.{◌≡◌, IfOk, OnOk, map};
ghost use Rattle.std.specs.BTreeMap.{insert_entry};
ghost use Rattle.std.specs.Cmp.Lexicographic.{slice_cmp};
ghost use Rattle.std.specs.Ordering.{nat_cmp};
ghost use Rattle.handlebars_base.specs.PathAndData.{path_and_data};
ghost use Rattle.handlebars_base.specs.Scoped.{data_in};
ghost use Rattle.handlebars_helpers.specs.DecoratorsView.{tag_view};
ghost use Rattle.handlebars_semantics.specs.Inclusion.{hash_data};
ghost use Rattle.handlebars_values.specs.ParamView.{argument_view};
ghost use Rattle.handlebars_values.specs.View.{arguments_seen, called_view};
ghost use Rattle.handlebars_entry.specs.Entry.{HasSameData, passed_seen};

use handlebars_base::json::value::PathAndJson;
use handlebars_helpers::decorators::view::Decorator;
use handlebars_values::called::Called;
use handlebars_values::param_value::{Argument, ParamValue};
use std::alloc::{AllocError, Global};
use std::borrow::CowStr;
use std::collections::BTreeMap;

/// Returns the call of a tag of this view: its name, and the values of its parameters and hash arguments, without their texts and
/// paths. A missing value is null.
///
/// # Errors
///
/// Fails if memory runs out.
pub(crate) fn call_of<'v, 'd: 'v>(
    alloc: Global,
    view: &'v Decorator<'d>,
) -> Result<Called<'v>, AllocError>
    ensures { IfOk result (λ call. HasSameData (called_view call) (tag_view view.now).call) }
{
    Ok(Called {
        name: CowStr::Borrowed(view.name()),
        params: params_of(alloc, view.params())?,
        hash: hash_of(alloc, view.hash())?,
    })
}

fn params_of<'v, 'd: 'v>(
    alloc: Global,
    params: &'v Vec<PathAndJson<'d>>,
) -> Result<Vec<Argument<'v>>, AllocError>
    ensures { IfOk result (λ arguments. map (λ a. data_in (argument_view a).found) arguments.items
        ≡ map (λ p. data_in (path_and_data p).found) params.now.items) }
{
    let mut arguments = Vec::with_capacity(alloc, params.len())?;
    'params: for param in params.iter() {
        arguments.push(argument_of(param))?;
    }
    Ok(arguments)
}

fn hash_of<'v, 'd: 'v>(
    alloc: Global,
    hash: &'v BTreeMap<&'d str, PathAndJson<'d>>,
) -> Result<BTreeMap<&'v str, Argument<'v>>, AllocError>
    ensures { IfOk result (λ arguments. hash_data (arguments_seen arguments.entries) ≡ hash_data (passed_seen hash.now.entries)) }
{
    let mut arguments = BTreeMap::new(alloc);
    'hash: for (key, value) in hash.iter() {
        put(&mut arguments, *key, argument_of(value))?;
    }
    Ok(arguments)
}

// Puts a hash argument under its key.
fn put<'v>(
    arguments: &mut BTreeMap<&'v str, Argument<'v>>,
    key: &'v str,
    value: Argument<'v>,
) -> Result<(), AllocError>
    ensures { OnOk result (arguments.new.entries
        ≡ insert_entry (λ a b. slice_cmp nat_cmp a.now b.now) arguments.old.entries key.entry value.entry) }
{
    arguments.insert(key, value)?;
    Ok(())
}

fn argument_of<'v>(value: &'v PathAndJson<'_>) -> Argument<'v>
    ensures { data_in (argument_view result).found ≡ data_in (path_and_data value.now).found }
{
    Argument::new(None, ParamValue::Held(value.value()))
}
