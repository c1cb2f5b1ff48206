//! What user-defined parts are passed of a call: parameters and hash arguments that own their paths.

ghost use Rattle.std.specs.Prelude.{◌≡◌, IfOk, OnOk, map, option_map};
ghost use Rattle.std.specs.BTreeMap.{insert_entry};
ghost use Rattle.std.specs.Cmp.Lexicographic.{slice_cmp};
ghost use Rattle.std.specs.Cow.{cow_str_bytes};
ghost use Rattle.std.specs.Ordering.{nat_cmp};
ghost use Rattle.handlebars_base.specs.Bytes.{Text};
ghost use Rattle.handlebars_base.specs.PathAndData.{path_and_data};
ghost use Rattle.handlebars_template.specs.Tree.{call_binding, decorator_body};
ghost use Rattle.handlebars_template.specs.TreeView.{call_view, decorator_view};
ghost use Rattle.handlebars_helpers.specs.DecoratorsView.{tag_view};
ghost use Rattle.handlebars_helpers.specs.View.{helper_view};
ghost use Rattle.handlebars_semantics.specs.Execute.{view_with_bodies};
ghost use Rattle.handlebars_semantics.specs.Values.{view_without_bodies};
ghost use Rattle.handlebars_values.specs.ParamView.{argument_view};
ghost use Rattle.handlebars_values.specs.Passed.{call_of, passed_view};
ghost use Rattle.handlebars_values.specs.View.{arguments_seen};

use crate::param_value::Argument;
use handlebars_base::json::value::PathAndJson;
use handlebars_helpers::decorators::view::Decorator;
use handlebars_helpers::view::Helper;
use handlebars_template::template::{DecoratorTemplate, HelperTemplate};
use std::alloc::{AllocError, Global};
use std::borrow::CowStr;
use std::collections::BTreeMap;

/// What a user-defined part is passed of parameters and hash arguments.
#[derive(Drop)]
pub(crate) struct Passed<'v> {
    params: Vec<PathAndJson<'v>>,
    hash: BTreeMap<&'v str, PathAndJson<'v>>,
}

/// Converts parameters and hash arguments into what a user-defined part is passed.
///
/// # Errors
///
/// Fails if memory runs out.
pub(crate) fn arguments_passed<'v>(
    alloc: Global,
    params: Vec<Argument<'v>>,
    hash: BTreeMap<&'v str, Argument<'v>>,
) -> Result<Passed<'v>, AllocError>
    ensures { (name : Text) → IfOk result (λ passed. passed_view name passed
        ≡ call_of name (map argument_view params.entry.items) (arguments_seen hash.entry.entries)) }
{
    let params = params_passed(alloc, params)?;
    let hash = hash_passed(alloc, hash)?;
    Ok(Passed { params, hash })
}

fn params_passed<'v>(
    alloc: Global,
    params: Vec<Argument<'v>>,
) -> Result<Vec<PathAndJson<'v>>, AllocError>
    ensures { IfOk result (λ passed. map path_and_data passed.items ≡ map argument_view params.entry.items) }
{
    let mut passed = Vec::with_capacity(alloc, params.len())?;
    'params: for param in params {
        passed.push(param.into_path_and_json(alloc)?)?;
    }
    Ok(passed)
}

fn hash_passed<'v>(
    alloc: Global,
    hash: BTreeMap<&'v str, Argument<'v>>,
) -> Result<BTreeMap<&'v str, PathAndJson<'v>>, AllocError>
    ensures { IfOk result (λ passed. map (λ h. (h.0.now, path_and_data h.1)) passed.entries ≡ arguments_seen hash.entry.entries) }
{
    let mut passed = BTreeMap::new(alloc);
    'hash: for (key, value) in hash {
        pass(&mut passed, key, value.into_path_and_json(alloc)?)?;
    }
    Ok(passed)
}

// Puts a hash argument under its key.
fn pass<'v>(
    passed: &mut BTreeMap<&'v str, PathAndJson<'v>>,
    key: &'v str,
    value: PathAndJson<'v>,
) -> Result<(), AllocError>
    ensures { OnOk result (passed.new.entries
        ≡ insert_entry (λ a b. slice_cmp nat_cmp a.now b.now) passed.old.entries key.entry value.entry) }
{
    passed.insert(key, value)?;
    Ok(())
}

/// Returns what a helper sees of a call of these parts, of a block or of an expression: its values and its bodies.
pub(crate) fn helper_of<'v>(
    name: CowStr<'v>,
    passed: Passed<'v>,
    helper: &'v HelperTemplate,
    block: bool,
) -> Helper<'v>
    ensures { helper_view result ≡ view_with_bodies block (call_view helper.now) (passed_view (cow_str_bytes name.entry) passed.entry) }
{
    let Passed { params, hash } = passed;
    Helper::new(
        name,
        params,
        hash,
        helper.template.as_ref(),
        helper.inverse.as_ref(),
        helper.block_param.as_ref(),
        block,
    )
}

/// Returns what a helper sees of a call of these parts in parentheses, whose bodies count as absent.
pub(crate) fn helper_in_parentheses<'v>(
    name: CowStr<'v>,
    passed: Passed<'v>,
    helper: &'v HelperTemplate,
) -> Helper<'v>
    ensures { helper_view result
        ≡ view_without_bodies (call_binding (call_view helper.now)) (passed_view (cow_str_bytes name.entry) passed.entry) }
{
    let Passed { params, hash } = passed;
    Helper::new(
        name,
        params,
        hash,
        None,
        None,
        helper.block_param.as_ref(),
        false,
    )
}

/// Returns what a decorator sees of a tag of these parts, under this indentation.
pub(crate) fn decorator_of<'v>(
    name: CowStr<'v>,
    passed: Passed<'v>,
    tag: &'v DecoratorTemplate,
    indent: Option<CowStr<'v>>,
) -> Decorator<'v>
    ensures { tag_view result ≡ record {
      call = passed_view (cow_str_bytes name.entry) passed.entry;
      body = decorator_body (decorator_view tag.now);
      indent = option_map cow_str_bytes indent.entry;
    } }
{
    let Passed { params, hash } = passed;
    Decorator::new(name, params, hash, tag.template.as_ref(), indent)
}
