//! Templates and their texts.

ghost use Rattle.std.specs.Prelude.{◌≡◌, ◌≢◌, IfErr, IfOk, None, Some, false, string_bytes, true};
ghost use Rattle.handlebars_scope.specs.Contexts.{data_of};
ghost use Rattle.handlebars_base.specs.Reasons.{TemplateRefusal};
ghost use Rattle.handlebars_template.specs.Compile.{Compiles, compiled, rejected};
ghost use Rattle.handlebars_template.specs.TreeView.{tree_view};
ghost use Rattle.handlebars_context.specs.View.{has_failed, state_of};
ghost use Rattle.hb_command.specs.Failures.{EndsWith, kind_of};
ghost use Rattle.hb.specs.Pages.{GivesNoPage, GivesPage};
ghost use Rattle.hb_command.specs.declared.failure.Kind.TheVariants.{OutOfMemory};

use crate::folders::Registered;
use crate::message::{failed_in, rejected};
use handlebars::{
    Context, RegistryOf, RenderContext, Renderable, Template, TemplateOptions, UserParts,
};
use hb_command::failure::Failure;
use log::sink::Discard;
use std::alloc::Global;

/// What messages need to name the file of an error: the folders and what is registered of them.
#[derive(Clone, Copy)]
pub struct Places<'p> {
    pub folders: &'p [&'p str],
    pub registered: &'p Registered,
}

/// Compiles a template, with no name, as a registry with these options compiles a source.
///
/// # Errors
///
/// Fails with the error of the source, at a position in the file of this path, or if memory runs out.
pub fn compile(
    alloc: Global,
    path: &str,
    source: &str,
    prevent_indent: bool,
) -> Result<Template, Failure>
    ensures ok { IfOk result (λ t. Compiles source.now
        (record { name = None; prevent_indent = prevent_indent; sections = true }) (compiled (tree_view t))) }
    ensures err { IfErr result (λ f. kind_of f ≢ OutOfMemory → (q : TemplateRefusal) × Compiles source.now
        (record { name = None; prevent_indent = prevent_indent; sections = true }) (rejected q)) }
    ensures status { IfErr result (λ f. EndsWith 1 f) }
{
    let options = TemplateOptions {
        name: None,
        prevent_indent,
    };
    match Template::compile2(alloc, source, options) {
        Ok(template) => Ok(template),
        Err(cause) => Err(rejected(alloc, path, &cause)),
    }
}

/// Returns the text of a template, rendered over data from the state of a context, with the registry's lookup, and with no
/// escaping if it is raw.
///
/// # Errors
///
/// Fails with the error of the rendering, at a position in the file of this path or in that of a registered template, or if
/// memory runs out.
pub fn text_of<E: UserParts>(
    alloc: Global,
    registry: &RegistryOf<E>,
    template: &Template,
    raw: bool,
    data: &Context,
    rc: &mut RenderContext,
    path: &str,
    places: &Places<'_>,
) -> Result<String, Failure>
    requires { has_failed rc.old ≡ false }
    ensures ok { IfOk result (λ text. GivesPage E.registered E.user registry.now (tree_view template.now) raw
        (Some (data_of «data».now)) (state_of rc.old) (string_bytes text)) }
    ensures err { IfErr result (λ f. kind_of f ≢ OutOfMemory
        → GivesNoPage E.registered E.user registry.now (tree_view template.now) raw
        (Some (data_of «data».now)) (state_of rc.old)) }
{
    rc.set_recursive_lookup(registry.recursive_lookup());
    rc.set_disable_escape(raw);
    match template.renders(alloc, registry, data, rc, &Discard) {
        Ok(text) => Ok(text),
        Err(cause) => Err(failed_in(alloc, path, places, &cause)),
    }
}
