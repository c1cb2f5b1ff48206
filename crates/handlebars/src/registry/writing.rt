//! Rendering a template to a writer.

ghost use Rattle.std.specs.Prelude.{◌≡◌, []};
ghost use Rattle.handlebars_template.specs.TreeView.{tree_view};
ghost use Rattle.handlebars_scope.specs.Contexts.{data_of};
ghost use Rattle.handlebars_semantics.specs.Means.{render_tree};
ghost use Rattle.handlebars_base.specs.declared.error.render_error.RenderError as declared;
ghost use Rattle.handlebars_expand.specs.Boxed.{error_of};
ghost use Rattle.handlebars_write.specs.View.{RefinesSteps};
ghost use Rattle.handlebars.specs.Moments.{first_moment};
ghost use Rattle.handlebars.specs.Calls.{BeginsWith, Writes, answer_by};
ghost use Rattle.handlebars.specs.Files.{tree_in};
ghost use Rattle.handlebars.specs.Over.{setting_with};
ghost use Rattle.handlebars.specs.Taken.{ReportsTaken};
ghost use Rattle.handlebars.specs.Writers.{held_by};

use crate::output::{Named, NamedOutput, WriteOutput};
use crate::registry::RegistryOf;
use crate::render::logging::Logging;
use handlebars_base::error::RenderError;
use handlebars_base::output::Output;
use handlebars_context::context::RenderContext;
use handlebars_entry::entry::render_into;
use handlebars_expand::boxed::BoxedError;
use handlebars_helpers::entries::UserParts;
use handlebars_scope::context::Context;
use handlebars_template::template::Template;
use log::Log;
use std::collections::BTreeMap;
use std::io::Write;
use std::marker::{Brand, PhantomData};

// An error as it comes. Its type is a parameter where an output names its writer: a call there can't return an error
// whose type holds a `&'static str`.
trait PlainError: Drop {
    ghost plain_error: { Self → declared.RenderError };

    fn of(error: BoxedError) -> Self
        ensures { plain_error result ≡ error_of error };
}

impl PlainError for BoxedError {
    ghost plain_error = { error_of };

    fn of(error: BoxedError) -> BoxedError {
        error
    }
}

/// Renders a template from the first state on, with the trees that were read instead of those that are registered under
/// the same names.
pub(crate) fn write_template<E: UserParts, L: Log, W: Write>(
    registry: &RegistryOf<E>,
    template: &Template,
    read: &BTreeMap<String, Template>,
    ctx: &Context,
    log: &L,
    writer: &mut W,
) -> Result<(), RenderError>
    ensures { Writes (setting_with E.registered E.user (tree_in read.now) registry.now (data_of ctx.now))
        (BeginsWith (tree_view template.now))
        (W.contents writer.old) (W.contents writer.new) result }
{
    registry.entries.satisfies_law();
    let mut rc = registry.first_context(template.name.as_ref())?;
    let (answer, out) = render_named::<E, L, W, Brand, BoxedError>(
        registry,
        template,
        read,
        ctx,
        log,
        &mut rc,
        WriteOutput::new(writer),
    );
    let WriteOutput { writer, .. } = out;
    let _writer = &*writer;
    match answer {
        Ok(()) => Ok(()),
        Err(e) => Err(e.into_error()),
    }
}

// The output that is returned is the one that was passed, whatever the rendering does with it.
fn render_named<'w, E: UserParts, L: Log, W: Write, K: Named, X: PlainError>(
    registry: &RegistryOf<E>,
    template: &Template,
    read: &BTreeMap<String, Template>,
    ctx: &Context,
    log: &L,
    rc: &mut RenderContext,
    out: WriteOutput<'w, W>,
) -> (Result<(), X>, WriteOutput<'w, W>)
    requires same { out.writer.ghost_name ≡ K.name }
    requires first { W.contents out.writer.now ≡ K.first }
    requires empty { out.taken.text ≡ [] }
    ensures same { result.1.writer.ghost_name ≡ out.entry.writer.ghost_name }
    ensures reported { ReportsTaken (W.contents out.entry.writer.now) result.1.taken.text (W.contents result.1.writer.now) }
    ensures renders { RefinesSteps (setting_with E.registered E.user (tree_in read.now) registry.now (data_of ctx.now))
        (render_tree (tree_view template.now)) (λ _. Unit {0})
        (first_moment rc.old (held_by out.entry)) (answer_by X.plain_error result.0) (first_moment rc.new (held_by result.1)) }
{
    let WriteOutput {
        writer,
        taken,
        write_errors,
    } = out;
    let mut named: NamedOutput<'w, W, K> = NamedOutput {
        writer,
        taken,
        write_errors,
        of: PhantomData,
    };
    let answer = render_to(registry, template, read, ctx, log, rc, &mut named);
    let NamedOutput {
        writer,
        taken,
        write_errors,
        of: _,
    } = named;
    let out = WriteOutput {
        writer,
        taken,
        write_errors,
    };
    (answer, out)
}

// Renders to any output.
fn render_to<E: UserParts, L: Log, O: Output, X: PlainError>(
    registry: &RegistryOf<E>,
    template: &Template,
    read: &BTreeMap<String, Template>,
    ctx: &Context,
    log: &L,
    rc: &mut RenderContext,
    out: &mut O,
) -> Result<(), X>
    ensures { RefinesSteps (setting_with E.registered E.user (tree_in read.now) registry.now (data_of ctx.now))
        (render_tree (tree_view template.now)) O.may_give
        (first_moment rc.old (O.held out.old)) (answer_by X.plain_error result) (first_moment rc.new (O.held out.new)) }
{
    let parts = &Logging {
        registry,
        read,
        log,
    };
    match render_into(template, registry.alloc, parts, ctx, rc, out) {
        Ok(()) => Ok(()),
        Err(error) => Err(X::of(error)),
    }
}
