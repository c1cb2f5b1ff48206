//! Rendering a template to an output that is given each piece.

ghost use Rattle.handlebars_template.specs.TreeView.{tree_view};
ghost use Rattle.handlebars_scope.specs.Contexts.{data_of};
ghost use Rattle.handlebars.specs.Calls.{BeginsWith};
ghost use Rattle.handlebars.specs.Files.{tree_in};
ghost use Rattle.handlebars.specs.Over.{setting_with};
ghost use Rattle.handlebars.specs.PieceCalls.{EmitsPieces};

use crate::registry::RegistryOf;
use crate::render::logging::Logging;
use handlebars_base::error::RenderError;
use handlebars_entry::entry::render_pieces_into;
use handlebars_expand::pieces::PieceOutput;
use handlebars_helpers::entries::UserParts;
use handlebars_scope::context::Context;
use handlebars_template::template::Template;
use log::Log;
use std::collections::BTreeMap;

/// Renders a template from the first state on, with the trees that were read instead of those that are registered under
/// the same names, and emits each piece to the output.
pub(crate) fn emit_template<E: UserParts, L: Log, O: PieceOutput>(
    registry: &RegistryOf<E>,
    template: &Template,
    read: &BTreeMap<String, Template>,
    ctx: &Context,
    log: &L,
    out: &mut O,
) -> Result<(), RenderError>
    ensures { EmitsPieces (setting_with E.registered E.user (tree_in read.now) registry.now (data_of ctx.now))
        (BeginsWith (tree_view template.now)) O.may_give (O.received out.old) (O.received out.new) result }
{
    registry.entries.satisfies_law();
    let mut rc = registry.first_context(template.name.as_ref())?;
    let parts = &Logging {
        registry,
        read,
        log,
    };
    match render_pieces_into(template, registry.alloc, parts, ctx, &mut rc, out) {
        Ok(()) => Ok(()),
        Err(e) => Err(e.into_error()),
    }
}
