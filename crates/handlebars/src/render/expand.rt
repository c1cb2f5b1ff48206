//! Values of parameters, for callers.

ghost use Rattle.std.specs.Prelude.{◌≡◌, IsErrAnd, OnErr, OnOk, true, false};
ghost use Rattle.std.specs.Cow.{cow_str_bytes};
ghost use Rattle.handlebars_base.specs.PathAndData.{path_and_data};
ghost use Rattle.handlebars_base.specs.Reasons.{failed};
ghost use Rattle.handlebars_base.specs.RenderRefusals.{refusal_of, plain_refusal};
ghost use Rattle.handlebars_template.specs.Tree.{Param};
ghost use Rattle.handlebars_template.specs.TreeView.{param_view};
ghost use Rattle.handlebars_semantics.specs.Values.{HasName, HasWrittenValue};
ghost use Rattle.handlebars_context.specs.View.{state_of, root_of, has_failed};
ghost use Rattle.handlebars_expand.specs.View.{Yields};
ghost use Rattle.handlebars.specs.View.{setting_of};

use crate::registry::RegistryOf;
use crate::render::logging::{Logging, NoTrees};
use handlebars_base::error::RenderError;
use handlebars_base::json::value::PathAndJson;
use handlebars_context::context::RenderContext;
use handlebars_context::failure::{fail_after, ready};
use handlebars_entry::expand;
use handlebars_helpers::entries::UserParts;
use handlebars_scope::context::Context;
use handlebars_template::template::Parameter;
use log::Log;
use std::alloc::Global;
use std::borrow::CowStr;

/// What has a value in a rendering. After an error the render context has failed: later calls with it fail with
/// `Failed`. Nothing else of it is changed.
pub trait Expand {
    // The parameter, as the definitions view it.
    ghost param: { Self → Param };

    /// Returns the value, with its path as the template writes it, if it writes one. What the data or the template owns
    /// is borrowed.
    fn expand<'rc, E: UserParts, L: Log>(
        &'rc self,
        alloc: Global,
        registry: &RegistryOf<E>,
        data: &'rc Context,
        rc: &mut RenderContext,
        log: &L,
    ) -> Result<PathAndJson<'rc>, RenderError>
        ensures expands { has_failed rc.old ≡ false → Yields
            (HasWrittenValue (setting_of E.registered E.user registry.now «data».now) (state_of rc.old) (param self.now))
            path_and_data result }
        ensures failed { has_failed rc.old ≡ true
            → IsErrAnd result (λ e. refusal_of e ≡ plain_refusal failed) × (rc.new ≡ rc.old) }
        ensures state { state_of rc.new ≡ state_of rc.old }
        ensures root { root_of rc.new ≡ root_of rc.old }
        ensures ok { OnOk result (has_failed rc.new ≡ false) }
        ensures err { OnErr result (has_failed rc.new ≡ true) };

    /// Returns the text that a helper, a decorator or a partial is called by: as written, or the text of the value.
    fn expand_as_name<'rc, E: UserParts, L: Log>(
        &'rc self,
        alloc: Global,
        registry: &RegistryOf<E>,
        data: &'rc Context,
        rc: &mut RenderContext,
        log: &L,
    ) -> Result<CowStr<'rc>, RenderError>
        ensures expands { has_failed rc.old ≡ false → Yields
            (HasName (setting_of E.registered E.user registry.now «data».now) (state_of rc.old) (param self.now))
            cow_str_bytes result }
        ensures failed { has_failed rc.old ≡ true
            → IsErrAnd result (λ e. refusal_of e ≡ plain_refusal failed) × (rc.new ≡ rc.old) }
        ensures state { state_of rc.new ≡ state_of rc.old }
        ensures root { root_of rc.new ≡ root_of rc.old }
        ensures ok { OnOk result (has_failed rc.new ≡ false) }
        ensures err { OnErr result (has_failed rc.new ≡ true) };
}

impl Expand for Parameter {
    ghost param = { param_view };

    fn expand<'rc, E: UserParts, L: Log>(
        &'rc self,
        alloc: Global,
        registry: &RegistryOf<E>,
        data: &'rc Context,
        rc: &mut RenderContext,
        log: &L,
    ) -> Result<PathAndJson<'rc>, RenderError> {
        ready(rc)?;
        let parts = &Logging {
            registry,
            read: &NoTrees,
            log,
        };
        match expand::expand(self, alloc, parts, data, rc) {
            Ok(value) => fail_after(rc, Ok(value)),
            Err(e) => fail_after(rc, Err(e.into_error())),
        }
    }

    fn expand_as_name<'rc, E: UserParts, L: Log>(
        &'rc self,
        alloc: Global,
        registry: &RegistryOf<E>,
        data: &'rc Context,
        rc: &mut RenderContext,
        log: &L,
    ) -> Result<CowStr<'rc>, RenderError> {
        ready(rc)?;
        let parts = &Logging {
            registry,
            read: &NoTrees,
            log,
        };
        match expand::expand_as_name(self, alloc, parts, data, rc) {
            Ok(name) => fail_after(rc, Ok(name)),
            Err(e) => fail_after(rc, Err(e.into_error())),
        }
    }
}
