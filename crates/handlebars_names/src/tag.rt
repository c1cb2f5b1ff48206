//! What is wrong with the tags of inline partials.

ghost use Rattle.std.specs.Prelude.{OnOk, option_map};
ghost use Rattle.handlebars_helpers.specs.DecoratorsView.{decorator_called};
ghost use Rattle.handlebars_template.specs.TreeView.{body_view, decorator_view, param_view};
ghost use Rattle.handlebars_html.specs.Rule.{written_name};
ghost use Rattle.handlebars_names.specs.NamesView.{AddsFindings, faults_in, names_at};
ghost use Rattle.handlebars_names.specs.Whys as whys;

use crate::args::check_args;
use crate::fault::Finding;
use crate::known::Known;
use crate::location::{Cause, Location, push_fault};
use handlebars_base::json::value::JsonRender;
use handlebars_helpers::decorators::DecoratorKind;
use handlebars_helpers::entries::UserParts;
use handlebars_html::inclusion::inline_name;
use handlebars_template::template::{DecoratorTemplate, Parameter, Template};
use std::alloc::AllocError;

fn check_inline(
    name: Option<&str>,
    body: &Option<Template>,
    known: Known<'_, '_>,
    location: Location<'_>,
    findings: &mut Vec<Finding<'_>>,
) -> Result<(), AllocError>
    ensures { OnOk result (AddsFindings findings.old.items findings.new.items
        (faults_in location.entry (whys.whys_of_inline (option_map (λ s. s.now) name.entry) (body_view body.now)))) }
{
    match (name, body) {
        (None, _) => push_fault(known.alloc, location, Cause::UnnamedInline, findings),
        (Some(name), None) => push_fault(known.alloc, location, Cause::EmptyInline(name), findings),
        (Some(_), Some(_)) => Ok(()),
    }
}

fn check_kind(
    kind: Option<DecoratorKind>,
    name: &str,
    inline: Option<&str>,
    body: &Option<Template>,
    known: Known<'_, '_>,
    location: Location<'_>,
    findings: &mut Vec<Finding<'_>>,
) -> Result<(), AllocError>
    ensures { OnOk result (AddsFindings findings.old.items findings.new.items
        (faults_in location.entry (whys.whys_of_kind (option_map (decorator_called name.now) kind) name.now
        (option_map (λ s. s.now) inline.entry) (body_view body.now)))) }
{
    match kind {
        Some(DecoratorKind::Inline) => check_inline(inline, body, known, location, findings),
        Some(DecoratorKind::User) => {
            push_fault(known.alloc, location, Cause::OtherDecorator(name), findings)
        }
        None => push_fault(known.alloc, location, Cause::OtherDecorator(name), findings),
    }
}

fn check_decorator<E: UserParts>(
    name: &str,
    inline: Option<&str>,
    body: &Option<Template>,
    entries: &E,
    known: Known<'_, '_>,
    location: Location<'_>,
    findings: &mut Vec<Finding<'_>>,
) -> Result<(), AllocError>
    ensures { OnOk result (AddsFindings findings.old.items findings.new.items
        (faults_in location.entry (whys.whys_of_kind ((E.registered entries.now).decorator name.now) name.now
        (option_map (λ s. s.now) inline.entry) (body_view body.now)))) }
{
    check_kind(
        entries.decorator(name),
        name,
        inline,
        body,
        known,
        location,
        findings,
    )
}

fn check_decorator_name<E: UserParts>(
    name: &Parameter,
    inline: Option<&str>,
    body: &Option<Template>,
    entries: &E,
    known: Known<'_, '_>,
    location: Location<'_>,
    findings: &mut Vec<Finding<'_>>,
) -> Result<(), AllocError>
    ensures { OnOk result (AddsFindings findings.old.items findings.new.items
        (faults_in location.entry (whys.by_written_name (written_name (param_view name.now))
        (λ m. whys.whys_of_kind ((E.registered entries.now).decorator m) m (option_map (λ s. s.now) inline.entry) (body_view body.now))))) }
{
    match name {
        Parameter::Name(name) => check_decorator(
            name.as_str(),
            inline,
            body,
            entries,
            known,
            location,
            findings,
        ),
        Parameter::Path(path) => {
            check_decorator(path.raw(), inline, body, entries, known, location, findings)
        }
        Parameter::Literal(value) => check_decorator(
            &value.render(known.alloc)?,
            inline,
            body,
            entries,
            known,
            location,
            findings,
        ),
        Parameter::Subexpression(_) => push_fault(known.alloc, location, Cause::MadeName, findings),
    }
}

/// Adds what is wrong with the tag of a decorator.
pub fn check_decorator_tag<E: UserParts>(
    tag: &DecoratorTemplate,
    entries: &E,
    known: Known<'_, '_>,
    location: Location<'_>,
    findings: &mut Vec<Finding<'_>>,
) -> Result<(), AllocError>
    ensures { OnOk result (AddsFindings findings.old.items findings.new.items
        (faults_in location.entry (whys.whys_of_decorator (names_at (E.registered entries.now) known.entry) (decorator_view tag.now)))) }
{
    check_args(&tag.params, &tag.hash, entries, known, location, findings)?;
    check_decorator_name(
        &tag.name,
        inline_name(&tag.params),
        &tag.template,
        entries,
        known,
        location,
        findings,
    )
}
