//! Callers that render untrusted data.

ghost use Rattle.std.specs.Prelude.{◌≡◌, [], IfOk, IfSome, string_bytes};
ghost use Rattle.handlebars_base.specs.EscapeLaws.{marks_in};
ghost use Rattle.handlebars_scope.specs.Contexts.{data_of};
ghost use Rattle.handlebars_semantics.specs.Answer.{GivesText};
ghost use Rattle.handlebars_html.specs.Safety.{StandSafely};
ghost use Rattle.handlebars_markup.specs.Alike.{AreAlike};
ghost use Rattle.handlebars.specs.Over.{ForSource};

use handlebars::{
    Context, HtmlSafety, Markup, NoFiles, Registry, RegistryOf, RenderError, UserParts, laws,
};
use log::Log;

/// Renders a source over two contexts if its markup is fixed, and returns both texts. Returns none if its markup is not fixed.
///
/// If the contexts are equal up to texts, both texts have the same marks in the same order.
pub fn rendered_alike<L: Log>(
    registry: &Registry,
    source: &str,
    one: &Context,
    other: &Context,
    log: &L,
) -> Result<Option<(String, String)>, RenderError>
    ensures { AreAlike (data_of one.now) (data_of other.now) → IfOk result (λ both. IfSome both (λ texts.
        marks_in (string_bytes texts.0) ≡ marks_in (string_bytes texts.1))) }
{
    match registry.template_markup_is_fixed(source, &mut NoFiles)? {
        Markup::Fixed => {}
        Markup::NotFixed(_) => return Ok(None),
    }
    let text = registry.render_template_with_context(source, one, log, &mut NoFiles)?;
    let with_other = registry.render_template_with_context(source, other, log, &mut NoFiles)?;
    Ok(Some((text, with_other)))
}

/// Renders a source over a context if data stands only where it is harmless in HTML, whatever the data. Returns none if it may stand
/// elsewhere, or if that isn't known.
///
/// The text is that of the definition's answer, and each piece of this answer that comes from data stands where it may.
pub fn rendered_safely<E: UserParts, L: Log>(
    registry: &RegistryOf<E>,
    source: &str,
    context: &Context,
    log: &L,
) -> Result<Option<String>, RenderError>
    ensures { IfOk result (λ page. IfSome page (λ text.
        (answer : ForSource GivesText E.registered E.user registry.now source.now [] (data_of context.now) (string_bytes text))
        × StandSafely answer.pieces)) }
{
    match registry.template_html_is_safe(source, &mut NoFiles)? {
        HtmlSafety::Safe => {}
        HtmlSafety::Unsafe(_) => return Ok(None),
        HtmlSafety::Undecided => return Ok(None),
    }
    let text = registry.render_template_with_context(source, context, log, &mut NoFiles)?;
    laws::one_compilation();
    Ok(Some(text))
}
