//! Printing the pieces that a rendering emits.

ghost use Rattle.std.specs.Prelude.{IfErr};
ghost use Rattle.handlebars_scope.specs.Contexts.{data_of};
ghost use Rattle.hb_origins.specs.Ends.{EndsAsRendering, IsErrorOf, IsOutput};

use crate::error::OriginsError;
use crate::form::Form;
use crate::printer::Printer;
use handlebars::{Context, NoFiles, RegistryOf, RenderError, UserParts};
use log::sink::Discard;
use std::alloc::Global;
use std::io;
use std::io::Write;

/// Renders a source over data with the templates and the modes of a registry, and prints the pieces of the output in this form.
/// The rendered template is printed under `name`, which needs to be no name of the registry. Pieces are written as they are
/// rendered, about eight kilobytes at a time.
///
/// # Errors
///
/// Fails if the source doesn't compile or the rendering fails, and if the output fails or memory for it runs out. What was
/// printed before an error is not taken back, and a page is printed to its end.
pub fn print_origins<E: UserParts, O: Write>(
    alloc: Global,
    registry: &RegistryOf<E>,
    source: &str,
    data: &Context,
    name: &str,
    form: Form,
    out: &mut O,
) -> Result<(), OriginsError>
    ensures { EndsAsRendering E.registered E.user registry.now source.now (data_of «data».now) result }
{
    let mut printer = Printer::new(alloc, form, name, out);
    match printer.begin() {
        Ok(()) => print_pieces(registry, source, data, &mut printer),
        Err(cause) => Err(OriginsError::Output(cause)),
    }
}

fn print_pieces<E: UserParts, O: Write>(
    registry: &RegistryOf<E>,
    source: &str,
    data: &Context,
    printer: &mut Printer<'_, O>,
) -> Result<(), OriginsError>
    ensures { EndsAsRendering E.registered E.user registry.now source.now (data_of «data».now) result }
{
    match registry.render_template_pieces(source, data, printer, &Discard, &mut NoFiles) {
        Ok(()) => written(printer.end(None)),
        Err(cause) => Err(ended(printer, cause)),
    }
}

// Prints the end of a page after the error of a rendering, and returns why the rendering ended. If the end can't be printed, that
// stays the reason, since it came first.
fn ended<O: Write>(printer: &mut Printer<'_, O>, cause: RenderError) -> OriginsError
    ensures { IsErrorOf cause result }
{
    let _ = printer.end(Some(&cause));
    match printer.output_error() {
        Some(kind) => OriginsError::Output(io::Error::from(kind)),
        None => OriginsError::Rendering(cause),
    }
}

fn written(answer: io::Result<()>) -> Result<(), OriginsError>
    ensures { IfErr result IsOutput }
{
    match answer {
        Ok(()) => Ok(()),
        Err(cause) => Err(OriginsError::Output(cause)),
    }
}
