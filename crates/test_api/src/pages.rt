//! Callers of the engine that write to a file, and that render templates of files.

ghost use Rattle.std.specs.Prelude.{◌≡◌, IfOk, OnOk, Some, false, string_bytes, true};
ghost use Rattle.handlebars_scope.specs.Contexts.{data_of};
ghost use Rattle.handlebars_semantics.specs.Answer.{GivesText};
ghost use Rattle.handlebars.specs.Calls.{Writes, WritesReading};
ghost use Rattle.handlebars.specs.Dev.{HasRead};
ghost use Rattle.handlebars.specs.Files.{is_dev};
ghost use Rattle.handlebars.specs.Over.{ForName};

use handlebars::{Context, NoFiles, RegistryOf, RenderError, TemplateReader, UserParts};
use log::Log;
use std::fs::File;
use std::io::{BufWriter, Write};
use std::rt::Files;

/// Writes a registered template over data to a file, through a buffer. If the rendering fails, the file holds the output that
/// precedes the error.
pub fn write_page<F: Files + AllocGlobal, E: UserParts, L: Log>(
    rt: &F,
    path: &str,
    registry: &RegistryOf<E>,
    name: &str,
    data: &Context,
    log: &L,
) -> Result<(), RenderError> {
    let mut page = BufWriter::new(rt.alloc(), File::create(rt, path)?)?;
    write_to(registry, name, data, &mut page, log, &mut NoFiles)?;
    Ok(page.flush()?)
}

/// Writes a registered template over data to any writer.
///
/// If the contract of the writer states its contents, they are known after the call: the text of the definition is appended to
/// them, or a prefix of it if the call fails.
pub fn write_to<E: UserParts, W: Write, L: Log, R: TemplateReader>(
    registry: &RegistryOf<E>,
    name: &str,
    data: &Context,
    writer: &mut W,
    log: &L,
    files: &mut R,
) -> Result<(), RenderError>
    ensures writes { WritesReading R.reads registry.now (Some name.now) files.old files.new
        (λ read. ForName Writes E.registered E.user registry.now name.now read (data_of «data».now))
        (W.contents writer.old) (W.contents writer.new) result }
{
    registry.render_with_context_to_write(name, data, writer, log, files)
}

/// Registers the template of a file in dev mode, and renders it over data. Each later rendering reads the file again.
///
/// The text is the one of the definition, where the trees that were read replace the stored ones.
pub fn rendered_anew<E: UserParts, L: Log, R: TemplateReader>(
    registry: &mut RegistryOf<E>,
    name: &str,
    path: &str,
    data: &Context,
    log: &L,
    files: &mut R,
) -> Result<String, RenderError>
    ensures text { IfOk result (λ text. (between : R) × HasRead R.reads registry.new (Some name.now) between files.new
        (λ read. ForName GivesText E.registered E.user registry.new name.now read (data_of «data».now)
        (string_bytes text))) }
    ensures dev { OnOk result (is_dev registry.new ≡ true) }
{
    registry.set_dev_mode(true);
    registry.register_template_file(name, path, files)?;
    registry.render_with_context(name, data, log, files)
}

/// Renders a registered template over data, as it was registered. Dev mode is turned off, so the registry forgets the paths of
/// files and reads none.
pub fn rendered_as_registered<E: UserParts, L: Log, R: TemplateReader>(
    registry: &mut RegistryOf<E>,
    name: &str,
    data: &Context,
    log: &L,
    files: &mut R,
) -> Result<String, RenderError>
    ensures text { IfOk result (λ text. HasRead R.reads registry.new (Some name.now) files.old files.new
        (λ read. ForName GivesText E.registered E.user registry.new name.now read (data_of «data».now)
        (string_bytes text))) }
    ensures dev { is_dev registry.new ≡ false }
    ensures unread { files.new ≡ files.old }
{
    registry.set_dev_mode(false);
    registry.render_with_context(name, data, log, files)
}
