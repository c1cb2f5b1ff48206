//! The line of JSON that a piece is printed as.

ghost use Rattle.std.specs.Prelude.{◌≡◌, [], ◌∷◌, ◌++◌, decimal, map, option_map, OnErr, OnOk};
ghost use Rattle.handlebars_base.specs.Outputs.{IsPrefix};
ghost use Rattle.handlebars_expand.specs.PiecesView.{kind_seen, path_seen, location_seen, template_seen, emitted_seen};
ghost use Rattle.handlebars_scope.specs.ResolutionView.{names_in};
ghost use Rattle.handlebars_template.specs.TreeView.{position_of};
ghost use Rattle.hb_origins.specs.Line.{printed_text, line_tokens, array_tokens, path_tokens, position_tokens, location_tokens, template_token, text_tokens, emitted_tokens};
ghost use Rattle.json.specs.Token.{number, string};

use handlebars::{FullPath, Location, Origin, PieceKind, TemplateMapping, TemplateReference};
use json::Writer;
use std::alloc::{AllocError, Global};
use std::mem;

/// Appends the line of a piece to the buffer. `first` is printed as the template of pieces of the rendered template.
///
/// # Errors
///
/// Fails when memory runs out. The buffer is then unchanged.
pub fn add_line(
    gathered: &mut Vec<u8>,
    first: &str,
    text: &str,
    origin: &Origin<'_>,
) -> Result<(), AllocError>
    ensures ok { OnOk result
        (gathered.new.items ≡ gathered.old.items ++ printed_text first.now (emitted_seen text.now origin.now)) }
    ensures err { OnErr result (gathered.new.items ≡ gathered.old.items) }
{
    let len = gathered.len();
    match add_parts(gathered, first, text, origin) {
        Ok(()) => Ok(()),
        Err(cause) => {
            gathered.truncate(len);
            Err(cause)
        }
    }
}

// When memory runs out, a part of the line may have been appended.
fn add_parts(
    gathered: &mut Vec<u8>,
    first: &str,
    text: &str,
    origin: &Origin<'_>,
) -> Result<(), AllocError>
    ensures ok { OnOk result
        (gathered.new.items ≡ gathered.old.items ++ printed_text first.now (emitted_seen text.now origin.now)) }
    ensures err { OnErr result (IsPrefix gathered.old.items gathered.new.items) }
{
    let alloc = *gathered.allocator();
    let mut writer = Writer::new(mem::replace(gathered, Vec::new(alloc)));
    let answer = write_object(alloc, &mut writer, first, text, origin);
    *gathered = writer.into_inner();
    match answer {
        Ok(()) => gathered.extend_from_slice(b"\n"),
        Err(cause) => Err(cause),
    }
}

fn write_object(
    alloc: Global,
    writer: &mut Writer,
    first: &str,
    text: &str,
    origin: &Origin<'_>,
) -> Result<(), AllocError>
    ensures ok { OnOk result
        (writer.new.tokens ≡ writer.old.tokens ++ line_tokens first.now (emitted_seen text.now origin.now)) }
    ensures before { writer.new.before ≡ writer.old.before }
{
    writer.begin_object()?;
    write_emitted(alloc, writer, first, text, origin)?;
    writer.end_object()
}

fn write_emitted(
    alloc: Global,
    writer: &mut Writer,
    first: &str,
    text: &str,
    origin: &Origin<'_>,
) -> Result<(), AllocError>
    ensures ok { OnOk result
        (writer.new.tokens ≡ writer.old.tokens ++ emitted_tokens first.now (emitted_seen text.now origin.now)) }
    ensures before { writer.new.before ≡ writer.old.before }
{
    write_text(writer, text, origin.kind)?;
    write_location(writer, first, &origin.location)?;
    writer.key("path")?;
    write_path(alloc, writer, origin.path)
}

fn write_text(writer: &mut Writer, text: &str, kind: PieceKind) -> Result<(), AllocError>
    ensures ok { OnOk result
        (writer.new.tokens ≡ writer.old.tokens ++ text_tokens text.now (kind_seen kind)) }
    ensures before { writer.new.before ≡ writer.old.before }
{
    writer.key("text")?;
    writer.string(text)?;
    writer.key("kind")?;
    writer.string(kind.name())
}

fn write_location(
    writer: &mut Writer,
    first: &str,
    location: &Location<'_>,
) -> Result<(), AllocError>
    ensures ok { OnOk result
        (writer.new.tokens ≡ writer.old.tokens ++ location_tokens first.now (location_seen location.now)) }
    ensures before { writer.new.before ≡ writer.old.before }
{
    writer.key("template")?;
    write_template(writer, first, location.template)?;
    write_position(writer, location.position)?;
    writer.key("turns")?;
    writer.begin_array()?;
    write_iterations(writer, location.iterations)?;
    writer.end_array()
}

fn write_template(
    writer: &mut Writer,
    first: &str,
    template: TemplateReference<'_>,
) -> Result<(), AllocError>
    ensures ok { OnOk result (writer.new.tokens
        ≡ writer.old.tokens ++ template_token first.now (template_seen template.entry) ∷ []) }
    ensures before { writer.new.before ≡ writer.old.before }
{
    match template {
        TemplateReference::First => writer.string(first),
        TemplateReference::Included(Some(name)) => writer.string(name),
        TemplateReference::Included(None) => writer.null(),
    }
}

fn write_position(writer: &mut Writer, position: Option<&TemplateMapping>) -> Result<(), AllocError>
    ensures ok { OnOk result (writer.new.tokens
        ≡ writer.old.tokens ++ position_tokens (option_map (λ m. position_of m.now) position.entry)) }
    ensures before { writer.new.before ≡ writer.old.before }
{
    match position {
        Some(position) => {
            writer.key("line")?;
            writer.u64(position.0 as u64)?;
            writer.key("column")?;
            writer.u64(position.1 as u64)
        }
        None => {
            writer.key("line")?;
            writer.null()?;
            writer.key("column")?;
            writer.null()
        }
    }
}

fn write_iterations(writer: &mut Writer, iterations: &[usize]) -> Result<(), AllocError>
    ensures ok { OnOk result
        (writer.new.tokens ≡ writer.old.tokens ++ map (λ iteration. number (decimal iteration)) iterations.now) }
    ensures before { writer.new.before ≡ writer.old.before }
{
    for iteration in iterations {
        writer.u64(*iteration as u64)?;
    }
    Ok(())
}

fn write_path(
    alloc: Global,
    writer: &mut Writer,
    path: Option<FullPath<'_>>,
) -> Result<(), AllocError>
    ensures ok { OnOk result
        (writer.new.tokens ≡ writer.old.tokens ++ path_tokens (path_seen path.entry)) }
    ensures before { writer.new.before ≡ writer.old.before }
{
    match path {
        Some(path) => {
            let names = path.copied(alloc)?;
            write_listed(writer, names.as_slice())
        }
        None => writer.null(),
    }
}

fn write_listed(writer: &mut Writer, names: &[String]) -> Result<(), AllocError>
    ensures ok { OnOk result
        (writer.new.tokens ≡ writer.old.tokens ++ array_tokens (map string (names_in names.now))) }
    ensures before { writer.new.before ≡ writer.old.before }
{
    writer.begin_array()?;
    write_names(writer, names)?;
    writer.end_array()
}

fn write_names(writer: &mut Writer, names: &[String]) -> Result<(), AllocError>
    ensures ok { OnOk result
        (writer.new.tokens ≡ writer.old.tokens ++ map string (names_in names.now)) }
    ensures before { writer.new.before ≡ writer.old.before }
{
    for name in names {
        writer.string(name.as_str())?;
    }
    Ok(())
}
