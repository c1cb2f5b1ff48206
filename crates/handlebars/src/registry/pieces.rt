//! The calls that render and emit each piece of the text to an output, by the name of a template or by a source, over a
//! context. A piece is a text with its kind and its origin. In dev mode the files of templates are read anew first, as
//! by the calls that return a text. What is emitted is what the definition says of the pieces of the one answer, in
//! order; if the answer is an error, the pieces before it are emitted.

ghost use Rattle.std.specs.Prelude.{◌≡◌, Some, None, false};
ghost use Rattle.handlebars_template.specs.TreeView.{tree_view};
ghost use Rattle.handlebars_scope.specs.Contexts.{data_of};
ghost use Rattle.handlebars_semantics.specs.Answer.{FromName};
ghost use Rattle.handlebars.specs.AnswerLaws.{ObeysLaws, ObeysLawsByName};
ghost use Rattle.handlebars.specs.Calls.{BeginsWith};
ghost use Rattle.handlebars.specs.Dev.{AsksFor};
ghost use Rattle.handlebars.specs.Files.{is_dev, overlaid_on, tree_in};
ghost use Rattle.handlebars.specs.Over.{ForName, ForSource, setting_under, setting_with};
ghost use Rattle.handlebars.specs.PieceCalls.{EmitsPieces, EmitsReading, EmitsSource};
ghost use Rattle.handlebars.specs.View.{options_of, stored_tree};

use crate::registry::RegistryOf;
use crate::registry::emitting::emit_template;
use crate::sources::TemplateReader;
use handlebars_base::error::RenderError;
use handlebars_expand::pieces::PieceOutput;
use handlebars_helpers::entries::UserParts;
use handlebars_scope::context::Context;
use handlebars_template::template::Template;
use log::Log;
use std::collections::BTreeMap;

impl<E: UserParts> RegistryOf<E> {
    /// Renders the template under the name over a context, and emits each piece of the text to an output. The position
    /// of an element is 1-based, its columns in characters; iterations are counted from 0.
    ///
    /// # Errors
    ///
    /// Fails with `TemplateNotFound` if no template is registered under the name, with the error of a file, or with the
    /// error that the definition gives; also if the output fails, or when memory runs out.
    pub fn render_pieces<O: PieceOutput, L: Log, R: TemplateReader>(
        &self,
        name: &str,
        ctx: &Context,
        out: &mut O,
        log: &L,
        files: &mut R,
    ) -> Result<(), RenderError>
        ensures emits { EmitsReading R.reads self.now (Some name.now) files.old files.new
            (λ read. ForName EmitsPieces E.registered E.user self.now name.now read (data_of ctx.now) O.may_give)
            (O.received out.old) (O.received out.new) result }
        ensures laws { ObeysLawsByName E.registered E.user self.now name.now }
        ensures asks { AsksFor R.reads self.now (Some name.now) files.old files.new }
        ensures unread { is_dev self.now ≡ false → files.new ≡ files.old }
    {
        self.entries.satisfies_law();
        match self.read_for(Some(name), files) {
            Ok(read) => self.emit_named(name, &read, ctx, out, log),
            Err(e) => Err(e),
        }
    }

    // The template under the name, with the trees that were read.
    fn emit_named<O: PieceOutput, L: Log>(
        &self,
        name: &str,
        read: &BTreeMap<String, Template>,
        ctx: &Context,
        out: &mut O,
        log: &L,
    ) -> Result<(), RenderError>
        ensures { EmitsPieces (setting_with E.registered E.user (tree_in read.now) self.now (data_of ctx.now))
            (FromName (overlaid_on (tree_in read.now) (stored_tree self.now)) name.now) O.may_give
            (O.received out.old) (O.received out.new) result }
    {
        match self.template_named(name, read) {
            Ok(template) => emit_template(self, template, read, ctx, log, out),
            Err(e) => Err(e),
        }
    }

    /// Renders a source over a context, and emits each piece of the text to an output.
    ///
    /// # Errors
    ///
    /// Fails with the error of the source if it doesn't compile, and otherwise as `render_pieces` does.
    pub fn render_template_pieces<O: PieceOutput, L: Log, R: TemplateReader>(
        &self,
        source: &str,
        ctx: &Context,
        out: &mut O,
        log: &L,
        files: &mut R,
    ) -> Result<(), RenderError>
        ensures emits { EmitsSource R.reads self.now (options_of self.now) source.now files.old files.new
            (λ read. ForSource EmitsPieces E.registered E.user self.now source.now read (data_of ctx.now) O.may_give)
            (O.received out.old) (O.received out.new) result }
        ensures laws { ObeysLaws E.registered E.user self.now source.now }
        ensures asks { AsksFor R.reads self.now None files.old files.new }
        ensures unread { is_dev self.now ≡ false → files.new ≡ files.old }
    {
        self.entries.satisfies_law();
        match self.compiled(source) {
            Ok(template) => self.emit_compiled(&template, ctx, out, log, files),
            Err(e) => Err(e.into()),
        }
    }

    // A compiled source, after the files are read.
    fn emit_compiled<O: PieceOutput, L: Log, R: TemplateReader>(
        &self,
        template: &Template,
        ctx: &Context,
        out: &mut O,
        log: &L,
        files: &mut R,
    ) -> Result<(), RenderError>
        ensures emits { EmitsReading R.reads self.now None files.old files.new
            (λ read. EmitsPieces (setting_under E.registered E.user read self.now (data_of ctx.now))
            (BeginsWith (tree_view template.now)) O.may_give)
            (O.received out.old) (O.received out.new) result }
        ensures asks { AsksFor R.reads self.now None files.old files.new }
        ensures unread { is_dev self.now ≡ false → files.new ≡ files.old }
    {
        match self.read_for(None, files) {
            Ok(read) => emit_template(self, template, &read, ctx, log, out),
            Err(e) => Err(e),
        }
    }
}
