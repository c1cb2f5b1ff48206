//! The calls that render, by the name of a template or by a source: over a context or over data that is converted
//! first, into a text or to a writer. In dev mode the files of templates are read anew first, and their trees are
//! overlaid on the stored ones. Without dev mode no file is read.
//!
//! Each call returns what the language's definition gives, for the registry and over the data: the text that is the
//! join of the pieces of the one answer, or the error, with reason, position and name. Each piece comes from a tree of
//! the run and the data. Raising the inclusion limit never changes a rendering that doesn't fail for the limit.
//! Templates that a rendering does not include do not affect it. Over data that is equal up to its texts, blind
//! templates write the same markup. The logger is given the lines of `log`.

ghost use Rattle.std.specs.Prelude.{◌≡◌, ◌≢◌, IfOk, IfErr, OnErr, None, Some, option_map, string_bytes, false};
ghost use Rattle.handlebars_base.specs.Answers.{IsRefusal};
ghost use Rattle.handlebars_base.specs.Reasons.{out_of_memory, template_not_found, template_out_of_memory};
ghost use Rattle.handlebars_base.specs.RenderRefusals.{plain_refusal, refusal_of, reason_in};
ghost use Rattle.handlebars_base.specs.TemplateRefusals.{template_refusal_of};
ghost use Rattle.handlebars_template.specs.Compile.{Compiles, compiled, rejected};
ghost use Rattle.handlebars_template.specs.TreeView.{tree_view};
ghost use Rattle.handlebars_scope.specs.Contexts.{data_of};
ghost use Rattle.handlebars_semantics.specs.Answer.{FailsWith, FromName, GivesText};
ghost use Rattle.handlebars_semantics.specs.State.{first_state};
ghost use Rattle.handlebars_context.specs.View.{state_of, root_of, has_failed};
ghost use Rattle.handlebars.specs.AnswerLaws.{ObeysLaws, ObeysLawsByName};
ghost use Rattle.handlebars.specs.Calls.{BeginsWith, Converts, ConvertsOr, Writes};
ghost use Rattle.handlebars.specs.Calls.{WritesConverted, WritesReading, WritesSource};
ghost use Rattle.handlebars.specs.Dev.{AsksFor, HasRead, FailsWithFiles, FailsWithSource};
ghost use Rattle.handlebars.specs.Files.{is_dev, overlaid_on, tree_in};
ghost use Rattle.handlebars.specs.Over.{ForName, ForSource, setting_under, setting_with};
ghost use Rattle.handlebars.specs.View.{modes_of, options_of, stored_tree};

use crate::registry::RegistryOf;
use crate::registry::writing::write_template;
use crate::render::over::renders_over;
use crate::sources::TemplateReader;
use handlebars_base::error::{RenderError, RenderErrorReason, TemplateError};
use handlebars_context::context::RenderContext;
use handlebars_helpers::entries::UserParts;
use handlebars_scope::context::Context;
use handlebars_template::template::{Template, TemplateOptions};
use log::Log;
use serde::Serialize;
use std::alloc::AllocError;
use std::collections::BTreeMap;
use std::io::Write;

// By name.
impl<E: UserParts> RegistryOf<E> {
    /// Renders the template under the name over data, which is converted first, and returns the text.
    ///
    /// # Errors
    ///
    /// Fails with the error of the conversion, or as `render_with_context` does. If the conversion fails, no file is
    /// read.
    pub fn render<T: Serialize, L: Log, R: TemplateReader>(
        &self,
        name: &str,
        data: &T,
        log: &L,
        files: &mut R,
    ) -> Result<String, RenderError>
        ensures ok { IfOk result (λ text. Converts T.writes «data».now
            (λ d. HasRead R.reads self.now (Some name.now) files.old files.new
            (λ read. ForName GivesText E.registered E.user self.now name.now read d (string_bytes text)))) }
        ensures err { IfErr result (λ e. reason_in e ≢ out_of_memory → ConvertsOr T.writes «data».now (refusal_of e)
            (files.new ≡ files.old) (λ d. FailsWithFiles R.reads self.now (Some name.now) files.old files.new
            (λ read. ForName FailsWith E.registered E.user self.now name.now read d) e)) }
        ensures laws { ObeysLawsByName E.registered E.user self.now name.now }
        ensures asks { AsksFor R.reads self.now (Some name.now) files.old files.new }
        ensures unread { is_dev self.now ≡ false → files.new ≡ files.old }
    {
        self.entries.satisfies_law();
        match Context::wraps(self.alloc, data) {
            Ok(ctx) => self.render_with_context(name, &ctx, log, files),
            Err(e) => Err(e),
        }
    }

    /// Renders the template under the name over a context, and returns the text.
    ///
    /// # Errors
    ///
    /// Fails with `TemplateNotFound` if no template is registered under the name, with the error of a file that can't
    /// be read or doesn't compile in dev mode, or with the error that the definition gives; also when memory runs out.
    pub fn render_with_context<L: Log, R: TemplateReader>(
        &self,
        name: &str,
        ctx: &Context,
        log: &L,
        files: &mut R,
    ) -> Result<String, RenderError>
        // The files are read, and the text is the definition's, with their trees overlaid on the stored ones.
        ensures ok { IfOk result (λ text. HasRead R.reads self.now (Some name.now) files.old files.new
            (λ read. ForName GivesText E.registered E.user self.now name.now read (data_of ctx.now) (string_bytes text))) }

        // An error, other than out of memory, is that of a file, or the definition's with the trees of all files.
        ensures err { IfErr result (λ e. reason_in e ≢ out_of_memory
            → FailsWithFiles R.reads self.now (Some name.now) files.old files.new
            (λ read. ForName FailsWith E.registered E.user self.now name.now read (data_of ctx.now)) e) }
        ensures laws { ObeysLawsByName E.registered E.user self.now name.now }
        ensures asks { AsksFor R.reads self.now (Some name.now) files.old files.new }
        ensures unread { is_dev self.now ≡ false → files.new ≡ files.old }
    {
        self.entries.satisfies_law();
        let read = self.read_for(Some(name), files)?;
        let Some(template) = self.template_over(&read, name) else {
            let name = String::from_str(self.alloc, name)?;
            return Err(RenderErrorReason::TemplateNotFound(name).into());
        };
        let mut rc = self.first_context(template.name.as_ref())?;
        renders_over(template, self.alloc, self, &read, ctx, &mut rc, log)
    }

    /// Renders the template under the name over data, which is converted first, to a writer, which is written to as the
    /// pieces come.
    ///
    /// # Errors
    ///
    /// Fails as `render` does, and with a write error of the writer. Output that was written before an error is not
    /// taken back. A write error, other than out of memory, is `IOError`; it is `Other` if it occurs while the text of
    /// a boolean helper is written.
    pub fn render_to_write<T: Serialize, W: Write, L: Log, R: TemplateReader>(
        &self,
        name: &str,
        data: &T,
        writer: &mut W,
        log: &L,
        files: &mut R,
    ) -> Result<(), RenderError>
        ensures writes { WritesConverted T.writes «data».now (files.new ≡ files.old)
            (λ d. WritesReading R.reads self.now (Some name.now) files.old files.new
            (λ read. ForName Writes E.registered E.user self.now name.now read d))
            (W.contents writer.old) (W.contents writer.new) result }
        ensures laws { ObeysLawsByName E.registered E.user self.now name.now }
        ensures asks { AsksFor R.reads self.now (Some name.now) files.old files.new }
        ensures unread { is_dev self.now ≡ false → files.new ≡ files.old }
    {
        self.entries.satisfies_law();
        match Context::wraps(self.alloc, data) {
            Ok(ctx) => self.render_with_context_to_write(name, &ctx, writer, log, files),
            Err(e) => Err(e),
        }
    }

    /// Renders the template under the name over a context to a writer.
    ///
    /// # Errors
    ///
    /// Fails as `render_with_context` does, and with a write error of the writer, as `render_to_write` does.
    pub fn render_with_context_to_write<W: Write, L: Log, R: TemplateReader>(
        &self,
        name: &str,
        ctx: &Context,
        writer: &mut W,
        log: &L,
        files: &mut R,
    ) -> Result<(), RenderError>
        ensures writes { WritesReading R.reads self.now (Some name.now) files.old files.new
            (λ read. ForName Writes E.registered E.user self.now name.now read (data_of ctx.now))
            (W.contents writer.old) (W.contents writer.new) result }
        ensures laws { ObeysLawsByName E.registered E.user self.now name.now }
        ensures asks { AsksFor R.reads self.now (Some name.now) files.old files.new }
        ensures unread { is_dev self.now ≡ false → files.new ≡ files.old }
    {
        self.entries.satisfies_law();
        match self.read_for(Some(name), files) {
            Ok(read) => self.write_named(name, &read, ctx, writer, log),
            Err(e) => Err(e),
        }
    }

    // The template under the name to a writer, with the trees that were read.
    fn write_named<W: Write, L: Log>(
        &self,
        name: &str,
        read: &BTreeMap<String, Template>,
        ctx: &Context,
        writer: &mut W,
        log: &L,
    ) -> Result<(), RenderError>
        ensures { Writes (setting_with E.registered E.user (tree_in read.now) self.now (data_of ctx.now))
            (FromName (overlaid_on (tree_in read.now) (stored_tree self.now)) name.now)
            (W.contents writer.old) (W.contents writer.new) result }
    {
        match self.template_named(name, read) {
            Ok(template) => write_template(self, template, read, ctx, log, writer),
            Err(e) => Err(e),
        }
    }

    // The template that is rendered under the name, with the trees that were read.
    pub(crate) fn template_named<'a>(
        &'a self,
        name: &str,
        read: &'a BTreeMap<String, Template>,
    ) -> Result<&'a Template, RenderError>
        ensures ok { IfOk result (λ t. overlaid_on (tree_in read.now) (stored_tree self.now) name.now
            ≡ Some (tree_view t.now)) }
        ensures none { OnErr result (overlaid_on (tree_in read.now) (stored_tree self.now) name.now ≡ None) }
        ensures err { IfErr result (IsRefusal (plain_refusal (template_not_found name.now))) }
    {
        let Some(template) = self.template_over(read, name) else {
            let name = String::from_str(self.alloc, name)?;
            return Err(RenderErrorReason::TemplateNotFound(name).into());
        };
        Ok(template)
    }
}

// By source.
impl<E: UserParts> RegistryOf<E> {
    /// Renders a source over data, which is converted first, and returns the text.
    ///
    /// # Errors
    ///
    /// Fails with the error of the conversion, or as `render_template_with_context` does. If the conversion fails, no
    /// file is read.
    pub fn render_template<T: Serialize, L: Log, R: TemplateReader>(
        &self,
        source: &str,
        data: &T,
        log: &L,
        files: &mut R,
    ) -> Result<String, RenderError>
        ensures ok { IfOk result (λ text. Converts T.writes «data».now
            (λ d. HasRead R.reads self.now None files.old files.new
            (λ read. ForSource GivesText E.registered E.user self.now source.now read d (string_bytes text)))) }
        ensures err { IfErr result (λ e. reason_in e ≢ out_of_memory → ConvertsOr T.writes «data».now (refusal_of e)
            (files.new ≡ files.old)
            (λ d. FailsWithSource R.reads self.now (options_of self.now) source.now files.old files.new
            (λ read. ForSource FailsWith E.registered E.user self.now source.now read d) e)) }
        ensures laws { ObeysLaws E.registered E.user self.now source.now }
        ensures asks { AsksFor R.reads self.now None files.old files.new }
        ensures unread { is_dev self.now ≡ false → files.new ≡ files.old }
    {
        self.entries.satisfies_law();
        match Context::wraps(self.alloc, data) {
            Ok(ctx) => self.render_template_with_context(source, &ctx, log, files),
            Err(e) => Err(e),
        }
    }

    /// Renders a source over a context, and returns the text.
    ///
    /// # Errors
    ///
    /// Fails with the error of the source if it doesn't compile, and no file is read then; with the error of a file
    /// that can't be read or doesn't compile in dev mode; or with the error that the definition gives; also when memory
    /// runs out.
    pub fn render_template_with_context<L: Log, R: TemplateReader>(
        &self,
        source: &str,
        ctx: &Context,
        log: &L,
        files: &mut R,
    ) -> Result<String, RenderError>
        // The source is compiled and the files are read, and the text is the join of the pieces of the one answer that
        // the language's definition gives with their trees overlaid on the stored ones.
        ensures ok { IfOk result (λ text. HasRead R.reads self.now None files.old files.new
            (λ read. ForSource GivesText E.registered E.user self.now source.now read (data_of ctx.now) (string_bytes text))) }

        // An error, other than out of memory, is that of the source, and no file is asked for; or it is that of a file,
        // with the kind of the system's error if the file can't be read; or it is the definition's with the trees of
        // all files: its reason, its position and its name.
        ensures err { IfErr result (λ e. reason_in e ≢ out_of_memory
            → FailsWithSource R.reads self.now (options_of self.now) source.now files.old files.new
            (λ read. ForSource FailsWith E.registered E.user self.now source.now read (data_of ctx.now)) e) }

        // There is at most one such answer, and each of its pieces comes from a tree of the run and the data.
        ensures laws { ObeysLaws E.registered E.user self.now source.now }
        ensures asks { AsksFor R.reads self.now None files.old files.new }
        ensures unread { is_dev self.now ≡ false → files.new ≡ files.old }
    {
        self.entries.satisfies_law();
        let template = self.compiled(source)?;
        let read = self.read_for(None, files)?;
        let mut rc = self.first_context(None)?;
        renders_over(&template, self.alloc, self, &read, ctx, &mut rc, log)
    }

    /// Renders a source over data, which is converted first, to a writer.
    ///
    /// # Errors
    ///
    /// Fails as `render_template` does, and with a write error of the writer, as `render_to_write` does.
    pub fn render_template_to_write<T: Serialize, W: Write, L: Log, R: TemplateReader>(
        &self,
        source: &str,
        data: &T,
        writer: &mut W,
        log: &L,
        files: &mut R,
    ) -> Result<(), RenderError>
        ensures writes { WritesConverted T.writes «data».now (files.new ≡ files.old)
            (λ d. WritesSource R.reads self.now (options_of self.now) source.now files.old files.new
            (λ read. ForSource Writes E.registered E.user self.now source.now read d))
            (W.contents writer.old) (W.contents writer.new) result }
        ensures laws { ObeysLaws E.registered E.user self.now source.now }
        ensures asks { AsksFor R.reads self.now None files.old files.new }
        ensures unread { is_dev self.now ≡ false → files.new ≡ files.old }
    {
        self.entries.satisfies_law();
        match Context::wraps(self.alloc, data) {
            Ok(ctx) => self.render_template_with_context_to_write(source, &ctx, writer, log, files),
            Err(e) => Err(e),
        }
    }

    /// Renders a source over a context to a writer.
    ///
    /// # Errors
    ///
    /// Fails as `render_template_with_context` does, and with a write error of the writer, as `render_to_write` does.
    pub fn render_template_with_context_to_write<W: Write, L: Log, R: TemplateReader>(
        &self,
        source: &str,
        ctx: &Context,
        writer: &mut W,
        log: &L,
        files: &mut R,
    ) -> Result<(), RenderError>
        ensures writes { WritesSource R.reads self.now (options_of self.now) source.now files.old files.new
            (λ read. ForSource Writes E.registered E.user self.now source.now read (data_of ctx.now))
            (W.contents writer.old) (W.contents writer.new) result }
        ensures laws { ObeysLaws E.registered E.user self.now source.now }
        ensures asks { AsksFor R.reads self.now None files.old files.new }
        ensures unread { is_dev self.now ≡ false → files.new ≡ files.old }
    {
        self.entries.satisfies_law();
        match self.compiled(source) {
            Ok(template) => self.write_compiled(&template, ctx, writer, log, files),
            Err(e) => Err(e.into()),
        }
    }

    // A compiled source to a writer, after the files are read.
    fn write_compiled<W: Write, L: Log, R: TemplateReader>(
        &self,
        template: &Template,
        ctx: &Context,
        writer: &mut W,
        log: &L,
        files: &mut R,
    ) -> Result<(), RenderError>
        ensures writes { WritesReading R.reads self.now None files.old files.new
            (λ read. Writes (setting_under E.registered E.user read self.now (data_of ctx.now))
            (BeginsWith (tree_view template.now)))
            (W.contents writer.old) (W.contents writer.new) result }
        ensures asks { AsksFor R.reads self.now None files.old files.new }
        ensures unread { is_dev self.now ≡ false → files.new ≡ files.old }
    {
        match self.read_for(None, files) {
            Ok(read) => write_template(self, template, &read, ctx, log, writer),
            Err(e) => Err(e),
        }
    }

    // The tree of a source that has no name.
    pub(crate) fn compiled(&self, source: &str) -> Result<Template, TemplateError>
        ensures ok { IfOk result (λ t. Compiles source.now (options_of self.now) (compiled (tree_view t))) }
        ensures err { IfErr result (λ e. (template_refusal_of e).reason ≢ template_out_of_memory
            → Compiles source.now (options_of self.now) (rejected (template_refusal_of e))) }
    {
        let options = TemplateOptions {
            name: None,
            prevent_indent: self.prevent_indent,
        };
        Template::compile2(self.alloc, source, options)
    }

    // The first state of a run with this registry, which the template of that name begins, if it has one.
    pub(crate) fn first_context(
        &self,
        root_template: Option<&String>,
    ) -> Result<RenderContext, AllocError>
        ensures state { IfOk result (λ rc. state_of rc ≡ first_state (modes_of self.now).recursive) }
        ensures root { IfOk result (λ rc. root_of rc ≡ option_map (λ name. string_bytes name.now) root_template.entry) }
        ensures ready { IfOk result (λ rc. has_failed rc ≡ false) }
    {
        let mut rc = RenderContext::new(self.alloc, root_template)?;
        rc.set_recursive_lookup(self.recursive_lookup);
        Ok(rc)
    }
}
