//! The state of the line that is being written.

ghost use Rattle.std.specs.Prelude.{◌≡◌};
ghost use Rattle.handlebars_expand.specs.View.{with_line};
ghost use Rattle.handlebars_context.specs.View.{state_of, IsUnchanged};

use crate::context::RenderContext;

impl RenderContext {
    /// Returns whether indentation is written before the next text.
    pub fn get_indent_before_write(&self) -> bool
        ensures { result ≡ (state_of self.now).line.before }
    {
        self.run.line.before
    }

    /// Sets whether indentation is written before the next text.
    pub fn set_indent_before_write(&mut self, indent: bool)
        ensures state { state_of self.new
            ≡ with_line (record (state_of self.old).line { before = indent }) (state_of self.old) }
        ensures unchanged { IsUnchanged self.old self.new }
    {
        self.run.line.before = indent;
    }

    /// Returns whether the last text ended a line.
    pub fn get_trailine_newline(&self) -> bool
        ensures { result ≡ (state_of self.now).line.trailing }
    {
        self.run.line.trailing
    }

    /// Sets whether the last text counts as one that ended a line.
    pub fn set_trailing_newline(&mut self, trailing: bool)
        ensures state { state_of self.new
            ≡ with_line (record (state_of self.old).line { trailing = trailing }) (state_of self.old) }
        ensures unchanged { IsUnchanged self.old self.new }
    {
        self.run.line.trailing = trailing;
    }

    /// Returns whether a text was written.
    pub fn get_content_produced(&self) -> bool
        ensures { result ≡ (state_of self.now).line.produced }
    {
        self.run.line.produced
    }

    /// Sets whether a text counts as written.
    pub fn set_content_produced(&mut self, produced: bool)
        ensures state { state_of self.new
            ≡ with_line (record (state_of self.old).line { produced = produced }) (state_of self.old) }
        ensures unchanged { IsUnchanged self.old self.new }
    {
        self.run.line.produced = produced;
    }
}
