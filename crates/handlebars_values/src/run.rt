//! What a run changes.

ghost use Rattle.std.specs.Prelude.{◌≡◌, [], IfOk, List, None, OnErr, OnOk, Some, is_some, option_map, string_bytes, true};
ghost use Rattle.handlebars_scope.specs.LineView.{line_of};
ghost use Rattle.handlebars_scope.specs.Scopes.{Frame, nothing_at};
ghost use Rattle.handlebars_helpers.specs.UserView.{local_of};
ghost use Rattle.handlebars_semantics.specs.State.{with_local, without_local};
ghost use Rattle.handlebars_values.specs.RunView.{HasSamePartials, run_state};

use handlebars_helpers::user::LocalHelper;
use handlebars_layers::partials::Partials;
use handlebars_scope::context::Context;
use handlebars_scope::context::looked_up::LookedUp;
use handlebars_scope::line::LineState;
use std::alloc::{AllocError, Global};
use std::collections::BTreeMap;
use std::mem;

/// What a run changes. Scope frames are no part of it. The partials that decorators set in them are.
pub struct Run {
    /// The name of the template whose elements are being rendered, if it has one.
    pub current_template: Option<String>,
    /// The state of the line that is being written.
    pub line: LineState,
    /// Whether values are escaped.
    pub escapes: bool,
    /// Whether lookup is recursive.
    pub recursive_lookup: bool,
    /// The data that replaces the given data, once a decorator has changed it.
    pub changed: Option<Context>,
    /// The local helpers by name.
    pub local_helpers: BTreeMap<String, LocalHelper>,
    /// The partials that decorators set in scope frames.
    pub partials: Partials,
    /// How many members of the data were looked up for paths.
    pub looked_up: LookedUp,
    // Texts of names that are no longer current, which are used again for other names.
    spare: Vec<String>,
}

// Implemented explicitly, so that dropping one is a single call.
impl Drop for Run {
    fn drop(self) {
        let Run {
            current_template: _,
            line: _,
            escapes: _,
            recursive_lookup: _,
            changed: _,
            local_helpers: _,
            partials: _,
            looked_up: _,
            spare: _,
        } = self;
    }
}

impl Run {
    /// Creates a run at its start. It has no current name, no changed data and no local helpers.
    pub fn start(
        alloc: Global,
        recursive_lookup: bool,
        line: LineState,
        escapes: bool,
        partials: Partials,
    ) -> Run
        ensures run { (fs : List Frame) → run_state fs result ≡ record {
          current = None;
          blocks = fs;
          recursive = recursive_lookup;
          line = line_of line;
          escapes = escapes;
          indent = None;
          captured = [];
          inclusions = 0;
          changed = None;
          local = nothing_at;
        } }
        ensures partials { result.partials ≡ partials }
    {
        Run {
            current_template: None,
            line,
            escapes,
            recursive_lookup,
            changed: None,
            local_helpers: BTreeMap::new(alloc),
            partials,
            looked_up: LookedUp::new(),
            spare: Vec::new(alloc),
        }
    }

    /// Makes a name the current one, or none. A name that already is the current one isn't copied. The texts of earlier names are
    /// used again.
    ///
    /// # Errors
    ///
    /// Fails if memory runs out. The state of the run is then unchanged.
    #[inline(always)]
    pub fn enter(&mut self, name: &Option<String>) -> Result<(), AllocError>
        ensures ok { (fs : List Frame) → OnOk result (run_state fs self.new
            ≡ record (run_state fs self.old) { current = option_map string_bytes name.now }) }
        ensures err { (fs : List Frame) → OnErr result (run_state fs self.new ≡ run_state fs self.old) }
        ensures partials { HasSamePartials self.old self.new }
    {
        match name {
            Some(name) => self.enter_name(name),
            None => {
                self.leave(None);
                Ok(())
            }
        }
    }

    #[inline(never)]
    fn enter_name(&mut self, name: &String) -> Result<(), AllocError>
        ensures ok { (fs : List Frame) → OnOk result (run_state fs self.new
            ≡ record (run_state fs self.old) { current = Some (string_bytes name.now) }) }
        ensures err { (fs : List Frame) → OnErr result (run_state fs self.new ≡ run_state fs self.old) }
        ensures partials { HasSamePartials self.old self.new }
    {
        if self.is_current(name) {
            return Ok(());
        }
        let copy = self.copy_of(name)?;
        self.leave(Some(copy));
        Ok(())
    }

    // Returns whether a name is the current one.
    fn is_current(&self, name: &String) -> bool
        ensures { result ≡ true → option_map string_bytes self.now.current_template ≡ Some (string_bytes name.now) }
    {
        match &self.current_template {
            Some(current) => current.as_str() == name.as_str(),
            None => false,
        }
    }

    // Returns a copy of a name, in a spare text if there is one.
    fn copy_of(&mut self, name: &String) -> Result<String, AllocError>
        ensures copy { IfOk result (λ copy. string_bytes copy ≡ string_bytes name.now) }
        ensures run { (fs : List Frame) → run_state fs self.new ≡ run_state fs self.old }
        ensures partials { HasSamePartials self.old self.new }
    {
        match self.spare.pop() {
            Some(text) => rewritten(text, name.as_str()),
            None => name.clone(),
        }
    }

    /// Makes an earlier name the current one again, or none. The text of the name that was current is used again later.
    pub fn leave(&mut self, name: Option<String>)
        ensures run { (fs : List Frame) → run_state fs self.new
            ≡ record (run_state fs self.old) { current = option_map string_bytes name } }
        ensures partials { HasSamePartials self.old self.new }
    {
        match mem::replace(&mut self.current_template, name) {
            Some(text) => self.keep(text),
            None => {}
        }
    }

    // Keeps a text to be used again. If memory runs out, it is dropped.
    fn keep(&mut self, text: String)
        ensures run { (fs : List Frame) → run_state fs self.new ≡ run_state fs self.old }
        ensures partials { HasSamePartials self.old self.new }
    {
        let _kept = self.spare.push(text);
    }

    /// Removes the current name, and returns it.
    pub fn take_name(&mut self) -> Option<String>
        ensures name { option_map string_bytes result ≡ option_map string_bytes self.old.current_template }
        ensures run { (fs : List Frame) → run_state fs self.new ≡ record (run_state fs self.old) { current = None } }
        ensures partials { HasSamePartials self.old self.new }
    {
        self.current_template.take()
    }

    /// Returns whether a name has a local helper. Most runs have no local helpers at all, which is checked first.
    pub fn has_local_helper(&self, name: &str) -> bool
        ensures { (fs : List Frame) → result ≡ is_some ((run_state fs self.now).local name.now) }
    {
        !self.local_helpers.is_empty() && self.local_helpers.contains_key(name)
    }

    /// Returns the local helper of a name, if there is one.
    pub fn local_helper(&self, name: &str) -> Option<&LocalHelper>
        ensures { (fs : List Frame) → option_map (λ l. local_of l.now) result ≡ (run_state fs self.now).local name.now }
    {
        self.local_helpers.get(name)
    }

    /// Binds a name to a local helper.
    ///
    /// # Errors
    ///
    /// Fails if memory runs out. The run is then unchanged.
    pub fn bind_helper(&mut self, name: String, helper: LocalHelper) -> Result<(), AllocError>
        ensures ok { (fs : List Frame) → OnOk result (run_state fs self.new
            ≡ with_local (string_bytes name) (local_of helper) (run_state fs self.old)) }
        ensures err { (fs : List Frame) → OnErr result (run_state fs self.new ≡ run_state fs self.old) }
        ensures partials { HasSamePartials self.old self.new }
    {
        self.local_helpers.insert(name, helper)?;
        Ok(())
    }

    /// Removes the local helper of a name, if there is one.
    pub fn unbind_helper(&mut self, name: &str)
        ensures run { (fs : List Frame) → run_state fs self.new ≡ without_local name.now (run_state fs self.old) }
        ensures partials { HasSamePartials self.old self.new }
    {
        self.local_helpers.remove(name);
    }
}

// Returns the text with these contents in place of its own.
fn rewritten(text: String, contents: &str) -> Result<String, AllocError>
    ensures { IfOk result (λ text. string_bytes text ≡ contents.now) }
{
    let mut text = text;
    text.clear();
    text.push_str(contents)?;
    Ok(text)
}
