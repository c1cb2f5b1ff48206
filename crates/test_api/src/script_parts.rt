//! The user-defined parts that a script registers.

use handlebars::{DecoratorDef, EscapeFn, HelperDef};
use std::alloc::Global;
use std::collections::VecDeque;
use test_steps::answer::Stop;
use test_steps::held::had;

/// The parts that a script has not registered yet, in the order of its steps.
pub struct ScriptParts {
    helpers: VecDeque<Box<dyn HelperDef>>,
    decorators: VecDeque<Box<dyn DecoratorDef>>,
    escapes: VecDeque<Box<dyn EscapeFn>>,
}

impl Drop for ScriptParts {
    fn drop(self) {
        let ScriptParts {
            helpers: _,
            decorators: _,
            escapes: _,
        } = self;
    }
}

impl ScriptParts {
    pub fn new(alloc: Global) -> ScriptParts {
        ScriptParts {
            helpers: VecDeque::new(alloc),
            decorators: VecDeque::new(alloc),
            escapes: VecDeque::new(alloc),
        }
    }

    pub fn add_helper(&mut self, helper: Box<dyn HelperDef>) -> Result<(), Stop> {
        had(self.helpers.push_back(helper))
    }

    pub fn add_decorator(&mut self, decorator: Box<dyn DecoratorDef>) -> Result<(), Stop> {
        had(self.decorators.push_back(decorator))
    }

    pub fn add_escape(&mut self, escape: Box<dyn EscapeFn>) -> Result<(), Stop> {
        had(self.escapes.push_back(escape))
    }

    pub fn next_helper(&mut self) -> Option<Box<dyn HelperDef>> {
        self.helpers.pop_front()
    }

    pub fn next_decorator(&mut self) -> Option<Box<dyn DecoratorDef>> {
        self.decorators.pop_front()
    }

    pub fn next_escape(&mut self) -> Option<Box<dyn EscapeFn>> {
        self.escapes.pop_front()
    }
}
