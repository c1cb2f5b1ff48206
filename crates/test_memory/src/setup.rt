//! The setup of a rendering, created twice, and what holds after a rendering.

use crate::outcome::Stop;
use crate::pair::Pair;
use crate::test_case::TestCase;
use handlebars::{
    RenderContext, RenderError, RenderErrorReason, Renderable, StringOutput, Template,
};
use log::sink::Discard;
use std::alloc::Global;

/// What a test case is rendered with, and another pair that is created identically.
pub struct Both {
    pub pair: Pair,
    pub other: Pair,
}

impl Drop for Both {
    fn drop(self) {
        let Both { pair: _, other: _ } = self;
    }
}

impl Both {
    /// Creates those of a test case, without user-defined helpers and decorators.
    pub fn of(alloc: Global, test_case: &TestCase) -> Result<Both, Stop> {
        let pair = pair_of(alloc, test_case)?;
        let other = pair_of(alloc, test_case)?;
        Ok(Both { pair, other })
    }

    /// Returns whether nothing has changed.
    pub fn holds(&self) -> bool {
        self.pair.is_like(&self.other)
    }
}

fn pair_of(alloc: Global, test_case: &TestCase) -> Result<Pair, Stop> {
    let mut pair = Pair::over(alloc, test_case.data)?;
    pair.registry.set_strict_mode(test_case.strict);
    if let Some((name, source)) = test_case.partial {
        pair.registry.register_partial(name, source)?;
    }
    Ok(pair)
}

/// A tree, and a context in which it is rendered.
pub struct Scene {
    pub template: Template,
    pub rc: RenderContext,
}

impl Drop for Scene {
    fn drop(self) {
        let Scene { template: _, rc: _ } = self;
    }
}

impl Scene {
    /// Creates the tree of a source, and a new context.
    pub fn of(alloc: Global, source: &str) -> Result<Scene, Stop> {
        let rc = RenderContext::new(alloc, None)?;
        match Template::compile(alloc, source) {
            Ok(template) => Ok(Scene { template, rc }),
            Err(error) => Err(Stop::from(error)),
        }
    }

    /// Returns whether the context has failed exactly if there was an error, and has failed for good. Registry and data must be
    /// unchanged.
    pub fn holds(&mut self, alloc: Global, both: &Both, failed: bool) -> bool {
        self.rc.has_failed() == failed
            && (!failed || self.stays_failed(alloc, &both.pair))
            && both.holds()
    }

    // Returns whether the context reports that it has failed, and writes nothing.
    fn stays_failed(&mut self, alloc: Global, pair: &Pair) -> bool {
        let mut out = StringOutput::new(alloc);
        has_failed(&self.write(alloc, pair, &mut out))
            && has_failed(&self.text(alloc, pair))
            && out.into_string().is_empty()
    }

    /// Renders the tree to an output.
    pub fn write(
        &mut self,
        alloc: Global,
        pair: &Pair,
        out: &mut StringOutput,
    ) -> Result<(), RenderError> {
        let Scene { template, rc } = self;
        template.render(alloc, &pair.registry, &pair.data, rc, out, &Discard)
    }

    /// Returns the text that the tree renders to.
    pub fn text(&mut self, alloc: Global, pair: &Pair) -> Result<String, RenderError> {
        let Scene { template, rc } = self;
        template.renders(alloc, &pair.registry, &pair.data, rc, &Discard)
    }
}

/// Returns whether the error is that the context has failed.
pub fn has_failed<T>(answer: &Result<T, RenderError>) -> bool {
    match answer {
        Ok(_) => false,
        Err(error) => matches!(error.reason(), RenderErrorReason::Failed),
    }
}
