//! The results of a test case, one for each render call.

ghost use Rattle.std.specs.Prelude.{◌≡◌, ◌&&◌, IfOk, IsTrue, IfSome, is_some, string_bytes};
ghost use Rattle.test_cases.specs.Pieces.{text_of};
ghost use Rattle.test_cases.specs.Expected.{IsReturned, IsEmitted, IsWritten};
ghost use Rattle.test_cases.specs.RenderCalls.{has_output, has_pieces, has_text, has_writer, is_rendered_over};

use crate::render_calls;
use handlebars::JsonValue;
use std::alloc::{AllocError, Global};
use std::fmt;
use test_cases::came::Came;
use test_cases::expected::Expected;
use test_cases::rendering::{Over, Rendering};

/// The results of a test case, one for each render call that it asks for.
pub struct Answer {
    /// What the registry returns over a context.
    pub registry: Option<Came>,
    /// What the registry returns over data that it converts.
    pub converted: Option<Came>,
    /// What the template writes to an output.
    pub template: Option<Came>,
    /// What the registry writes to a writer, over a context.
    pub writer: Option<Came>,
    /// What the registry writes to a writer, over data that it converts.
    pub converting: Option<Came>,
    /// What the registry emits to an output of pieces, over a context.
    pub pieces: Option<Came>,
}

impl Drop for Answer {
    fn drop(self) {
        let Answer {
            registry: _,
            converted: _,
            template: _,
            writer: _,
            converting: _,
            pieces: _,
        } = self;
    }
}

impl Answer {
    /// Renders a test case over data, by each render call that it asks for.
    pub fn of(
        alloc: Global,
        test_case: &Rendering<'_>,
        data: &JsonValue,
    ) -> Result<Answer, AllocError>
        ensures registry { IfOk result (λ a. is_some a.registry
            ≡ (has_text test_case.now && is_rendered_over (Over.Context) test_case.now)) }
        ensures converted { IfOk result (λ a. is_some a.converted
            ≡ (has_text test_case.now && is_rendered_over (Over.Value) test_case.now)) }
        ensures template { IfOk result (λ a. is_some a.template ≡ has_output test_case.now) }
        ensures writer { IfOk result (λ a. is_some a.writer
            ≡ (has_writer test_case.now && is_rendered_over (Over.Context) test_case.now)) }
        ensures converting { IfOk result (λ a. is_some a.converting
            ≡ (has_writer test_case.now && is_rendered_over (Over.Value) test_case.now)) }
        ensures pieces { IfOk result (λ a. is_some a.pieces ≡ has_pieces test_case.now) }
        ensures joined { IfOk result (λ a. IfSome a.pieces (λ came.
            string_bytes came.text ≡ text_of came.pieces.items)) }
    {
        let registry = returned(alloc, test_case, data, Over::Context)?;
        let converted = returned(alloc, test_case, data, Over::Value)?;
        let template = written_to_output(alloc, test_case, data)?;
        let writer = written(alloc, test_case, data, Over::Context)?;
        let converting = written(alloc, test_case, data, Over::Value)?;
        let pieces = emitted(alloc, test_case, data)?;
        Ok(Answer {
            registry,
            converted,
            template,
            writer,
            converting,
            pieces,
        })
    }

    /// Returns whether all results are the expected ones.
    pub fn comes_to(&self, expected: &Expected<'_>) -> bool
        ensures registry { IsTrue result → IfSome self.now.registry
            (λ came. IsReturned came expected.now) }
        ensures converted { IsTrue result → IfSome self.now.converted
            (λ came. IsReturned came expected.now) }
        ensures template { IsTrue result → IfSome self.now.template
            (λ came. IsWritten came expected.now) }
        ensures writer { IsTrue result → IfSome self.now.writer
            (λ came. IsWritten came expected.now) }
        ensures converting { IsTrue result → IfSome self.now.converting
            (λ came. IsWritten came expected.now) }
        ensures pieces { IsTrue result → IfSome self.now.pieces (λ came. IsEmitted came expected.now) }
    {
        is_returned(&self.registry, expected)
            && is_returned(&self.converted, expected)
            && is_written(&self.template, expected)
            && is_written(&self.writer, expected)
            && is_written(&self.converting, expected)
            && is_emitted(&self.pieces, expected)
    }

    /// Prints all results, with the marks of texts if marks are expected, and with the pieces if pieces are expected.
    pub fn show<W: fmt::Write>(
        &self,
        f: &mut fmt::Formatter<W>,
        expected: &Expected<'_>,
    ) -> fmt::Result {
        if let Some(came) = &self.registry {
            came.show_returned(f, "registry:  ", expected)?;
        }
        if let Some(came) = &self.converted {
            came.show_returned(f, "converted: ", expected)?;
        }
        if let Some(came) = &self.template {
            came.show_written(f, "template:  ", expected, false)?;
        }
        if let Some(came) = &self.writer {
            came.show_written(f, "writer:    ", expected, false)?;
        }
        if let Some(came) = &self.converting {
            came.show_written(f, "converting:", expected, false)?;
        }
        match &self.pieces {
            Some(came) => came.show_written(f, "pieces:    ", expected, true),
            None => Ok(()),
        }
    }
}

fn is_returned(came: &Option<Came>, expected: &Expected<'_>) -> bool
    ensures { IsTrue result → IfSome came.now (λ came. IsReturned came expected.now) }
{
    match came {
        Some(came) => came.is_returned(expected),
        None => true,
    }
}

fn is_written(came: &Option<Came>, expected: &Expected<'_>) -> bool
    ensures { IsTrue result → IfSome came.now (λ came. IsWritten came expected.now) }
{
    match came {
        Some(came) => came.is_written(expected),
        None => true,
    }
}

fn is_emitted(came: &Option<Came>, expected: &Expected<'_>) -> bool
    ensures { IsTrue result → IfSome came.now (λ came. IsEmitted came expected.now) }
{
    match came {
        Some(came) => came.is_emitted(expected),
        None => true,
    }
}

fn returned(
    alloc: Global,
    test_case: &Rendering<'_>,
    data: &JsonValue,
    over: Over,
) -> Result<Option<Came>, AllocError>
    ensures { IfOk result (λ came. is_some came ≡ (has_text test_case.now && is_rendered_over over test_case.now)) }
{
    match test_case.has_text() && test_case.is_over(over) {
        true => Ok(Some(render_calls::returned(alloc, test_case, data, over)?)),
        false => Ok(None),
    }
}

fn written(
    alloc: Global,
    test_case: &Rendering<'_>,
    data: &JsonValue,
    over: Over,
) -> Result<Option<Came>, AllocError>
    ensures { IfOk result (λ came. is_some came ≡ (has_writer test_case.now && is_rendered_over over test_case.now)) }
{
    match test_case.has_writer() && test_case.is_over(over) {
        true => Ok(Some(render_calls::written(alloc, test_case, data, over)?)),
        false => Ok(None),
    }
}

fn written_to_output(
    alloc: Global,
    test_case: &Rendering<'_>,
    data: &JsonValue,
) -> Result<Option<Came>, AllocError>
    ensures { IfOk result (λ came. is_some came ≡ has_output test_case.now) }
{
    match test_case.has_output() {
        true => Ok(Some(render_calls::written_to_output(alloc, test_case, data)?)),
        false => Ok(None),
    }
}

fn emitted(
    alloc: Global,
    test_case: &Rendering<'_>,
    data: &JsonValue,
) -> Result<Option<Came>, AllocError>
    ensures asked { IfOk result (λ came. is_some came ≡ has_pieces test_case.now) }
    ensures joined { IfOk result (λ came. IfSome came (λ came.
        string_bytes came.text ≡ text_of came.pieces.items)) }
{
    match test_case.has_pieces() {
        true => Ok(Some(render_calls::emitted(alloc, test_case, data)?)),
        false => Ok(None),
    }
}
