//! Writing a text, for callers.

ghost use Rattle.std.specs.Prelude.{◌≡◌, OnErr};
ghost use Rattle.handlebars_scope.specs.LineView.{line_of};
ghost use Rattle.handlebars_context.specs.View.{state_of, IsUnchanged};
ghost use Rattle.handlebars_expand.specs.View.{with_line};
ghost use Rattle.handlebars_write.specs.Writes.{PutsText};
ghost use Rattle.handlebars.specs.Moments.{first_moment};

use handlebars_base::error::RenderError;
use handlebars_base::output::Output;
use handlebars_context::context::RenderContext;
use handlebars_scope::line::LineState;
use handlebars_write::value::indent_aware_write as write_in_line;

/// Writes a text with no indentation, and updates the state of the line.
///
/// # Errors
///
/// Fails if the output does, or if memory runs out. The context is then unchanged. A prefix of the text may have been
/// written.
pub fn indent_aware_write<O: Output>(
    text: &str,
    rc: &mut RenderContext,
    out: &mut O,
) -> Result<(), RenderError>
    ensures puts { PutsText text.now O.may_give (first_moment rc.old (O.held out.old)) result
        (first_moment rc.new (O.held out.new)) }
    ensures unchanged { IsUnchanged rc.old rc.new }
    ensures write_error { OnErr result (rc.new ≡ rc.old) }
{
    let mut line = line_in(rc);
    match write_in_line(text, &mut line, out) {
        Ok(()) => {
            set_line(rc, line);
            Ok(())
        }
        Err(e) => Err(e),
    }
}

// Returns the state of the line of a context.
fn line_in(rc: &RenderContext) -> LineState
    ensures { line_of result ≡ (state_of rc.now).line }
{
    LineState {
        before: rc.get_indent_before_write(),
        trailing: rc.get_trailine_newline(),
        produced: rc.get_content_produced(),
    }
}

// Sets the state of the line of a context.
fn set_line(rc: &mut RenderContext, line: LineState)
    ensures state { state_of rc.new ≡ with_line (line_of line) (state_of rc.old) }
    ensures unchanged { IsUnchanged rc.old rc.new }
{
    rc.set_indent_before_write(line.before);
    rc.set_trailing_newline(line.trailing);
    rc.set_content_produced(line.produced);
}
