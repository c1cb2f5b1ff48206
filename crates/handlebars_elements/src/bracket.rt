//! The state of the line at the start and at the end of a call or of an inclusion.

ghost use Rattle.std.specs.Prelude.{◌≡◌};
ghost use Rattle.handlebars_template.specs.Tree.{decorator_marks};
ghost use Rattle.handlebars_template.specs.TreeView.{decorator_view};
ghost use Rattle.handlebars_scope.specs.LineView.{line_of};
ghost use Rattle.handlebars_semantics.specs.Means.{line_at, line_in, line_out};

use handlebars_scope::line::LineState;
use handlebars_template::template::DecoratorTemplate;

/// Returns the line at the start of a call, whose tag is marked or not.
pub(crate) fn line_in(line: LineState, marked: bool) -> LineState
    ensures { line_of result ≡ line_in marked (line_of line) }
{
    LineState {
        before: line.before || (marked && line.trailing),
        trailing: line.trailing,
        produced: false,
    }
}

/// Returns the line at the start of an inclusion by this tag.
pub(crate) fn line_at(line: LineState, tag: &DecoratorTemplate) -> LineState
    ensures { line_of result ≡ line_at (decorator_marks (decorator_view tag.now)) (line_of line) }
{
    LineState {
        before: tag.indent_before_write && (line.trailing || tag.indent.is_some()),
        trailing: line.trailing,
        produced: false,
    }
}

/// Returns the line after a call, given the line before the call and the line at its end.
pub(crate) fn line_out(before: LineState, line: LineState) -> LineState
    ensures { line_of result ≡ line_out (line_of before) (line_of line) }
{
    if line.produced {
        LineState {
            before: line.trailing,
            ..line
        }
    } else {
        LineState {
            before: before.before,
            produced: before.produced,
            ..line
        }
    }
}
