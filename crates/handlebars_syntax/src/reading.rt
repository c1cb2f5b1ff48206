//! How far the grammar's reader gets in an expression.

use crate::opening::TagKind;
use crate::range::before;
use handlebars_base::json::path::marks::after_white;
use handlebars_expressions::expression::{Event, ExpressionState, Phase, Step, take_step};
use std::alloc::{AllocError, Global};

/// Where the reading of an expression stops, and what was read until then.
#[derive(Clone, Copy)]
pub struct Stop<'a> {
    /// Whether the expression ends there. Otherwise nothing is there with which it may continue.
    pub ended: bool,
    /// The name of the expression, empty if none was read.
    pub head: &'a str,
    /// Whether it may have parameters.
    pub takes_items: bool,
    /// How many items were read after the name, outside parentheses.
    pub items: usize,
    /// The text of the last literal, path, name or call.
    pub last: &'a str,
    /// What follows the outermost parenthesis that is open, with it.
    pub call: Option<&'a str>,
    pub rest: &'a str,
}

impl<'a> Stop<'a> {
    ghost use Rattle.std.specs.Prelude.{◌≡◌};

    // Before anything is read.
    fn before(text: &'a str) -> Stop<'a> {
        Stop {
            ended: false,
            head: "",
            takes_items: true,
            items: 0,
            last: "",
            call: None,
            rest: text,
        }
    }

    // After the name of the expression.
    fn after_name(self, raw: &'a str) -> Stop<'a> {
        Stop {
            head: raw,
            last: raw,
            ..self
        }
    }

    // After an item, which began at this text.
    fn after_item(self, begins: &'a str, after: &'a str) -> Stop<'a> {
        Stop {
            items: self.items.saturating_add(1),
            last: before(begins, after),
            call: None,
            ..self
        }
    }

    // After a step that took an event, from the level before it to the one after it.
    fn after_event(
        self,
        event: Event<'a>,
        state: ExpressionState,
        next: ExpressionState,
        after: &'a str,
    ) -> Stop<'a>
        ensures { result.rest.now ≡ after.now }
    {
        let begins = after_white(self.rest);
        let stop = match event {
            Event::Name(raw) => self.after_name(raw),
            Event::Path(_, raw, _) | Event::Literal(_, raw, _) => {
                if matches!(state.phase, Phase::Name(_)) && state.level == 0 {
                    self.after_name(raw)
                } else if state.level == 0 {
                    self.after_item(begins, after)
                } else {
                    Stop { last: raw, ..self }
                }
            }
            Event::Opened(_, _) => {
                if state.level == 0 {
                    Stop {
                        call: Some(begins),
                        last: "",
                        ..self
                    }
                } else {
                    Stop { last: "", ..self }
                }
            }
            Event::Closed => match (next.level, self.call) {
                (0, Some(call)) => self.after_item(call, after),
                _ => Stop { last: "", ..self },
            },
        };
        Stop {
            takes_items: !matches!(next.phase, Phase::End),
            rest: after,
            ..stop
        }
    }
}

/// Reads the expression of a tag of this kind as far as it goes. Runs in time linear in what is read.
///
/// # Errors
///
/// Fails if memory runs out.
pub fn read_terms<'a>(alloc: Global, kind: TagKind, text: &'a str) -> Result<Stop<'a>, AllocError> {
    let mut stop = Stop::before(text);
    let mut state = ExpressionState::first(kind.mode());
    // Each parenthesis is a byte of the text.
    'steps: while state.level <= text.len() {
        match take_step(alloc, kind.enclosure(), state, stop.rest)? {
            Step::Goes(event, next, after) => {
                stop = stop.after_event(event, state, next, after);
                state = next;
            }
            Step::Ends => return Ok(Stop {
                ended: true,
                ..stop
            }),
            Step::Stuck => return Ok(stop),
        }
    }
    Ok(stop)
}
