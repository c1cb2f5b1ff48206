//! Items of a list that is held whole.

ghost use Rattle.std.specs.Prelude.{◌≡◌, ◌≢◌, ◌-◌, [], IfErr, IfOk, None, map, true};
ghost use Rattle.serde_json.specs.View.{view};
ghost use Rattle.serde_json.specs.Written.{has_float};
ghost use Rattle.handlebars_scope.specs.Contexts.{data_of};
ghost use Rattle.hb.specs.Advances.{AdvancesList, RestartsList, SkipsList, current_in, members_in};
ghost use Rattle.hb_command.specs.Failures.{kind_of};
ghost use Rattle.hb.specs.Frames.{alone_at};
ghost use Rattle.hb_command.specs.declared.failure.Kind.TheVariants.{OutOfMemory};

use crate::frame::with_index;
use crate::items::Items;
use crate::message::out_of_range;
use handlebars::{Context, RenderContext};
use hb_command::failure::Failure;
use serde_json::Value;
use std::alloc::{AllocError, Global};

/// The members of a list. The templates of an item are rendered over the item alone.
pub struct ListItems<'l> {
    alloc: Global,
    list: &'l [Value],
    // The index of the next item.
    next: usize,
    current: Option<Context>,
}

// Not derived, so that each drop of one is a single call.
impl Drop for ListItems<'_> {
    fn drop(self) {
        let ListItems {
            alloc: _,
            list: _,
            next: _,
            current: _,
        } = self;
    }
}

impl<'l> ListItems<'l> {
    /// Returns the items of a list, before the first one.
    pub fn new(alloc: Global, list: &'l [Value]) -> ListItems<'l>
        ensures members { members_in result ≡ map view list.now }
        ensures next { result.next ≡ 0 }
        ensures current { current_in result ≡ None }
    {
        ListItems {
            alloc,
            list,
            next: 0,
            current: None,
        }
    }
}

impl Items for ListItems<'_> {
    ghost rewinds = { RestartsList };

    ghost advances = { AdvancesList };

    ghost skips = { SkipsList };

    ghost given = { current_in };

    ghost begins = { λ s. alone_at (s.next - 1) };

    fn rewind(&mut self) -> Result<(), Failure> {
        self.next = 0;
        self.current = None;
        Ok(())
    }

    fn advance(&mut self) -> Result<bool, Failure> {
        self.current = None;
        match self.list.get(self.next) {
            Some(item) => {
                self.current = Some(context_of(self.alloc, item)?);
                self.next += 1;
                Ok(true)
            }
            None => Ok(false),
        }
    }

    fn skip(&mut self) -> Result<bool, Failure> {
        self.current = None;
        if self.next < self.list.len() {
            self.next += 1;
            Ok(true)
        } else {
            Ok(false)
        }
    }

    fn data(&self) -> Option<&Context> {
        self.current.as_ref()
    }

    fn context(&self, alloc: Global) -> Result<RenderContext, AllocError> {
        with_index(alloc, self.next.saturating_sub(1) as u64)
    }
}

// The data of an item.
fn context_of(alloc: Global, item: &Value) -> Result<Context, Failure>
    ensures ok { IfOk result (λ c. data_of c ≡ view item.now) }
    ensures err { IfErr result (λ f. kind_of f ≢ OutOfMemory → has_float (view item.now) ≡ true) }
{
    match Context::try_from(item.clone()?) {
        Ok(data) => Ok(data),
        Err(cause) => Err(out_of_range(alloc, &cause)),
    }
}
