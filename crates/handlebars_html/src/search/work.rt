//! In which order the rows of a table are read. It decides only how fast a search ends, so no contract speaks of it.

use crate::found::Found;
use crate::lists::push;
use std::alloc::{AllocError, Global};

/// The number of the pages, as what is read. A row of the table has the number behind its place.
pub const PAGES: usize = 0;

/// What is to be read, the last first, and what is to be read again if more is known of a row.
pub struct Work {
    alloc: Global,
    stack: Vec<usize>,
    // Whether it is in the stack.
    is_waiting: Vec<bool>,
    // By what a row was read: it is read again if the row has another end.
    readers: Vec<Vec<usize>>,
    // In what inline partials stand: it is read again if one of them may be included elsewhere.
    with_inlines: Vec<usize>,
}

// Not derived, so that each drop of one is a single call.
impl Drop for Work {
    fn drop(self) {
        let Work {
            alloc: _,
            stack: _,
            is_waiting: _,
            readers: _,
            with_inlines: _,
        } = self;
    }
}

impl Work {
    /// Returns no work.
    pub fn new(alloc: Global) -> Work {
        Work {
            alloc,
            stack: Vec::new(alloc),
            is_waiting: Vec::new(alloc),
            readers: Vec::new(alloc),
            with_inlines: Vec::new(alloc),
        }
    }

    /// Adds what is to be read next, unless it is waiting.
    ///
    /// # Errors
    ///
    /// Fails if memory runs out.
    pub fn add(&mut self, next: usize) -> Result<(), AllocError> {
        for _ in self.is_waiting.len()..next.saturating_add(1) {
            push(&mut self.is_waiting, false)?;
        }
        match self.is_waiting.get_mut(next) {
            Some(is_waiting) => if std::mem::replace(is_waiting, true) {
                Ok(())
            } else {
                push(&mut self.stack, next)
            },
            None => Ok(()),
        }
    }

    fn add_all(&mut self, all: &[usize]) -> Result<(), AllocError> {
        for next in all {
            self.add(*next)?;
        }
        Ok(())
    }

    /// Takes what is to be read next.
    pub fn take(&mut self) -> Option<usize> {
        let next = self.stack.pop()?;
        if let Some(is_waiting) = self.is_waiting.get_mut(next) {
            *is_waiting = false;
        }
        Some(next)
    }

    /// Adds what is read again if the row at this place has another end.
    ///
    /// # Errors
    ///
    /// Fails if memory runs out.
    pub fn add_reader(&mut self, place: usize, reader: usize) -> Result<(), AllocError> {
        for _ in self.readers.len()..place.saturating_add(1) {
            push(&mut self.readers, Vec::new(self.alloc))?;
        }
        match self.readers.get_mut(place) {
            Some(readers) => push(readers, reader),
            None => Ok(()),
        }
    }

    /// Notes the rows by which something was included where it was read, and whether there were inline partials.
    ///
    /// # Errors
    ///
    /// Fails if memory runs out.
    pub fn note(&mut self, reader: usize, found: &Found) -> Result<(), AllocError> {
        for place in &found.places {
            self.add_reader(*place, reader)?;
        }
        if found.has_inlines {
            return push(&mut self.with_inlines, reader);
        }
        Ok(())
    }

    /// Adds all by which the row at this place was read.
    ///
    /// # Errors
    ///
    /// Fails if memory runs out.
    pub fn add_readers(&mut self, place: usize) -> Result<(), AllocError> {
        match self.readers.get_mut(place) {
            Some(readers) => {
                let readers = std::mem::replace(readers, Vec::new(self.alloc));
                self.add_all(&readers)
            }
            None => Ok(()),
        }
    }

    /// Adds all in which inline partials stand.
    ///
    /// # Errors
    ///
    /// Fails if memory runs out.
    pub fn add_inlines(&mut self) -> Result<(), AllocError> {
        let all = std::mem::replace(&mut self.with_inlines, Vec::new(self.alloc));
        self.add_all(&all)
    }
}
