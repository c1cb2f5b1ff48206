//! Tables: what is known of names that are included.

ghost use Rattle.std.specs.Prelude.{◌≡◌, OnErr, OnOk, [], is_some, map};
ghost use Rattle.handlebars_html.specs.HtmlView.{html_of};
ghost use Rattle.handlebars_html.specs.Rows as table;
ghost use Rattle.handlebars_html.specs.RowsView.{row_of, rows_of};

use crate::html::Html;
use crate::lists::push;
use crate::same::is_same;
use crate::states::add_copy;
use std::alloc::{AllocError, Global};

/// A row of a table.
pub enum Row {
    /// Something may be included by this name in this state.
    Entering(String, Html),
    /// What is included by this name in the first state may end in the second.
    Leaving(String, Html, Html),
}

// Not derived, so that each drop of one is a single call.
impl Drop for Row {
    fn drop(self) {
        match self {
            Row::Entering(_, _) => {}
            Row::Leaving(_, _, _) => {}
        }
    }
}

/// A table: its rows, each once.
#[derive(Drop)]
pub struct Table {
    rows: Vec<Row>,
}

fn is_at(name: &str, state: &Html, other_name: &str, other: &Html) -> bool
    ensures { result ≡ table.is_at name.now (html_of state.now) other_name.now (html_of other.now) }
{
    name == other_name && is_same(state, other)
}

impl Table {
    /// Returns a table without rows.
    pub fn new(alloc: Global) -> Table
        ensures { rows_of result ≡ [] }
    {
        Table {
            rows: Vec::new(alloc),
        }
    }

    /// Returns the rows, in the order in which they were added.
    pub fn rows(&self) -> &[Row]
        ensures { map row_of result.now ≡ rows_of self.now }
    {
        &self.rows
    }

    /// Returns the number of rows.
    pub fn len(&self) -> usize {
        self.rows.len()
    }

    /// Returns the place of the row that says that something may be included by this name in this state, if there is one.
    pub fn place_of(&self, name: &str, state: &Html) -> Option<usize>
        ensures { is_some result ≡ table.has_entering (rows_of self.now) name.now (html_of state.now) }
    {
        'rows: for (place, row) in self.rows.iter().enumerate() {
            if let Row::Entering(other, at) = row {
                if is_at(other.as_str(), at, name, state) {
                    return Some(place);
                }
            }
        }
        None
    }

    /// Returns whether what is included by this name in the first state may end in the second.
    pub fn has_leaving(&self, name: &str, state: &Html, end: &Html) -> bool
        ensures { result ≡ table.is_among (table.leaving_states (rows_of self.now) name.now (html_of state.now)) (html_of end.now) }
    {
        'rows: for row in &self.rows {
            if let Row::Leaving(other, at, there) = row {
                if is_at(other.as_str(), at, name, state) && is_same(there, end) {
                    return true;
                }
            }
        }
        false
    }

    /// Adds the states in which what is included by this name in this state may end, each once.
    ///
    /// # Errors
    ///
    /// Fails if memory runs out.
    pub fn add_leaving_states(
        &self,
        ends: &mut Vec<Html>,
        name: &str,
        state: &Html,
    ) -> Result<(), AllocError>
        ensures { OnOk result (map html_of ends.new.items ≡ table.with_states (map html_of ends.old.items)
            (table.leaving_states (rows_of self.now) name.now (html_of state.now))) }
    {
        'rows: for row in &self.rows {
            match row {
                Row::Entering(_, _) => {}
                Row::Leaving(other, at, there) => {
                    if is_at(other.as_str(), at, name, state) {
                        add_copy(ends, there)?;
                    }
                }
            }
        }
        Ok(())
    }

    fn has_row(&self, row: &Row) -> bool
        ensures { result ≡ table.has_row (rows_of self.now) (row_of row.now) }
    {
        match row {
            Row::Entering(name, state) => self.place_of(name.as_str(), state).is_some(),
            Row::Leaving(name, state, end) => self.has_leaving(name.as_str(), state, end),
        }
    }

    /// Adds a row at the end, unless it is among them.
    ///
    /// # Errors
    ///
    /// Fails if memory runs out; then nothing is added.
    pub fn add(&mut self, row: Row) -> Result<(), AllocError>
        ensures ok { OnOk result (rows_of self.new ≡ table.with_row (rows_of self.old) (row_of row)) }
        ensures err { OnErr result (rows_of self.new ≡ rows_of self.old) }
    {
        if self.has_row(&row) {
            return Ok(());
        }
        push(&mut self.rows, row)
    }
}
