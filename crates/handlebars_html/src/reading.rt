//! What a template is read by.

use crate::found::Location;
use crate::rows::Table;
use crate::user::UserDefined;
use std::alloc::Global;

/// What an element of a template is read by, and where it is.
#[derive(Clone, Copy)]
pub struct Reading<'t> {
    pub alloc: Global,
    pub user: &'t UserDefined,
    /// What is known of names that are included.
    pub table: &'t Table,
    pub location: Location<'t>,
}
