//! An iteration of `each`.

use handlebars_base::json::value::Json;

/// One iteration of `each`: a member, with its index, from 0, and its key, if it is one of an object.
#[derive(Clone, Copy)]
pub struct Iteration<'h> {
    pub index: usize,
    pub key: Option<&'h str>,
    pub last: bool,
    pub member: &'h Json,
}
