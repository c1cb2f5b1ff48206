//! What is left of a call once its helper has chosen: bodies, or the steps of a user-defined helper, which write texts too.

use handlebars_helpers::user::HelperStep;
use handlebars_values::param_value::ParamValue;

/// What is left to be rendered of a call.
#[derive(Drop)]
pub enum Next<'v> {
    Nothing,
    Body,
    Inverse,
    /// The body, in the scope frame of `with` at this value.
    With(ParamValue<'v>),
    /// The body, in an iteration for each member of this value.
    Each(ParamValue<'v>),
    /// The steps of a user-defined helper.
    Steps(Vec<HelperStep>),
    /// The whole call: a block whose name has no helper, and which may be a section.
    Section,
}
