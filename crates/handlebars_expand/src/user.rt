//! What user-defined helpers choose.

use handlebars_base::json::value::Json;
use handlebars_helpers::user::HelperStep;

/// What a user-defined helper chose.
#[derive(Drop)]
pub enum UserChoice {
    Steps(Vec<HelperStep>),
    Value(Json),
    Nothing,
}
