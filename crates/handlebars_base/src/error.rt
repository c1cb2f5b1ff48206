//! Why a template is rejected, and why a rendering fails.

mod render_error;
mod template_error;

pub use render_error::{RenderError, RenderErrorReason};
pub use template_error::{TemplateError, TemplateErrorReason};
