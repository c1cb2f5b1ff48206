//! User-defined escape functions.

ghost use Rattle.std.specs.Prelude.{string_bytes};
ghost use Rattle.handlebars_base.specs.Answers.{Answer};
ghost use Rattle.handlebars_base.specs.Bytes.{Text};
ghost use Rattle.handlebars_helpers.specs.UserHelper.{HasOne};
ghost use Rattle.handlebars_helpers.specs.UserView.{IsOneOf};

use handlebars_base::error::RenderError;

/// A user-defined escape function.
pub trait EscapeFn: Drop {
    // The answers that the function has for a text.
    ghost has_escaped: { Self → Text → Answer Text → Type 0 };

    /// Returns what is written in place of a text.
    fn escape(&self, text: &str) -> Result<String, RenderError>
        ensures { IsOneOf (has_escaped self.now text.now) string_bytes result };

    // The function has at most one answer for each text.
    ghost one_escaped: { (e : Self) (t : Text) → HasOne (has_escaped e t) };
}
