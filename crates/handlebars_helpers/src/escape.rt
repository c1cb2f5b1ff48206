//! How values are escaped.

ghost use Rattle.std.specs.Prelude.{◌≡◌, string_bytes};
ghost use Rattle.handlebars_base.specs.Answers.{Answer};
ghost use Rattle.handlebars_base.specs.Bytes.{Text};
ghost use Rattle.handlebars_helpers.specs.EscapeView.{escaping_of, kind_escaping};
ghost use Rattle.handlebars_helpers.specs.UserHelper.{HasOne};
ghost use Rattle.handlebars_helpers.specs.UserView.{IsOneOf};

pub mod def;

use crate::escape::def::EscapeFn;
use handlebars_base::error::RenderError;

/// How the text of a value is escaped before it is written. User-defined escape functions are stored as `X`.
#[derive(Drop)]
pub enum EscapeKindOf<X> {
    /// With the entities of html, as `escape_html` does.
    Html,
    /// Not at all.
    Plain,
    /// With a user-defined escape function.
    Own(X),
}

/// How the text of a value is escaped before it is written.
pub type EscapeKind = EscapeKindOf<Box<dyn EscapeFn>>;

/// How texts are escaped: for html, not at all, or by a user-defined escape function, which has to be called.
#[derive(Clone, Copy, Debug, PartialEq, Eq)]
pub enum Escaping {
    Html,
    Plain,
    User,
}

impl<X> EscapeKindOf<X> {
    /// Returns which of them it is.
    pub fn escaping(&self) -> Escaping
        ensures { escaping_of result ≡ kind_escaping self.now }
    {
        match self {
            EscapeKindOf::Html => Escaping::Html,
            EscapeKindOf::Plain => Escaping::Plain,
            EscapeKindOf::Own(_) => Escaping::User,
        }
    }
}

/// A user-defined escape function, as it is stored and called.
pub trait EscapePart: Drop {
    ghost has_escaped: { Self → Text → Answer Text → Type 0 };

    /// Returns what is written in place of a text.
    fn escaped(&self, text: &str) -> Result<String, RenderError>
        ensures { IsOneOf (has_escaped self.now text.now) string_bytes result };

    /// Guarantees that no escape function stored so has two answers for one text.
    fn satisfies_law(_registered: &Option<Self>)
        ensures { (e : Self) (t : Text) → HasOne (has_escaped e t) };
}

impl EscapePart for Box<dyn EscapeFn> {
    ghost has_escaped = { λ b. (EscapeFn-box b).has_escaped b.value };

    fn escaped(&self, text: &str) -> Result<String, RenderError> {
        self.escape(text)
    }

    fn satisfies_law(_registered: &Option<Box<dyn EscapeFn>>) {}
}
