//! Which helpers, decorators and texts are blind.

ghost use Rattle.std.specs.Prelude.{◌≡◌, not};
ghost use Rattle.handlebars_base.specs.Bytes.{Text};
ghost use Rattle.handlebars_base.specs.EscapeLaws.{is_mark, marks_in};
ghost use Rattle.handlebars_helpers.specs.DecoratorsView.{decorator_called};
ghost use Rattle.handlebars_helpers.specs.UserView.{callee_of};
ghost use Rattle.handlebars_helpers.specs.View.{built_in_kind};
ghost use Rattle.handlebars_markup.specs.Blind.{calls_blind, decorates_blind, is_blind, is_blind_callee, is_blind_decorator};
ghost use Rattle.handlebars_markup.specs.Faults.{marked_indent, unless, whys_of_marks};

use handlebars_helpers::built_in::BuiltIn;
use handlebars_helpers::decorators::DecoratorKind;
use handlebars_helpers::entries::UserParts;
use handlebars_helpers::user::Callee;

/// Returns whether what is registered under a name of helpers, if anything is, makes no choice by a text.
pub fn calls_blind<E: UserParts>(entries: &E, name: &str) -> bool
    ensures { result ≡ calls_blind (E.registered entries.now) name.now }
{
    match entries.helper(name) {
        Some(callee) => is_blind_callee(callee),
        None => true,
    }
}

/// Returns whether what is registered under a name of decorators, if anything is, is `inline`.
pub fn decorates_blind<E: UserParts>(entries: &E, name: &str) -> bool
    ensures { result ≡ decorates_blind (E.registered entries.now) name.now }
{
    match entries.decorator(name) {
        Some(kind) => is_blind_decorator(kind),
        None => true,
    }
}

/// Returns whether an indentation has marks of html.
pub fn has_marks(text: &str) -> bool
    ensures { whys_of_marks (marks_in text.now) ≡ unless (not result) marked_indent }
{
    for byte in text.as_bytes() {
        if is_mark(*byte) {
            return true;
        }
    }
    false
}

fn is_blind_callee(callee: Callee) -> bool
    ensures { (name : Text) → result ≡ is_blind_callee (callee_of name callee) }
{
    match callee {
        Callee::Built(kind) => is_blind(kind),
        Callee::User => false,
    }
}

fn is_blind_decorator(kind: DecoratorKind) -> bool
    ensures { (name : Text) → result ≡ is_blind_decorator (decorator_called name kind) }
{
    match kind {
        DecoratorKind::Inline => true,
        DecoratorKind::User => false,
    }
}

fn is_blind(kind: BuiltIn) -> bool
    ensures { result ≡ is_blind (built_in_kind kind) }
{
    match kind {
        BuiltIn::If => true,
        BuiltIn::Unless => true,
        BuiltIn::Each => true,
        BuiltIn::With => true,
        BuiltIn::Raw => true,
        BuiltIn::And => true,
        BuiltIn::Or => true,
        BuiltIn::Not => true,
        BuiltIn::Lookup => false,
        BuiltIn::Log => false,
        BuiltIn::Eq => false,
        BuiltIn::Ne => false,
        BuiltIn::Gt => false,
        BuiltIn::Gte => false,
        BuiltIn::Lt => false,
        BuiltIn::Lte => false,
        BuiltIn::Len => false,
    }
}

fn is_mark(byte: u8) -> bool
    ensures { result ≡ is_mark byte }
{
    byte == b'<' || byte == b'>' || byte == b'"' || byte == b'\'' || byte == b'`' || byte == b'='
}
