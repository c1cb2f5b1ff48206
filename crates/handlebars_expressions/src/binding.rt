//! Block parameters, as in `as |item index|`, after the items of an expression.

ghost use Rattle.std.specs.Prelude.{◌≡◌, MatchOption};
ghost use Rattle.std.specs.Option.{option_map};
ghost use Rattle.handlebars_expressions.specs.Binding.{after_bar, after_beginning, IsBinding, NoBinding};
ghost use Rattle.handlebars_expressions.specs.BindingView.{bound_names_of};

use handlebars_base::json::path::marks::{after_byte, after_white, starts_white, symbols};

/// The names that a block gives to what it shows.
#[derive(Clone, Copy, Debug)]
pub enum BoundNames<'a> {
    Unbound,
    Bound(&'a str),
    BothBound(&'a str, &'a str),
}

/// The names that are bound, and what follows them.
#[derive(Clone, Copy, Debug)]
pub struct BindingToken<'a> {
    pub means: BoundNames<'a>,
    pub rest: &'a str,
}

#[tactic(auto, unfolding(crate::specs::Binding::after_bar))]
fn after_bar(text: &str) -> Option<&str>
    ensures { option_map (λ rest. rest.now) result ≡ after_bar text.now }
{
    let (word, rest) = symbols(text);
    if word == "as" {
        after_byte(b'|', after_white(rest))
    } else {
        None
    }
}

/// Returns what follows the first bar, if block parameters begin here.
#[tactic(auto, unfolding(crate::specs::Binding::after_beginning))]
pub(crate) fn after_beginning(text: &str) -> Option<&str>
    ensures { option_map (λ rest. rest.now) result ≡ after_beginning text.now }
{
    if starts_white(text) {
        after_bar(after_white(text))
    } else {
        None
    }
}

/// Returns the block parameters at the start of a text that follows the items of an expression. Nothing is bound if none begin
/// there. Returns `None` if they begin there and are not well-formed.
pub fn split_binding(text: &str) -> Option<BindingToken<'_>>
    ensures { MatchOption result (NoBinding text.now)
        (λ token. IsBinding text.now (bound_names_of token.means) token.rest.now) }
{
    let Some(rest) = after_beginning(text) else {
        return Some(BindingToken {
            means: BoundNames::Unbound,
            rest: text,
        });
    };
    let (name, rest) = symbols(after_white(rest));
    if name.is_empty() {
        return None;
    }
    let rest = after_white(rest);
    if let Some(rest) = after_byte(b'|', rest) {
        return Some(BindingToken {
            means: BoundNames::Bound(name),
            rest,
        });
    }
    let (other, rest) = symbols(rest);
    if other.is_empty() {
        return None;
    }
    let rest = after_byte(b'|', after_white(rest))?;
    Some(BindingToken {
        means: BoundNames::BothBound(name, other),
        rest,
    })
}
