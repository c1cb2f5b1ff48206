//! Operators, which this language has none of.

use crate::fault::{Fault, Finding, Form};
use crate::opening::TagKind;
use crate::reading::Stop;
use handlebars_base::json::path::marks::{after_white, symbols};
use handlebars_expressions::expression::path_token;

/// Operators and the helpers that stand for them, the longer ones first.
const COMPARISONS: [(&str, &str); 11] = [
    ("===", "eq"),
    ("!==", "ne"),
    ("==", "eq"),
    ("!=", "ne"),
    ("<=", "lte"),
    (">=", "gte"),
    ("<", "lt"),
    (">", "gt"),
    ("&&", "and"),
    ("||", "or"),
    ("=", "eq"),
];

/// Names that people give to blocks.
const BLOCKS: [&str; 4] = ["if", "unless", "each", "with"];

/// Names that people give to chained inverses.
const CHAINS: [&str; 4] = ["elseif", "elif", "elsif", "elsefi"];

/// Whether a block is called so.
pub fn is_block(name: &str) -> bool {
    is_one_of(&BLOCKS, name)
}

fn is_one_of(names: &[&str], name: &str) -> bool {
    names.iter().any(|known| *known == name)
}

/// Returns how to write a tag whose name is read, with a call after the name, or instead of it if `alone`.
pub fn form_of<'a>(kind: TagKind, head: &'a str, alone: bool) -> Form<'a> {
    let braces = kind.braces();
    if kind != TagKind::Value {
        let block = if alone && kind == TagKind::Block {
            "if"
        } else {
            ""
        };
        return Form {
            sign: kind.sign(),
            head: if alone { block } else { head },
            braces,
        };
    }
    if is_one_of(&CHAINS, head) {
        return Form {
            sign: "{{else ",
            head: "if",
            braces,
        };
    }
    Form {
        sign: if is_block(head) && !alone {
            "{{#"
        } else {
            "{{"
        },
        head: if alone { "" } else { head },
        braces,
    }
}

/// Returns the operator where an expression stops.
pub fn operator<'a>(kind: TagKind, stop: Stop<'a>) -> Option<Finding<'a>> {
    let found = after_white(stop.rest);
    // `x == y` begins as the hash argument `x=` does.
    let (key, after) = symbols(found);
    let sign = after_white(after);
    if !key.is_empty() && sign.starts_with("==") {
        return comparison(form_of(kind, stop.head, false), key, sign);
    }
    let alone = stop.items == 0 && stop.call.is_none();
    let form = form_of(kind, stop.head, alone);
    if let Some(finding) = other_operator(kind, form, stop, found) {
        return Some(finding);
    }
    comparison(form, stop.last, found)
}

// A comparison of what precedes it with what follows.
fn comparison<'a>(form: Form<'a>, left: &'a str, found: &'a str) -> Option<Finding<'a>> {
    if found.starts_with("=>") {
        return None;
    }
    'operators: for (sign, helper) in &COMPARISONS {
        if let Some(after) = found.strip_prefix(*sign) {
            let fault = Fault::Operator(*sign, form, *helper, or_dots(left), operand(after));
            return Some(Finding::at(fault, found, sign.len()));
        }
    }
    None
}

// An operator that no helper of two values stands for.
fn other_operator<'a>(
    kind: TagKind,
    form: Form<'a>,
    stop: Stop<'a>,
    found: &'a str,
) -> Option<Finding<'a>> {
    let is_value = stop.items == 0
        && stop.call.is_none()
        && (kind == TagKind::Value || kind == TagKind::Html);
    if found.starts_with("??") {
        return Some(fallback("??", stop, found));
    }
    if found.starts_with("||") {
        return if is_value {
            Some(fallback("||", stop, found))
        } else {
            None
        };
    }
    if let Some(after) = found.strip_prefix("?.") {
        let (name, _) = symbols(after);
        return Some(Finding::at(Fault::OptionalChain(stop.last, name), found, 2));
    }
    if found.starts_with('?') {
        return Some(Finding::at(Fault::Conditional(or_dots(stop.last)), found, 1));
    }
    if let Some(after) = found.strip_prefix('|') {
        let (name, _) = symbols(after_white(after));
        let helper = or_dots(name.trim_end_matches(':'));
        return Some(Finding::at(Fault::Pipe(form, or_dots(stop.last), helper), found, 1));
    }
    if found.starts_with('!') && !found.starts_with("!=") {
        return Some(negation(kind, stop, found));
    }
    arithmetic(found)
}

fn fallback<'a>(sign: &'static str, stop: Stop<'a>, found: &'a str) -> Finding<'a> {
    let after = found.strip_prefix(sign).unwrap_or("");
    Finding::at(
        Fault::Fallback(sign, or_dots(stop.last), operand(after)),
        found,
        sign.len(),
    )
}

fn negation<'a>(kind: TagKind, stop: Stop<'a>, found: &'a str) -> Finding<'a> {
    let operand = operand(found.strip_prefix('!').unwrap_or(""));
    Finding::at(
        Fault::Negation(form_of(kind, stop.head, false), operand),
        found,
        1,
    )
}

fn arithmetic(found: &str) -> Option<Finding<'_>> {
    let sign = found.chars().next()?;
    if sign == '+' || sign == '*' || sign == '/' || sign == '%' {
        Some(Finding::at(Fault::Arithmetic(sign), found, 1))
    } else {
        None
    }
}

// What stands for an operand that can't be named.
fn or_dots(text: &str) -> &str {
    if text.is_empty() { ".." } else { text }
}

// The operand at the start of a text: a call, a text, or a path.
fn operand(text: &str) -> &str {
    let text = after_white(text);
    or_dots(text.get(..operand_len(text)).unwrap_or(""))
}

fn operand_len(text: &str) -> usize {
    if text.starts_with('(') {
        return len_to(text, ')');
    }
    if text.starts_with('"') {
        return len_to(text, '"');
    }
    if text.starts_with('\'') {
        return len_to(text, '\'');
    }
    match path_token(text) {
        Some(token) => token.raw.len(),
        None => 0,
    }
}

// The number of bytes up to this mark after the first byte, with it.
fn len_to(text: &str, mark: char) -> usize {
    match text.get(1..) {
        Some(rest) => match rest.find(mark) {
            Some(n) => n.saturating_add(2),
            None => 0,
        },
        None => 0,
    }
}
