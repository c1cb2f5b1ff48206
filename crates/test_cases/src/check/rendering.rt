//! What is wrong with the fields of a test case that renders.

use crate::check::wrong_if;
use crate::fields::Fields;

/// Returns what is wrong with the fields together, if anything is.
pub fn wrong_rendering(fields: Fields<'_>) -> Option<&'static str> {
    wrong_reason(fields)
        .or(wrong_output(fields))
        .or(wrong_other(fields))
        .or(wrong_template(fields))
}

fn wrong_reason(fields: Fields<'_>) -> Option<&'static str> {
    let has_reason = fields.has("reason");
    if !has_reason && fields.has("printed") {
        return Some("a printed text without a reason");
    }
    if !has_reason && !fields.has("other_reason") && fields.has_any("line column template") {
        return Some("a line, a column or a template without a reason");
    }
    None
}

fn wrong_output(fields: Fields<'_>) -> Option<&'static str> {
    let (takes, sweep) = (fields.has("takes"), fields.is_set("sweep"));
    if !takes && fields.has("fault") {
        return Some("a fault without an output that takes so much");
    }
    if takes && (sweep || fields.has_any("files steps over to")) {
        return Some("an output beside what the calls alone have");
    }
    if sweep && fields.has("to") {
        return Some("a writer beside those of a sweep");
    }
    if fields.has("pieces") && !emits_pieces(fields) {
        return Some("pieces beside an output, a writer or a value");
    }
    None
}

// Whether the call that emits pieces is asked for.
fn emits_pieces(fields: Fields<'_>) -> bool {
    !fields.has_any("takes to") && fields.text("over") != Some("value")
}

fn wrong_other(fields: Fields<'_>) -> Option<&'static str> {
    let has_data = fields.has_any("other other_json");
    if !has_data && fields.has_any("other_text other_reason other_marks") {
        return Some("what comes of other data, without them");
    }
    if has_data && !fields.has("other_text") {
        return Some("other data without what is written then");
    }
    None
}

// A test case with steps needs no source: it then renders the empty source to the empty text.
fn wrong_template(fields: Fields<'_>) -> Option<&'static str> {
    if fields.has("steps") && !fields.has_any("source name") {
        return None;
    }
    if fields.has("source") == fields.has("name") {
        return Some("either a source or a name is wanted");
    }
    wrong_if(!fields.has("text"), "the text is missing")
}
