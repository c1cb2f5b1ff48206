//! The calls of scripts, and the fields that they need.

use crate::fields::text;
use serde_json::Value as JsonValue;

// Each call that needs fields, with these fields.
const NEEDS: &str =
    "registry.template name source; registry.partial name source; registry.tree name; \
    registry.unregister_template name; registry.limit to; parts.built_in name kind; parts.helper name; \
    parts.decorator name; parts.escape part; parts.unregister_helper name; render.source source; \
    render.name name; render.error source; render.error_name source; render.partial name; render.include name; \
    render.expand parameter; render.expand_as_name parameter; render.again source; render.alike source other; \
    render.with_functions helper source; element.count source; element.render source index; \
    element.render_made element; element.eval source; rc.evaluate path; rc.set_context to; rc.bind name to; \
    rc.unbind name; rc.local_helper name; rc.set_current_template_name to; rc.has_partial name; \
    line.write text; line.write_aware text; scope.put name value; scope.get name; scope.add_path name path; \
    scope.add_value name value; scope.param name; scope.block_bind name; scope.block_param name; \
    scope.block_follow name; scope.block_set_base value; scope.block_set_var name value; scope.block_var name; \
    scope.block_put name value; scope.block_get name; scope.block_set_partial name source; \
    scope.block_partial name; blocks.set_var name value; blocks.navigate path; data.set to; data.set_copy to; \
    data.wrap_nested depth; data.convert_nested depth; data.convert value; tree.copy source; tree.spec name; \
    tree.helper name; tree.decorator name; tree.call name reads; tree.no_call element; value.log_record name; \
    error.new text; error.strict name; error.at line column; error.in_template name; \
    error.of_template source line column; reason.param_type name type; reason.hash_type name type; \
    reason.nested text; reason.walkdir text; reason.template_io name; reason.json kind text; reason.utf8 kind; \
    markup.source_faults source; names.of_template name; names.of_source source; pieces.of_name name; \
    pieces.of_source source; file.write_page path name; file.read path; file.put path text; \
    file.anew name path; file.as_registered name; output.slow left";

/// Returns the first field that the call of a step needs and the step lacks, if there is one.
pub fn lacking(step: &JsonValue) -> Option<&'static str> {
    let call = text(step, "do");
    for line in NEEDS.split("; ") {
        match line.split_once(' ') {
            Some((named, fields)) if named == call => return missing(step, fields),
            _ => {}
        }
    }
    None
}

fn missing(step: &JsonValue, fields: &'static str) -> Option<&'static str> {
    for field in fields.split(' ') {
        if step.get(field).is_none() {
            return Some(field);
        }
    }
    None
}
