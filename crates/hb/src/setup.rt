//! The registry of a task.

use handlebars::{EscapeKind, Registry};
use hb_command::task::Modes;

/// Sets the modes of a registry.
pub fn set_modes(registry: &mut Registry, modes: &Modes) {
    registry.set_strict_mode(modes.strict);
    registry.set_recursive_lookup(modes.recursive);
    registry.set_prevent_indent(modes.prevent_indent);
    registry.set_inclusion_limit(modes.limit);
    if !modes.escapes {
        registry.register_escape_fn(EscapeKind::Plain);
    }
}
