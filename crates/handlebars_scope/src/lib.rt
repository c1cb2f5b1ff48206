//! The data of a rendering, the scope frames that callers and user-defined helpers have, where paths lead in them, and the
//! line that is being written.
#![tactic(auto)]

pub mod block;
pub mod context;
pub mod indentation;
pub mod laws;
pub mod line;
pub mod local_vars;
