//! The arguments of the command line.

use crate::failure::{Failure, Kind};
use std::env;
use std::io::ErrorKind;
use std::rt::Env;

/// Returns the arguments after the name of the program.
///
/// # Errors
///
/// Fails for the arguments if one isn't UTF-8, or if memory runs out.
pub fn command_line<R: Env + AllocGlobal>(rt: &R) -> Result<Vec<String>, Failure> {
    match env::args(rt) {
        Ok(arguments) => Ok(arguments.skip(1).collect(rt.alloc())?),
        Err(cause) => Err(match cause.kind() {
            ErrorKind::OutOfMemory => Failure::out_of_memory(),
            _ => Failure::of_text(rt.alloc(), Kind::Arguments, "an argument is not UTF-8"),
        }),
    }
}
