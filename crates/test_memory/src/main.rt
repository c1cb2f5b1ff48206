//! `test_memory [CASE ..]`: runs renderings and other calls that allocate, and reports their outcomes, so that one
//! allocation after another can be made to fail (`tools/sweep`). A case is the name of a call, or a test case and a call that
//! renders it, such as `layout/render_to_write`.
//!
//! The exit status is 0 if each case has the expected answer, 3 if a call fails because memory runs out and everything is as
//! it must be then, 4 if memory runs out outside of that call, 2 if there is no such case, and 1 for any other outcome.
//! Without arguments, the program runs all cases and prints the outcome of each.
#![tactic(auto)]

mod calls;
mod contexts;
mod errors;
mod files;
mod given;
mod html;
mod outcome;
mod pair;
mod registering;
mod render_calls;
mod run;
mod scopes;
mod setup;
mod test_case;
mod trees;
mod values;

use run::run;
use std::process::ExitCode;

fn main(rt: HostRuntime) -> ExitCode {
    ExitCode::from(run(&rt))
}
