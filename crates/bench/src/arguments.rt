//! The arguments of the command line.

use crate::failure::Failure;
use crate::work::Work;
use std::env;
use std::io::ErrorKind;
use std::rt::Env;

/// What an argument asks for.
#[derive(Clone, Copy)]
pub enum Argument {
    /// The works after it are done this often, and the shortest times are printed.
    Times(u32),
    /// The works after it are rendered to a writer.
    Writer,
    /// The works after it are rendered to an output that is given each piece.
    Pieces,
    /// A work in a size.
    Run(Work, u32),
}

/// Returns the arguments after the name of the program.
pub fn command_line<R: Env + AllocGlobal>(rt: &R) -> Result<Vec<String>, Failure> {
    match env::args(rt) {
        Ok(args) => Ok(args.skip(1).collect(rt.alloc())?),
        Err(cause) => Err(failure_of_arguments(cause.kind())),
    }
}

fn failure_of_arguments(cause: ErrorKind) -> Failure {
    match cause {
        ErrorKind::InvalidData => Failure::Usage,
        _ => Failure::OutOfMemory,
    }
}

/// Returns what an argument asks for. It is `times=N` with an N above 0, `writer`, `pieces`, `WORK=SIZE`, or the name of a
/// work, which then has its full size.
pub fn asked(argument: &str) -> Option<Argument> {
    match argument.split_once('=') {
        Some((name, number)) => asked_of(name, number.parse::<u32>().ok()?),
        None => asked_alone(argument),
    }
}

fn asked_alone(argument: &str) -> Option<Argument> {
    match argument {
        "writer" => Some(Argument::Writer),
        "pieces" => Some(Argument::Pieces),
        name => {
            let work = Work::of_name(name)?;
            Some(Argument::Run(work, work.full_size))
        }
    }
}

fn asked_of(name: &str, number: u32) -> Option<Argument> {
    if name == "times" {
        return times(number);
    }
    Some(Argument::Run(Work::of_name(name)?, number))
}

fn times(number: u32) -> Option<Argument> {
    if number == 0 {
        None
    } else {
        Some(Argument::Times(number))
    }
}
