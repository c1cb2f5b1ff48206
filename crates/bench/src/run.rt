//! A run of the program, over any clock and any outputs.

ghost use Rattle.std.specs.Prelude.{◌≡◌, ◌≤◌, [], Err, IfOk};

use crate::arguments::{Argument, asked};
use crate::failure::Failure;
use crate::measure::{Measure, Target, Task, measure_work};
use std::alloc::Global;
use std::io;
use std::io::Write;
use std::rt::Clock;

/// Does what the arguments ask for, in order, and returns the exit status.
///
/// If an argument asks for nothing, or there are none, the status is 2, and no work is done. A run that fails reports why in
/// one line on `err`.
pub fn run<C: Clock, O: Write, E: Write>(
    alloc: Global,
    clock: &C,
    arguments: Result<Vec<String>, Failure>,
    out: &mut O,
    err: &mut E,
) -> u8
    ensures status { result ≤ 2 }
    ensures usage { IfOk arguments (λ given. given.items ≡ [] → result ≡ 2) }
{
    match arguments {
        Ok(arguments) => match run_tasks(alloc, clock, arguments.as_slice(), out) {
            Ok(()) => 0,
            Err(failure) => report(&failure, err),
        },
        Err(failure) => report(&failure, err),
    }
}

// Reports a failure and returns its status. If it can't be printed, the status still reports it.
fn report<E: Write>(failure: &Failure, err: &mut E) -> u8
    ensures bound { result ≤ 2 }
    ensures usage { failure.now ≡ Failure.Usage → result ≡ 2 }
{
    let _ = writeln!(err, "{failure}");
    failure.status()
}

fn run_tasks<C: Clock, O: Write>(
    alloc: Global,
    clock: &C,
    arguments: &[String],
    out: &mut O,
) -> Result<(), Failure>
    ensures usage { arguments.now ≡ [] → result ≡ Err Failure.Usage }
{
    if arguments.is_empty() {
        return Err(Failure::Usage);
    }
    if arguments
        .iter()
        .any(|argument| asked(argument.as_str()).is_none())
    {
        return Err(Failure::Usage);
    }
    let mut times = None;
    let mut target = Target::Text;
    for argument in arguments {
        match asked(argument.as_str()) {
            Some(Argument::Times(number)) => times = Some(number),
            Some(Argument::Writer) => target = Target::Writer,
            Some(Argument::Pieces) => target = Target::Pieces,
            Some(Argument::Run(work, size)) => {
                let task = Task {
                    work,
                    size,
                    times: times.unwrap_or(1),
                    target,
                };
                run_task(alloc, clock, task, times.is_some(), out)?;
            }
            None => {}
        }
    }
    Ok(())
}

// Does a task and prints the result, with its times if they are asked for.
fn run_task<C: Clock, O: Write>(
    alloc: Global,
    clock: &C,
    task: Task,
    timed: bool,
    out: &mut O,
) -> Result<(), Failure> {
    let measure = measure_work(alloc, clock, task)?;
    match print_measure(task, &measure, timed, out) {
        Ok(()) => Ok(()),
        Err(_) => Err(Failure::CannotWrite),
    }
}

fn print_measure<O: Write>(
    task: Task,
    measure: &Measure,
    timed: bool,
    out: &mut O,
) -> io::Result<()> {
    print_bytes(task, measure, out)?;
    if timed {
        print_times(measure, out)?;
    }
    writeln!(out)?;
    out.flush()
}

fn print_bytes<O: Write>(task: Task, measure: &Measure, out: &mut O) -> io::Result<()> {
    let name = task.work.name;
    let size = task.size;
    let to = match task.target {
        Target::Text => "",
        Target::Writer => " to a writer",
        Target::Pieces => " by pieces",
    };
    let source = measure.source;
    let data = measure.data;
    let answer = measure.answer;
    write!(
        out,
        "{name} of {size}{to}: template {source}, data {data}, answer {answer} bytes"
    )
}

fn print_times<O: Write>(measure: &Measure, out: &mut O) -> io::Result<()> {
    let compiling = measure.compiling.as_micros();
    let rendering = measure.rendering.as_micros();
    write!(
        out,
        "; compiled in {compiling} us, rendered in {rendering} us"
    )
}
