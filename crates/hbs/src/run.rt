//! A run of the program, over any files and any outputs.

ghost use Rattle.std.specs.Prelude.{◌≡◌, ◌≢◌, ◌≤◌, Err, IfErr, IfOk, length};
ghost use Rattle.hbs.specs.Arguments.{begins_strict, file_arguments};

use crate::failure::Failure;
use crate::text::{Request, print_text};
use handlebars::TemplateReader;
use std::alloc::Global;
use std::io::Write;

/// Renders a template and returns the exit status.
///
/// The first argument names the template, the second one the data, and an optional third one a folder of templates. `--strict`
/// before them turns on strict mode. `arguments` is an error if the arguments can't be read.
///
/// If the arguments after a first `--strict` are not two or three, the status is 2, and no file is read. A run that fails
/// reports why in one line on `err`. Output written to `out` before an error is not taken back.
pub fn run<'a, R: TemplateReader, O: Write, E: Write>(
    alloc: Global,
    arguments: Result<Vec<String>, Failure<'a>>,
    files: &mut R,
    out: &mut O,
    err: &mut E,
) -> u8
    ensures status { result ≤ 2 }
    ensures usage { IfOk arguments.entry (λ given. length (file_arguments given.items) ≢ 2
        → length (file_arguments given.items) ≢ 3 → result ≡ 2) }
    ensures unread { IfErr arguments.entry (λ e. e ≡ Failure.Usage → result ≡ 2) }
    ensures memory { IfErr arguments.entry (λ e. e ≡ Failure.OutOfMemory → result ≡ 1) }
{
    match arguments {
        Ok(arguments) => match print(alloc, arguments.as_slice(), files, out) {
            Ok(()) => 0,
            Err(failure) => report(&failure, err),
        },
        Err(failure) => report(&failure, err),
    }
}

// Reports a failure and returns its status. If it can't be printed, the status still reports it.
fn report<E: Write>(failure: &Failure<'_>, err: &mut E) -> u8
    ensures bound { result ≤ 2 }
    ensures usage { failure.now ≡ Failure.Usage → result ≡ 2 }
    ensures memory { failure.now ≡ Failure.OutOfMemory → result ≡ 1 }
{
    let _ = writeln!(err, "{failure}");
    failure.status()
}

fn print<'a, R: TemplateReader, O: Write>(
    alloc: Global,
    arguments: &'a [String],
    files: &mut R,
    out: &mut O,
) -> Result<(), Failure<'a>>
    ensures usage { length (file_arguments arguments.now) ≢ 2 → length (file_arguments arguments.now) ≢ 3 → result ≡ Err Failure.Usage }
{
    let (strict, arguments) = split_strict(arguments);
    let task = match arguments {
        [template, data] => Request {
            strict,
            template: template.as_str(),
            data: data.as_str(),
            folder: None,
        },
        [template, data, folder] => Request {
            strict,
            template: template.as_str(),
            data: data.as_str(),
            folder: Some(folder.as_str()),
        },
        _ => return Err(Failure::Usage),
    };
    print_text(alloc, &task, files, out)
}

// Whether the first argument is `--strict`, and the arguments that name files.
fn split_strict(arguments: &[String]) -> (bool, &[String])
    ensures strict { result.0 ≡ begins_strict arguments.now }
    ensures arguments { result.1.now ≡ file_arguments arguments.now }
{
    match arguments.split_first() {
        Some((first, rest)) => {
            if first.as_str() == "--strict" {
                (true, rest)
            } else {
                (false, arguments)
            }
        }
        None => (false, arguments),
    }
}
