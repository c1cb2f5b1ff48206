//! What is printed of problems.

ghost use Rattle.std.specs.Prelude.{◌≡◌, ◌-◌, ◌<◌, ◌≤◌, Some, chars, decimal, flat_map, length, map, replicate, string_bytes, take};
ghost use Rattle.std.specs.Fmt.{WritesOnOk};
ghost use Rattle.handlebars_report.specs.Text.{carets, excerpt, head_line, help_line, margin, note_line, note_text, place_text, problem_text, severity_text, source_line, under};
ghost use Rattle.handlebars_report.specs.View.{note_view, place_view, problem_view};

use crate::place::Place;
use crate::problem::{Note, Problem, Severity};
use std::fmt;

/// Shows `error` or `warning`.
impl fmt::Display for Severity {
    ghost output = { λ s. Some (severity_text s) };

    fn fmt<W: fmt::Write>(&self, f: &mut fmt::Formatter<W>) -> fmt::Result {
        f.write_str(self.as_str())
    }
}

/// Shows the path, the line and the column, as `page.hbs:12:5`.
impl fmt::Display for Place {
    ghost output = { λ p. Some (place_text (place_view p)) };

    fn fmt<W: fmt::Write>(&self, f: &mut fmt::Formatter<W>) -> fmt::Result {
        let start = self.start();
        write!(f, "{}:{}:{}", self.path(), start.line, start.column)
    }
}

/// Shows the message, and the place if there is one, as `included from layout.hbs:3:1`.
impl fmt::Display for Note {
    ghost output = { λ n. Some (note_text (note_view n)) };

    fn fmt<W: fmt::Write>(&self, f: &mut fmt::Formatter<W>) -> fmt::Result {
        match &self.place {
            None => f.write_str(self.message.as_str()),
            Some(place) => write!(f, "{} {place}", self.message),
        }
    }
}

/// Shows the problem as rustc does: where and what, the line with carets under the range, help and notes. Each line ends with a
/// line break.
///
/// ```text
/// page.hbs:12:5: error: no partial is named "crad"
///    |
/// 12 |     {{> crad}}
///    |     ^^^^^^^^^^
///    = help: did you mean "card"?
///    = note: included from layout.hbs:3:1
/// ```
impl fmt::Display for Problem {
    ghost output = { λ p. Some (problem_text (problem_view p)) };

    fn fmt<W: fmt::Write>(&self, f: &mut fmt::Formatter<W>) -> fmt::Result {
        let margin = Margin(self.place.start().line);
        write_head(f, self)?;
        write_excerpt(f, &self.place)?;
        write_help(f, margin, &self.help)?;
        write_notes(f, margin, &self.notes)
    }
}

fn write_head<W: fmt::Write>(f: &mut fmt::Formatter<W>, problem: &Problem) -> fmt::Result
    ensures { WritesOnOk W.write_str_gives f.old result (head_line (problem_view problem.now)) f.new }
{
    let (place, severity) = (&problem.place, problem.severity);
    writeln!(f, "{place}: {severity}: {}", problem.message)
}

fn write_excerpt<W: fmt::Write>(f: &mut fmt::Formatter<W>, place: &Place) -> fmt::Result
    ensures { WritesOnOk W.write_str_gives f.old result (excerpt (place_view place.now)) f.new }
{
    let margin = Margin(place.start().line);
    writeln!(f, "{margin}|")?;
    write_source(f, place)?;
    writeln!(f, "{margin}| {}", Carets(place))
}

fn write_source<W: fmt::Write>(f: &mut fmt::Formatter<W>, place: &Place) -> fmt::Result
    ensures { WritesOnOk W.write_str_gives f.old result (source_line (place_view place.now)) f.new }
{
    let line = place.start().line;
    writeln!(f, "{line} | {}", place.line_text())
}

fn write_help<W: fmt::Write>(
    f: &mut fmt::Formatter<W>,
    margin: Margin,
    help: &[String],
) -> fmt::Result
    ensures { WritesOnOk W.write_str_gives f.old result
        (flat_map (help_line margin.0) (map string_bytes help.now)) f.new }
{
    'help: for text in help {
        writeln!(f, "{margin}= help: {text}")?;
    }
    Ok(())
}

fn write_notes<W: fmt::Write>(
    f: &mut fmt::Formatter<W>,
    margin: Margin,
    notes: &[Note],
) -> fmt::Result
    ensures { WritesOnOk W.write_str_gives f.old result
        (flat_map (note_line margin.0) (map note_view notes.now)) f.new }
{
    'notes: for note in notes {
        writeln!(f, "{margin}= note: {note}")?;
    }
    Ok(())
}

// Shows blanks as wide as the number of a line, and 1 more.
#[derive(Clone, Copy)]
struct Margin(usize);

impl fmt::Display for Margin {
    ghost output = { λ m. Some (margin m.0) };

    fn fmt<W: fmt::Write>(&self, f: &mut fmt::Formatter<W>) -> fmt::Result {
        write_repeated(f, ' ', digits_of(self.0) + 1)
    }
}

// Shows what stands under the line.
#[derive(Clone, Copy)]
struct Carets<'a>(&'a Place);

impl fmt::Display for Carets<'_> {
    ghost output = { λ c. Some (carets (place_view c.0.now)) };

    fn fmt<W: fmt::Write>(&self, f: &mut fmt::Formatter<W>) -> fmt::Result {
        let from = self.0.start().column;
        let to = self.0.last_column();
        write_under(f, self.0.line_text(), from)?;
        write_repeated(f, '^', to.saturating_sub(from).max(1))
    }
}

// Writes what stands under the characters of a line before a column.
fn write_under<W: fmt::Write>(f: &mut fmt::Formatter<W>, line: &str, column: usize) -> fmt::Result
    ensures { WritesOnOk W.write_str_gives f.old result
        (map under (take (column - 1) (chars line.now))) f.new }
{
    'chars: for c in line.chars().take(column.saturating_sub(1)) {
        f.write_str(if c == '\t' { "\t" } else { " " })?;
    }
    Ok(())
}

fn write_repeated<W: fmt::Write>(f: &mut fmt::Formatter<W>, c: char, times: usize) -> fmt::Result
    requires { c < 128 }
    ensures { WritesOnOk W.write_str_gives f.old result (replicate times c) f.new }
{
    'times: for _i in 0..times {
        write!(f, "{c}")?;
    }
    Ok(())
}

// Returns how many digits a number has.
fn digits_of(number: usize) -> usize
    ensures digits { result ≡ length (decimal number) }
    ensures within { result ≤ 20 }
{
    let mut rest = number;
    let mut digits = 1;
    'digits: while rest >= 10 {
        rest /= 10;
        digits += 1;
    }
    digits
}
