//! What `hb build` is asked for beside the task.

ghost use Rattle.std.specs.Prelude.{◌≡◌, ◌<◌, ◌≤◌, ◌+◌, ◌-◌, ◌*◌};

use crate::failure::{Failure, Kind};
use clap::ArgMatches;
use hb_build::{Settings, Shard};
use std::alloc::Global;

/// Where the files are written and how they are named, where the items are, and how it is gone about.
#[derive(Clone, Copy)]
pub struct Order<'m> {
    /// The output folder, with no `/` at its end.
    pub folder: &'m str,
    /// The template of the names.
    pub to: &'m str,
    /// The path of the list in the data, if it isn't the data itself.
    pub each: Option<&'m str>,
    pub part: Part,
    pub settings: Settings,
    pub progress: bool,
}

/// Each `count`-th item, from the `number`-th one on.
#[derive(Clone, Copy)]
pub struct Part {
    pub number: u64,
    pub count: u64,
}

impl<'m> Order<'m> {
    /// Returns the order of the matches of `hb build`.
    ///
    /// # Errors
    ///
    /// Fails if the output folder has no name, or if the shard isn't two numbers I/N with I from 1 to N.
    pub fn of(alloc: Global, matches: &ArgMatches<'m>) -> Result<Order<'m>, Failure> {
        let (part, shard) = shard_of(alloc, matches)?;
        Ok(Order {
            folder: folder_of(alloc, matches)?,
            to: matches.get_str("to").unwrap_or(""),
            each: matches.get_str("each"),
            part,
            settings: Settings {
                shard,
                dry_run: matches.get_flag("dry-run"),
                keep_going: matches.get_flag("keep-going"),
            },
            progress: matches.get_flag("progress"),
        })
    }
}

fn folder_of<'m>(alloc: Global, matches: &ArgMatches<'m>) -> Result<&'m str, Failure> {
    let folder = matches.get_str("output").unwrap_or("");
    if folder.is_empty() {
        return Err(Failure::of_text(alloc, Kind::Arguments, "-o: expected a folder"));
    }
    match folder.strip_suffix("/") {
        Some(rest) if !rest.is_empty() => Ok(rest),
        _ => Ok(folder),
    }
}

fn shard_of(alloc: Global, matches: &ArgMatches<'_>) -> Result<(Part, Shard), Failure> {
    let Some(text) = matches.get_str("shard") else {
        let part = Part {
            number: 1,
            count: 1,
        };
        return Ok((part, Shard::all()));
    };
    match part_of(text) {
        Some(found) => Ok(found),
        None => Err(Failure::new(
            Kind::Arguments,
            format!(in alloc; "--shard {text}: expected I/N, two numbers with I from 1 to N"),
        )),
    }
}

// The shard that a text `I/N` names.
fn part_of(text: &str) -> Option<(Part, Shard)> {
    let (number, count) = text.split_once('/')?;
    let number = number.parse::<u64>().ok()?;
    let count = count.parse::<u64>().ok()?;
    let shard = Shard::new(number, count)?;
    Some((Part { number, count }, shard))
}

impl Part {
    /// Returns how many of so many items belong to the part.
    pub fn size(&self, items: u64) -> u64 {
        if self.count == 0 || items < self.number {
            return 0;
        }
        ((items - self.number) / self.count).saturating_add(1)
    }
}
