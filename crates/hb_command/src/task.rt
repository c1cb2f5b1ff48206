//! What is asked for, as the matches of the arguments say it.

use clap::ArgMatches;
use handlebars_data::{Format, Numbers};

/// The modes of the registry.
#[derive(Clone, Copy)]
pub struct Modes {
    pub strict: bool,
    /// Whether values are escaped for html.
    pub escapes: bool,
    pub limit: u16,
    pub recursive: bool,
    pub prevent_indent: bool,
}

/// What all subcommands are asked for: a template, sources of data, what is set in the data, folders of templates and the modes.
#[derive(Clone, Copy)]
pub struct Task<'m, 'a> {
    pub template: &'a str,
    pub sources: &'m [&'a str],
    /// `KEY=VALUE` or `KEY:=JSON`, each.
    pub settings: &'m [&'a str],
    pub folders: &'m [&'a str],
    /// The format of all sources, if one is given.
    pub format: Option<Format>,
    pub numbers: Numbers,
    pub modes: Modes,
}

impl<'m, 'a> Task<'m, 'a> {
    /// Returns the task of the matches of a subcommand. What isn't given is `none`.
    pub fn of(matches: &'m ArgMatches<'a>, none: &'m [&'a str]) -> Task<'m, 'a> {
        Task {
            template: matches.get_str("template").unwrap_or(""),
            sources: matches.get_strs("data").unwrap_or(none),
            settings: matches.get_strs("define").unwrap_or(none),
            folders: matches.get_strs("partials").unwrap_or(none),
            format: match matches.get_str("format") {
                Some(name) => Format::of_name(name),
                None => None,
            },
            numbers: if matches.get_flag("refuse-fractions") {
                Numbers::Refused
            } else {
                Numbers::Spelled
            },
            modes: Modes::of(matches),
        }
    }

    /// Returns how often standard input is named.
    pub fn standard_inputs(&self) -> usize {
        let named = self.sources.iter().filter(|path| **path == "-").count();
        if self.template == "-" {
            named.saturating_add(1)
        } else {
            named
        }
    }
}

impl Modes {
    fn of(matches: &ArgMatches<'_>) -> Modes {
        Modes {
            strict: matches.get_flag("strict"),
            escapes: matches.get_str("escape") != Some("none"),
            limit: matches.get_one::<u16>("limit").unwrap_or(64),
            recursive: matches.get_flag("recursive"),
            prevent_indent: matches.get_flag("prevent-indent"),
        }
    }
}
