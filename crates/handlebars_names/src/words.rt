//! Faults in words for the author of a template, with what to write instead.

use crate::fault::{NameFault, NameFaultReason};
use std::fmt;

impl NameFaultReason {
    // The words before the name, the name that the reason has, and the words after it.
    fn words(&self) -> (&'static str, Option<&str>, &'static str) {
        match self {
            NameFaultReason::MissingHelper(name, _) => {
                ("there is no helper ", Some(name.as_str()), "")
            }
            NameFaultReason::MissingParams(name, 1) => {
                ("the helper ", Some(name.as_str()), " needs a parameter")
            }
            NameFaultReason::MissingParams(name, _) => {
                ("the helper ", Some(name.as_str()), " needs two parameters")
            }
            NameFaultReason::MadeName => {
                (
                    "the name is computed when the template is rendered",
                    None,
                    "",
                )
            }
            NameFaultReason::OtherDecorator(name) => {
                (
                    "the check allows only the decorator `inline`, not ",
                    Some(name.as_str()),
                    "",
                )
            }
            NameFaultReason::UnnamedInline => {
                ("the name of an inline partial is not a text", None, "")
            }
            NameFaultReason::EmptyInline(name) => {
                ("the inline partial ", Some(name.as_str()), " has no body")
            }
            NameFaultReason::MissingPartial(name, _) => {
                ("there may be no partial ", Some(name.as_str()), "")
            }
            NameFaultReason::IncludesItself(name) => {
                ("the template ", Some(name.as_str()), " includes itself")
            }
            NameFaultReason::MissingBlock => ("there may be no `@partial-block`", None, ""),
            NameFaultReason::NamedBody(name) => {
                (
                    "a body of a hand-built template has the name ",
                    Some(name.as_str()),
                    "",
                )
            }
        }
    }

    // A name that may be meant.
    fn near(&self) -> Option<&str> {
        match self {
            NameFaultReason::MissingHelper(_, Some(near)) => Some(near.as_str()),
            NameFaultReason::MissingPartial(_, Some(near)) => Some(near.as_str()),
            _ => None,
        }
    }

    // What to write instead.
    fn advice(&self) -> &'static str {
        match self {
            NameFaultReason::MissingHelper(_, _) => "register it, or write the name of another one",
            NameFaultReason::MissingParams(_, _) => "write what it needs after its name",
            NameFaultReason::MadeName => {
                "write each name out, for example in the branches of `{{#if}}`"
            }
            NameFaultReason::OtherDecorator(_) => "remove the tag, or write `inline`",
            NameFaultReason::UnnamedInline => "write it in quotes",
            NameFaultReason::EmptyInline(_) => "write it as a block",
            NameFaultReason::MissingPartial(_, _) => {
                "register it, set it inline wherever this is included, or give the tag a block"
            }
            NameFaultReason::IncludesItself(_) => "include it in the body of a block",
            NameFaultReason::MissingBlock => {
                "include this by a tag with a block, or give this tag one"
            }
            NameFaultReason::NamedBody(_) => "remove that name",
        }
    }
}

/// Formats the reason in words for the author of a template.
impl fmt::Display for NameFaultReason {
    fn fmt<W: fmt::Write>(&self, f: &mut fmt::Formatter<W>) -> fmt::Result {
        let (before, name, after) = self.words();
        f.write_str(before)?;
        if let Some(name) = name {
            write!(f, "`{}`", name)?;
        }
        f.write_str(after)?;
        if let Some(near) = self.near() {
            write!(f, ", but there is `{}`", near)?;
        }
        Ok(())
    }
}

impl NameFault {
    // What has the fault.
    fn subject(&self) -> &str {
        match &self.template_name {
            Some(name) => name.as_str(),
            None => "template",
        }
    }
}

/// Formats one line: the name of the template (`template` if it has none), the position, if there is one, the reason, and what to
/// write instead.
impl fmt::Display for NameFault {
    fn fmt<W: fmt::Write>(&self, f: &mut fmt::Formatter<W>) -> fmt::Result {
        f.write_str(self.subject())?;
        if let (Some(line), Some(column)) = (self.line_no, self.column_no) {
            write!(f, " line {}, col {}", line, column)?;
        }
        write!(f, ": {}: {}", &self.reason, self.reason.advice())
    }
}
