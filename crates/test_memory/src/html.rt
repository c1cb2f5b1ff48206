//! Calls that check where data stands in HTML.

use crate::outcome::{Outcome, Stop, of_error};
use crate::pair::Pair;
use handlebars::{HtmlSafety, HtmlVerdict, NoFiles, RenderError};
use std::alloc::Global;

/// A call that checks, of the registry or of a source.
pub enum Call {
    Judge,
    Report,
    JudgeSource,
    ReportOfSource,
}

// Templates with one fault in each but the first, which includes the second.
static TEMPLATES: [(&str, &str); 3] = [
    ("a", "<p title=\"{{x}}\">{{> b}}</p>"),
    ("b", "{{{x}}}"),
    (
        "c",
        "<a href=\"{{x}}\">{{#each y}}<b>{{this}}</b>{{/each}}</a>",
    ),
];

/// Returns the outcome of a call.
pub fn outcome(alloc: Global, call: &Call) -> Result<Outcome, Stop> {
    let pair = Pair::with(alloc, &TEMPLATES)?;
    let (registry, files) = (&pair.registry, &mut NoFiles);
    match call {
        Call::Judge => Ok(of_judgement(registry.html_is_safe(files), false)),
        Call::Report => Ok(of_faults(registry.html_faults(files), 2)),
        Call::JudgeSource => {
            let source = "<ul>{{#each y}}<li>{{this}}</li>{{/each}}</ul>";
            Ok(of_judgement(registry.template_html_is_safe(source, files), true))
        }
        Call::ReportOfSource => {
            let source = "<script>{{x}}</script>{{> a}}";
            Ok(of_faults(registry.template_html_faults(source, files), 2))
        }
    }
}

fn of_judgement(answer: Result<HtmlSafety, RenderError>, is_safe: bool) -> Outcome {
    match answer {
        Ok(HtmlSafety::Safe) => Outcome::answer_if(is_safe),
        Ok(HtmlSafety::Unsafe(_)) => Outcome::answer_if(!is_safe),
        Ok(HtmlSafety::Undecided) => Outcome::answer_if(false),
        Err(error) => of_error(&error),
    }
}

fn of_faults(answer: Result<HtmlVerdict, RenderError>, count: usize) -> Outcome {
    match answer {
        Ok(HtmlVerdict::Faults(faults)) => Outcome::answer_if(faults.len() == count),
        Ok(_) => Outcome::answer_if(false),
        Err(error) => of_error(&error),
    }
}
