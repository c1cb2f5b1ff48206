//! The works: what is compiled and rendered, in any size.

use std::alloc::{AllocError, Global};
use std::fmt::Write;

/// A work: a template and data in any size.
#[derive(Clone, Copy)]
pub struct Work {
    pub name: &'static str,
    pub full_size: u32,
    // The template, or, if the template grows with the size, each line of it.
    line: &'static str,
    // The part of the data before its items, and the part after them.
    prefix: &'static str,
    end: &'static str,
    grows: Grows,
}

// What grows with the size: the lines of the template, or the items of the data.
#[derive(Clone, Copy)]
enum Grows {
    Lines,
    Rows,
    Entries,
    Numbers,
    Marked,
}

const WORKS: [Work; 8] = [TABLE, PAGE, DEEP, ESCAPE, COMPILE, PLAIN, INCLUDED, WRITTEN];

impl Work {
    /// Returns the work of that name, if there is one.
    pub fn of_name(name: &str) -> Option<Work> {
        for work in &WORKS {
            if work.name == name {
                return Some(*work);
            }
        }
        None
    }

    /// Returns the template in a size.
    pub fn source(&self, alloc: Global, size: u32) -> Result<String, AllocError> {
        let lines = match self.grows {
            Grows::Lines => size,
            _ => 1,
        };
        let mut text = String::new(alloc);
        for _ in 0..lines {
            text.push_str(self.line)?;
        }
        Ok(text)
    }

    /// Returns the data in a size, as JSON.
    pub fn data(&self, alloc: Global, size: u32) -> Result<String, AllocError> {
        let items = match self.grows {
            Grows::Lines => 0,
            _ => size,
        };
        let mut text = String::from_str(alloc, self.prefix)?;
        self.push_items(&mut text, items)?;
        Ok(text)
    }

    // Appends this many items, and the end of the data.
    fn push_items(&self, text: &mut String, count: u32) -> Result<(), AllocError> {
        for number in 0..count {
            if number > 0 {
                text.push(',')?;
            }
            push_item(text, self.grows, number)?;
        }
        text.push_str(self.end)
    }
}

// Appends the item of that number, from 0.
fn push_item(text: &mut String, kind: Grows, number: u32) -> Result<(), AllocError> {
    match kind {
        Grows::Lines => Ok(()),
        Grows::Rows => push_row(text, u64::from(number)),
        Grows::Entries => push_entry(text, number),
        Grows::Numbers => write!(text, "{{\"v\":{number}}}"),
        Grows::Marked => push_marked(text),
    }
}

// Eight numbers, which continue from row to row.
fn push_row(text: &mut String, number: u64) -> Result<(), AllocError> {
    text.push('[')?;
    for column in 0..8 {
        if column > 0 {
            text.push(',')?;
        }
        let cell = number.saturating_mul(8).saturating_add(column);
        write!(text, "{cell}")?;
    }
    text.push(']')
}

fn push_entry(text: &mut String, number: u32) -> Result<(), AllocError> {
    write!(
        text,
        "{{\"id\":{number},\"name\":\"item {number}\",\"owner\":{{\"name\":\"owner {number}\"}},"
    )?;
    text.push_str(r#""tags":["red","green","blue"]}"#)
}

// A text of 230 bytes, of which 50 are marks.
fn push_marked(text: &mut String) -> Result<(), AllocError> {
    text.push('"')?;
    for _ in 0..10 {
        text.push_str("Tom & <b>Jerry</b> say ")?;
    }
    text.push('"')
}

const TABLE: Work = Work {
    name: "table",
    full_size: 6000,
    line: "<table>{{#each rows}}<tr>{{#each this}}<td>{{this}}</td>{{/each}}</tr>{{/each}}</table>",
    prefix: r#"{"rows":["#,
    end: "]}",
    grows: Grows::Rows,
};

const PAGE: Work = Work {
    name: "page",
    full_size: 8000,
    line: "{{#each items}}<li id={{id}}>{{name}} by {{owner.name}}{{#if tags}}: \
        {{#each tags}}{{#unless @first}}, {{/unless}}{{this}}{{/each}}{{/if}}</li>{{/each}}",
    prefix: r#"{"items":["#,
    end: "]}",
    grows: Grows::Entries,
};

const DEEP: Work = Work {
    name: "deep",
    full_size: 20_000,
    line: "{{#with n.n.n.n.n.n.n.n.n.n.n.n}}{{#each items}}{{v}} {{../x}};{{/each}}{{/with}}",
    prefix: r#"{"n":{"n":{"n":{"n":{"n":{"n":{"n":{"n":{"n":{"n":{"n":{"n":{"x":"y","items":["#,
    end: "]}}}}}}}}}}}}}",
    grows: Grows::Numbers,
};

const ESCAPE: Work = Work {
    name: "escape",
    full_size: 3000,
    line: "{{#each t}}<p>{{this}}</p>{{/each}}",
    prefix: r#"{"t":["#,
    end: "]}",
    grows: Grows::Marked,
};

const COMPILE: Work = Work {
    name: "compile",
    full_size: 6000,
    line: "<p class=\"c1\">{{#if a.b1}}{{name}} {{lookup list 1}}{{else}}{{{html}}}{{/if}}</p>\n",
    prefix: r#"{"a":{"b1":true},"name":"foo","list":[1,2,3],"html":"<b>x</b>""#,
    end: "}",
    grows: Grows::Lines,
};

const PLAIN: Work = Work {
    name: "plain",
    full_size: 20_000,
    line: "Dear {{name}}, order {{number}} has left our house today and will be brought to {{place}} soon.\n",
    prefix: r#"{"name":"foo","number":17,"place":"home""#,
    end: "}",
    grows: Grows::Lines,
};

const INCLUDED: Work = Work {
    name: "included",
    full_size: 10_000,
    line: "{{#*inline \"entry\"}}<li id={{id}}>{{name}} by {{owner.name}}</li>{{/inline}}\
        {{#each items}}{{> entry}}{{/each}}",
    prefix: r#"{"items":["#,
    end: "]}",
    grows: Grows::Entries,
};

// The template of `included`, with its partial written out.
const WRITTEN: Work = Work {
    name: "written",
    full_size: 10_000,
    line: "{{#each items}}<li id={{id}}>{{name}} by {{owner.name}}</li>{{/each}}",
    prefix: r#"{"items":["#,
    end: "]}",
    grows: Grows::Entries,
};
