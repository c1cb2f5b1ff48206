//! The shortest program: data in a user-defined struct, a template, and the text.
#![tactic(auto)]

use handlebars::{Handlebars, NoFiles, RenderError};
use log::sink::Discard;
use serde::Serialize;

#[derive(Drop, Serialize)]
struct Order<'a> {
    customer: &'a str,
    items: Vec<&'a str>,
}

fn main(rt: HostRuntime) -> Result<(), RenderError> {
    let registry = Handlebars::new(rt.alloc())?;
    let items = vec![in rt.alloc(); "tea", "milk & honey"]?;
    let order = Order {
        customer: "Ada <ada@example.com>",
        items,
    };
    let source = "{{customer}}:{{#each items}} {{this}}{{#unless @last}},{{/unless}}{{/each}}";
    let text = registry.render_template(source, &order, &Discard, &mut NoFiles)?;
    Ok(println!(rt; "{text}")?)
}
