//! `catalog [--dev] TEMPLATES PAGES`: writes the pages of a shop, one for each product and an index, to the folder `PAGES`,
//! with the templates of the folder `TEMPLATES`. With `--dev` it then waits: each line of standard input writes all pages
//! again, from the current files of the templates, until the input ends.
#![tactic(auto)]

mod failure;
mod pages;
mod price;
mod shop;

use failure::Failure;
use handlebars::{FileReader, Handlebars, HelperDef, HelperEntry, TemplateReader};
use pages::Site;
use price::Price;
use shop::sample_shop;
use std::env;
use std::process::ExitCode;

fn main(rt: HostRuntime) -> ExitCode {
    match run(&rt) {
        Ok(()) => ExitCode::SUCCESS,
        Err(failure) => {
            let _ = eprintln!(&rt; "{failure}");
            ExitCode::FAILURE
        }
    }
}

// The arguments of the command line.
#[derive(Drop)]
struct Arguments {
    dev: bool,
    templates: String,
    pages: String,
}

fn command_line(rt: &HostRuntime) -> Result<Arguments, Failure> {
    let mut arguments = env::args(rt)?.skip(1);
    let mut first = arguments.next();
    let dev = first
        .as_ref()
        .is_some_and(|argument| argument.as_str() == "--dev");
    if dev {
        first = arguments.next();
    }
    match (first, arguments.next(), arguments.next()) {
        (Some(templates), Some(pages), None) => Ok(Arguments {
            dev,
            templates,
            pages,
        }),
        _ => Err(Failure::Usage),
    }
}

fn run(rt: &HostRuntime) -> Result<(), Failure> {
    let alloc = rt.alloc();
    let arguments = command_line(rt)?;
    let mut files = FileReader::new(rt, alloc);
    let mut registry = Handlebars::new(alloc)?;
    registry.set_strict_mode(true);
    registry.set_dev_mode(arguments.dev);
    let price: Box<dyn HelperDef> = Box::new(alloc, Price { alloc })?;
    registry.register_helper("price", HelperEntry::Own(price))?;
    registry.register_templates_directory(
        arguments.templates.as_str(),
        Default::default(),
        &mut files,
    )?;
    write_pages(rt, &registry, &arguments, &mut files)
}

fn write_pages<F: TemplateReader>(
    rt: &HostRuntime,
    registry: &Handlebars,
    arguments: &Arguments,
    files: &mut F,
) -> Result<(), Failure> {
    let shop = sample_shop(rt.alloc())?;
    let site = Site {
        rt,
        registry,
        folder: arguments.pages.as_str(),
    };
    if arguments.dev {
        site.watch(&shop, files)
    } else {
        site.write(&shop, files)
    }
}
