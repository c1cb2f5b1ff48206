//! Prints the pieces of a rendering, each with its origin: as lines of JSON, as the lines of those pieces by which data brings
//! marks of html in, or as a page of html.
//!
//! ```
//! print_origins(rt.alloc(), &registry, source, &data, "page.hbs", Form::Lines, &mut rt.stdout())?;
//! // {"text":"a&amp;b","kind":"value","template":"page.hbs","line":1,"column":1,"turns":[],"path":["name"]}
//! ```
#![tactic(auto)]

mod error;
mod form;
mod line;
mod marks;
mod origins;
mod page;
mod printer;

pub use error::OriginsError;
pub use form::Form;
pub use origins::print_origins;
