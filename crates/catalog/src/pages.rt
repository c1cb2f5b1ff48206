//! The pages, written to files.

use crate::failure::Failure;
use crate::shop::{ProductPage, Shop};
use handlebars::{Handlebars, RenderError, TemplateReader};
use log::sink::Discard;
use serde::Serialize;
use std::fs;
use std::fs::File;
use std::io::{BufWriter, Input, Write};
use std::rt::Files;

/// A registry, and the folder that its pages are written to.
#[derive(Drop)]
pub struct Site<'a, R> {
    pub rt: &'a R,
    pub registry: &'a Handlebars,
    pub folder: &'a str,
}

impl<R: Files + Input + Print + AllocGlobal> Site<'_, R> {
    /// Writes the index and the page of each product.
    pub fn write<F: TemplateReader>(&self, shop: &Shop, files: &mut F) -> Result<(), Failure> {
        fs::create_dir_all(self.rt, self.folder)?;
        self.write_page("index", "index", shop, files)?;
        for product in &shop.products {
            let page = ProductPage {
                shop: shop.name,
                product,
            };
            self.write_page(product.id, "product", &page, files)?;
        }
        Ok(())
    }

    /// Writes all pages, and writes them again for each line of the input. In dev mode the registry reads the files of its
    /// templates each time, so changes of a template show. If a template is rejected, its error is printed, and the run goes
    /// on.
    pub fn watch<F: TemplateReader>(&self, shop: &Shop, files: &mut F) -> Result<(), Failure> {
        self.write_or_report(shop, files)?;
        for line in self.rt.lines(self.rt.alloc()) {
            line?;
            self.write_or_report(shop, files)?;
        }
        Ok(())
    }

    fn write_or_report<F: TemplateReader>(
        &self,
        shop: &Shop,
        files: &mut F,
    ) -> Result<(), Failure> {
        if let Err(failure) = self.write(shop, files) {
            println!(self.rt; "{failure}")?;
        }
        println!(self.rt; "Change a template, and press Enter.")?;
        Ok(())
    }

    // Writes a page, and then prints its path.
    fn write_page<T: Serialize, F: TemplateReader>(
        &self,
        page: &str,
        template: &str,
        data: &T,
        files: &mut F,
    ) -> Result<(), Failure> {
        let folder = self.folder;
        let path = format!(in self.rt.alloc(); "{folder}/{page}.html")?;
        match self.render(path.as_str(), template, data, files) {
            Ok(()) => Ok(println!(self.rt; "{path}")?),
            Err(cause) => Err(Failure::Page(path, cause)),
        }
    }

    // Writes through a buffer, which is also flushed after an error: the file then holds the output that precedes the error.
    fn render<T: Serialize, F: TemplateReader>(
        &self,
        path: &str,
        template: &str,
        data: &T,
        files: &mut F,
    ) -> Result<(), RenderError> {
        let mut page = BufWriter::new(self.rt.alloc(), File::create(self.rt, path)?)?;
        let answer = self
            .registry
            .render_to_write(template, data, &mut page, &Discard, files);
        let flushed = page.flush();
        answer?;
        Ok(flushed?)
    }
}
