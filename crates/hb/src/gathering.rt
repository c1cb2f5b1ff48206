//! The files that are checked.

ghost use Rattle.std.specs.Prelude.{◌≡◌, IfErr, IfOk, None, Ok, OnOk, true};
ghost use Rattle.hb.specs.Checks.{ArePages, IsPlain, IsSamePath};
ghost use Rattle.hb_command.specs.Failures.{EndsWith};

use handlebars::{
    DirectorySourceOptions, EntryKind, FileReader, Registry, TemplateError, TemplateReader,
};
use hb_check::File;
use hb_command::failure::{Failure, Kind};
use hb_command::input::read_template;
use hb_command::message::{shown, unlisted, unreadable};
use hb_command::system::System;
use std::alloc::{AllocError, Global};
use std::{fs, io};

/// The files that are checked, and the names of those that are rendered as pages.
#[derive(Drop)]
pub struct Gathered {
    files: Vec<OwnedFile>,
    pages: Vec<String>,
}

// A file with its texts. Its name is that under which a partial call finds it, or has a NUL before its path if none does.
#[derive(Drop)]
struct OwnedFile {
    name: String,
    path: String,
    text: String,
}

impl Gathered {
    ghost use Rattle.std.specs.Prelude.{◌≡◌, ◌∷◌, ◌++◌, [], IfErr, IfOk, IfSome, List, OnOk, map, string_bytes};
    ghost use Rattle.handlebars_base.specs.Bytes.{Text};
    ghost use Rattle.hb.specs.Checks.{FileText, IsPageAt, count_of, file_text, files_of, pages_of};
    ghost use Rattle.hb_command.specs.Failures.{EndsWith};

    fn new(alloc: Global) -> Gathered
        ensures { pages_of result ≡ [] }
    {
        Gathered {
            files: Vec::new(alloc),
            pages: Vec::new(alloc),
        }
    }

    /// Returns how many files there are.
    pub fn count(&self) -> usize
        ensures { result ≡ count_of self.now }
    {
        self.files.len()
    }

    /// Returns the files.
    pub fn files(&self, alloc: Global) -> Result<Vec<File<'_>>, AllocError>
        ensures { IfOk result (λ fs. map file_text fs.items ≡ files_of self.now) }
    {
        let mut files = Vec::new(alloc);
        'files: for file in &self.files {
            files.push(File {
                name: file.name.as_str(),
                path: file.path.as_str(),
                text: file.text.as_str(),
            })?;
        }
        Ok(files)
    }

    /// Returns the names of the files that are rendered as pages.
    pub fn pages(&self, alloc: Global) -> Result<Vec<&str>, AllocError>
        ensures { IfOk result (λ ps. map (λ p. p.now) ps.items ≡ pages_of self.now) }
    {
        let mut pages = Vec::new(alloc);
        'pages: for name in &self.pages {
            pages.push(name.as_str())?;
        }
        Ok(pages)
    }

    // Adds the file of a path as a page. It is read if it is none of a folder.
    fn add_page<R: System>(&mut self, rt: &R, path: &str) -> Result<(), Failure>
        ensures files { OnOk result ((more : List FileText) × (files_of self.new ≡ files_of self.old ++ more)) }
        ensures page { OnOk result ((name : Text) × (pages_of self.new ≡ pages_of self.old ++ name ∷ [])
            × IsPageAt (files_of self.new) name path.now) }
        ensures err { IfErr result (λ f. EndsWith 2 f) }
    {
        let name = self.page_at(rt, path)?;
        self.pages.push(name)?;
        Ok(())
    }

    // Returns the name of the file of a path. It is read if it is none of a folder.
    fn page_at<R: System>(&mut self, rt: &R, path: &str) -> Result<String, Failure>
        ensures pages { pages_of self.new ≡ pages_of self.old }
        ensures files { OnOk result ((more : List FileText) × (files_of self.new ≡ files_of self.old ++ more)) }
        ensures page { IfOk result (λ name. IsPageAt (files_of self.new) (string_bytes name) path.now) }
        ensures err { IfErr result (λ f. EndsWith 2 f) }
    {
        match self.name_at(path) {
            Some(name) => Ok(String::from_str(rt.alloc(), name)?),
            None => self.read_page(rt, path),
        }
    }

    // Returns the name of the file of a folder that is at a path, if one is.
    fn name_at(&self, path: &str) -> Option<&str>
        ensures { IfSome result (λ name. IsPageAt (files_of self.now) name.now path.now) }
    {
        'files: for file in &self.files {
            if is_same_path(file.path.as_str(), path) {
                return Some(file.name.as_str());
            }
        }
        None
    }

    // Reads a template that is in no folder, and returns its name. No partial call has it.
    fn read_page<R: System>(&mut self, rt: &R, path: &str) -> Result<String, Failure>
        ensures pages { pages_of self.new ≡ pages_of self.old }
        ensures files { OnOk result ((more : List FileText) × (files_of self.new ≡ files_of self.old ++ more)) }
        ensures page { IfOk result (λ name. IsPageAt (files_of self.new) (string_bytes name) path.now) }
        ensures err { IfErr result (λ f. EndsWith 2 f) }
    {
        let text = page_text(rt, path)?;
        let name = format!(in rt.alloc(); "\0{path}")?;
        self.files.push(OwnedFile {
            name: String::from_str(rt.alloc(), name.as_str())?,
            path: String::from_str(rt.alloc(), shown(path))?,
            text,
        })?;
        Ok(name)
    }
}

// Reads a template. One that is a folder is a failure.
fn page_text<R: System>(rt: &R, path: &str) -> Result<String, Failure>
    ensures { IfErr result (λ f. EndsWith 2 f) }
{
    if is_folder(rt, path) {
        return Err(Failure::new(
            Kind::Arguments,
            format!(in rt.alloc(); "\"{path}\" is a folder: name it by -p"),
        ));
    }
    read_template(rt, path)
}

fn is_same_path(left: &str, right: &str) -> bool
    ensures { result ≡ true → IsSamePath left.now right.now }
{
    plain(left) == plain(right)
}

fn plain(path: &str) -> &str
    ensures { IsPlain path.now result.now }
{
    match path.strip_prefix("./") {
        Some(rest) => rest,
        None => path,
    }
}

/// Reads the files of folders, in order, and then these templates. A template that is a file of a folder is read once.
///
/// # Errors
///
/// Fails if a folder can't be listed, if a file can't be read, or if memory runs out.
pub fn gather<R: System>(rt: &R, folders: &[&str], templates: &[&str]) -> Result<Gathered, Failure>
    ensures { IfOk result (λ g. ArePages g templates.now) }
{
    let mut gathered = Gathered::new(rt.alloc());
    let mut files = FileReader::new(rt, rt.alloc());
    'folders: for folder in folders {
        gather_folder(
            rt.alloc(),
            folder.trim_end_matches('/'),
            &mut files,
            &mut gathered.files,
        )?;
    }
    'templates: for path in templates {
        gathered.add_page(rt, path)?;
    }
    Ok(gathered)
}

fn is_folder<R: System>(rt: &R, path: &str) -> bool {
    match fs::metadata(rt, path) {
        Ok(found) => found.is_dir(),
        Err(_) => false,
    }
}

// Reads the files of a folder as a registry does that registers it, but for a folder that can't be listed, which is a failure.
fn gather_folder<F: TemplateReader>(
    alloc: Global,
    folder: &str,
    files: &mut F,
    found: &mut Vec<OwnedFile>,
) -> Result<(), Failure> {
    let mut reader = Gathering {
        alloc,
        folder,
        files,
        found,
        failure: None,
    };
    let mut registry = Registry::new(alloc)?;
    let answer = registry.register_templates_directory(
        folder,
        DirectorySourceOptions::default(),
        &mut reader,
    );
    outcome(reader.failure.take(), answer)
}

// A walk ends well if nothing on its way failed. Since nothing is compiled, it fails otherwise only if memory runs out.
fn outcome(failure: Option<Failure>, answer: Result<(), TemplateError>) -> Result<(), Failure>
    ensures { OnOk result ((failure ≡ None) × (answer ≡ Ok tt)) }
{
    match failure {
        Some(failure) => Err(failure),
        None => match answer {
            Ok(()) => Ok(()),
            Err(_) => Err(Failure::out_of_memory()),
        },
    }
}

// A reader that keeps what it reads, and gives empty texts instead, so that nothing is compiled. It notes the first folder that
// can't be listed and the first file that can't be read.
#[derive(Drop)]
struct Gathering<'g, F> {
    alloc: Global,
    folder: &'g str,
    files: &'g mut F,
    found: &'g mut Vec<OwnedFile>,
    failure: Option<Failure>,
}

impl<F: TemplateReader> TemplateReader for Gathering<'_, F> {
    ghost use Rattle.std.specs.Prelude.{IsSome, OnErr};

    ghost reads = { λ before path answer after. Unit {0} };

    ghost lists = { λ before folder answer after. (F.lists before.files.now folder answer after.files.now)
        × OnErr answer (IsSome after.failure) };

    fn read(&mut self, path: &str) -> Result<String, io::Error> {
        match self.files.read(path) {
            Ok(text) => {
                self.keep(path, text)?;
                Ok(String::new(self.alloc))
            }
            Err(cause) => {
                if self.failure.is_none() {
                    self.failure = Some(unreadable(self.alloc, path, &cause));
                }
                Err(cause)
            }
        }
    }

    fn list(&mut self, folder: &str) -> Result<Vec<(String, EntryKind)>, io::Error> {
        match self.files.list(folder) {
            Ok(entries) => Ok(entries),
            Err(cause) => {
                if self.failure.is_none() {
                    self.failure = Some(unlisted(self.alloc, folder, &cause));
                }
                Err(cause)
            }
        }
    }
}

impl<F> Gathering<'_, F> {
    // Keeps a text under the name of its file in the folder.
    fn keep(&mut self, path: &str, text: String) -> Result<(), AllocError> {
        let name = String::from_str(self.alloc, name_in(self.folder, path))?;
        let path = String::from_str(self.alloc, path)?;
        self.found.push(OwnedFile { name, path, text })?;
        Ok(())
    }
}

// The path of a template below its folder, without the ending.
fn name_in<'p>(folder: &str, path: &'p str) -> &'p str {
    let below = path.strip_prefix(folder).unwrap_or(path);
    let below = below.strip_prefix("/").unwrap_or(below);
    below.strip_suffix(".hbs").unwrap_or(below)
}
