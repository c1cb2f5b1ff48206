//! The folders of templates that are registered.

use crate::message::rejected;
use handlebars::{
    DirectorySourceOptions, EntryKind, Registry, TemplateError, TemplateErrorReason, TemplateReader,
};
use hb_command::failure::{Failure, Kind};
use hb_command::message::{unlisted, unreadable};
use std::alloc::{AllocError, Global};
use std::io;

/// A reader that notes which paths were read, and the first folder that couldn't be listed.
#[derive(Drop)]
pub struct Noting<'f, F> {
    files: &'f mut F,
    alloc: Global,
    paths: Vec<String>,
    unlisted: Option<Failure>,
}

impl<'f, F: TemplateReader> Noting<'f, F> {
    /// Creates a reader over another one, which has noted nothing yet.
    pub fn new(alloc: Global, files: &'f mut F) -> Noting<'f, F> {
        Noting {
            files,
            alloc,
            paths: Vec::new(alloc),
            unlisted: None,
        }
    }
}

impl<F: TemplateReader> TemplateReader for Noting<'_, F> {
    ghost reads = { λ _ _ _ _. Unit {0} };

    ghost lists = { λ _ _ _ _. Unit {0} };

    fn read(&mut self, path: &str) -> Result<String, io::Error> {
        self.paths.push(String::from_str(self.alloc, path)?)?;
        self.files.read(path)
    }

    fn list(&mut self, folder: &str) -> Result<Vec<(String, EntryKind)>, io::Error> {
        match self.files.list(folder) {
            Ok(entries) => Ok(entries),
            Err(cause) => {
                if self.unlisted.is_none() {
                    self.unlisted = Some(unlisted(self.alloc, folder, &cause));
                }
                Err(cause)
            }
        }
    }
}

/// The paths of the files that are registered, in order.
#[derive(Drop)]
pub struct Registered {
    paths: Vec<String>,
}

impl Registered {
    /// Returns the path of the file that is registered under a name: the last one, since it replaced those before it.
    pub fn path_of(&self, folders: &[&str], name: &str) -> Option<&str> {
        for path in self.paths.iter().rev() {
            for folder in folders {
                if is_at(path.as_str(), folder, name) {
                    return Some(path.as_str());
                }
            }
        }
        None
    }
}

// Whether a path is that of the template of this name in a folder.
fn is_at(path: &str, folder: &str, name: &str) -> bool {
    match path.strip_prefix(folder) {
        Some(rest) => match rest.strip_prefix("/") {
            Some(below) => below.strip_suffix(".hbs") == Some(name),
            None => false,
        },
        None => false,
    }
}

/// Registers the templates of folders, in order.
pub fn register_folders<F: TemplateReader>(
    alloc: Global,
    registry: &mut Registry,
    folders: &[&str],
    files: &mut F,
) -> Result<Registered, Failure> {
    let mut noting = Noting::new(alloc, files);
    for folder in folders {
        register_folder(alloc, registry, folder, &mut noting)?;
    }
    let Noting {
        files: _,
        alloc: _,
        paths,
        unlisted: _,
    } = noting;
    Ok(Registered { paths })
}

fn register_folder<F: TemplateReader>(
    alloc: Global,
    registry: &mut Registry,
    folder: &str,
    noting: &mut Noting<'_, F>,
) -> Result<(), Failure> {
    let answer = registry.register_templates_directory(
        folder,
        DirectorySourceOptions::default(),
        noting,
    );
    if let Some(failure) = noting.unlisted.take() {
        return Err(failure);
    }
    match answer {
        Ok(()) => Ok(()),
        Err(cause) => Err(not_registered(alloc, noting.paths.last(), &cause)),
    }
}

// The failure of a template that can't be registered, which is the last one that was read.
fn not_registered(alloc: Global, path: Option<&String>, cause: &TemplateError) -> Failure {
    let path = match path {
        Some(path) => path.as_str(),
        None => "",
    };
    match cause.reason() {
        TemplateErrorReason::OutOfMemory => Failure::out_of_memory(),
        TemplateErrorReason::IoError(cause, _) => unreadable(alloc, path, cause),
        _ => rejected(alloc, path, cause),
    }
}
