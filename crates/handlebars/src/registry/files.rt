//! Registration of files and folders.

ghost use Rattle.std.specs.IoError.{error_kind};
ghost use Rattle.std.specs.Prelude.{◌≡◌, ◌≢◌, ◌++◌, ◌∷◌, [], IfOk, IfErr, OnErr};
ghost use Rattle.std.specs.Prelude.{OnOk, Ok, Err, Result, string_bytes};
ghost use Rattle.std.specs.declared.io.ErrorKind.TheVariants.{OutOfMemory};
ghost use Rattle.handlebars_base.specs.Reasons.{template_out_of_memory};
ghost use Rattle.handlebars_base.specs.TemplateRefusals.{template_refusal_of};
ghost use Rattle.handlebars_template.specs.Tree.{Tree};
ghost use Rattle.handlebars_template.specs.TreeView.{tree_view};
ghost use Rattle.handlebars.specs.Files.{HasLoaded, HoldsKind, IsStopFor, LoadsFile, Stop, unreadable_file};
ghost use Rattle.handlebars.specs.Folder.{IsInOrder, WalkedFolder, Registers, a_folder, an_entry};
ghost use Rattle.handlebars.specs.Folder.{below_at, filter_of, entries_of, child_path, whole_folder};
ghost use Rattle.handlebars.specs.View.{modes_of};

use crate::registry::RegistryOf;
use crate::sources::{DirectorySourceOptions, EntryKind, TemplateReader};
use handlebars_base::error::{TemplateError, TemplateErrorReason};
use handlebars_template::template::Template;
use std::alloc::{AllocError, Global};
use std::io;
use std::io::ErrorKind;

/// How many levels of folders are walked below the one that is registered.
const FOLDER_LEVELS: u8 = 64;

impl<E: Drop> RegistryOf<E> {
    /// Reads a file, compiles its text and registers the tree under the name, and replaces the one that was registered
    /// under it. In dev mode the file is remembered, and read anew at each rendering.
    ///
    /// # Errors
    ///
    /// Fails with the error of the file if it can't be read, with the error of its source if it doesn't compile, or
    /// when memory runs out. Then nothing is changed.
    pub fn register_template_file<R: TemplateReader>(
        &mut self,
        name: &str,
        path: &str,
        files: &mut R,
    ) -> Result<(), TemplateError>
        ensures ok { OnOk result ((t : Tree)
            × LoadsFile R.reads (modes_of self.old).prevent_indent name.now path.now files.old (Ok t) files.new
            × HasLoaded (record { name = name.now; path = path.now; tree = t } ∷ []) self.old self.new) }
        ensures err { IfErr result (λ e. (why : Stop) × IsStopFor e why
            × LoadsFile R.reads (modes_of self.old).prevent_indent name.now path.now files.old (Err why) files.new) }
        ensures unchanged { OnErr result (HasLoaded [] self.old self.new) }
    {
        let template = self.read_template(name, path, files)?;
        self.register_file(name, path, template)?;
        Ok(())
    }

    /// Registers the files of a folder and of the folders in it, each under its path below the folder, without the
    /// extension. The entries of a folder are taken in byte order of name. A folder that can't be listed counts as
    /// empty, and so does one more than 64 levels below the given one.
    ///
    /// # Errors
    ///
    /// Fails with the error of the first file that can't be read or doesn't compile, or when memory runs out. The files
    /// before it stay registered.
    pub fn register_templates_directory<R: TemplateReader>(
        &mut self,
        folder: &str,
        options: DirectorySourceOptions<'_>,
        files: &mut R,
    ) -> Result<(), TemplateError>
        ensures { Registers R.reads R.lists (filter_of options.entry) (a_folder (whole_folder folder.now))
            self.old self.new files.old files.new result }
    {
        self.register_folder(&options, folder, "", FOLDER_LEVELS, files)
    }

    // The files of a folder and of so many levels of folders below it. The path to the folder is the prefix of their
    // names.
    #[cycle(folder)]
    fn register_folder<R: TemplateReader>(
        &mut self,
        options: &DirectorySourceOptions<'_>,
        folder: &str,
        prefix: &str,
        levels: u8,
        files: &mut R,
    ) -> Result<(), TemplateError>
        ensures { Registers R.reads R.lists (filter_of options.now)
            (a_folder (record { path = folder.now; prefix = prefix.now; levels = levels }))
            self.old self.new files.old files.new result }
    {
        match files.list(folder) {
            Ok(listed) => {
                let entries = in_order(listed)?;
                self.register_entries(options, folder, prefix, levels, entries.as_slice(), files)
            }
            Err(cause) => passed_over(&cause),
        }
    }

    // Those of the entries of a folder.
    #[cycle(folder)]
    fn register_entries<R: TemplateReader>(
        &mut self,
        options: &DirectorySourceOptions<'_>,
        folder: &str,
        prefix: &str,
        levels: u8,
        entries: &[(String, EntryKind)],
        files: &mut R,
    ) -> Result<(), TemplateError>
        ensures { Registers R.reads R.lists (filter_of options.now)
            (entries_of (record { path = folder.now; prefix = prefix.now; levels = levels }) entries.now)
            self.old self.new files.old files.new result }
    {
        'entries: for entry in entries {
            self.register_entry(options, folder, prefix, levels, entry, files)?;
        }
        Ok(())
    }

    // Those of an entry.
    #[cycle(folder)]
    fn register_entry<R: TemplateReader>(
        &mut self,
        options: &DirectorySourceOptions<'_>,
        folder: &str,
        prefix: &str,
        levels: u8,
        entry: &(String, EntryKind),
        files: &mut R,
    ) -> Result<(), TemplateError>
        ensures { Registers R.reads R.lists (filter_of options.now)
            (an_entry (record { path = folder.now; prefix = prefix.now; levels = levels }) entry.now)
            self.old self.new files.old files.new result }
    {
        let alloc = self.alloc;
        let name = &entry.0;
        let mut path = after(alloc, folder, "/")?;
        path.push_str(name.as_str())?;
        let below = after(alloc, prefix, name.as_str())?;
        match entry.1 {
            EntryKind::File => {
                self.register_found(options, path.as_str(), below.as_str(), name, files)
            }
            EntryKind::Folder => {
                let Some(levels) = levels.checked_sub(1) else {
                    return Ok(());
                };
                let prefix = after(alloc, below.as_str(), "/")?;
                self.register_folder(options, path.as_str(), prefix.as_str(), levels, files)
            }
        }
    }

    // The file at a path, if it is taken, under its path below the folder.
    fn register_found<R: TemplateReader>(
        &mut self,
        options: &DirectorySourceOptions<'_>,
        path: &str,
        below: &str,
        name: &String,
        files: &mut R,
    ) -> Result<(), TemplateError>
        ensures { (p : WalkedFolder) → path.now ≡ child_path p (string_bytes name.now)
            → below.now ≡ below_at p (string_bytes name.now)
            → Registers R.reads R.lists (filter_of options.now) (an_entry p (name.now, EntryKind.File))
            self.old self.new files.old files.new result }
    {
        if options.takes(path, name.as_str()) {
            self.register_template_file(options.name_in(below), path, files)
        } else {
            Ok(())
        }
    }

    // The tree of a file, for this name.
    pub(crate) fn read_template<R: TemplateReader>(
        &self,
        name: &str,
        path: &str,
        files: &mut R,
    ) -> Result<Template, TemplateError>
        ensures ok { IfOk result (λ t. LoadsFile R.reads (modes_of self.now).prevent_indent name.now path.now files.old
            (Ok (tree_view t)) files.new) }
        ensures err { IfErr result (λ e. (why : Stop) × IsStopFor e why
            × LoadsFile R.reads (modes_of self.now).prevent_indent name.now path.now files.old (Err why) files.new) }
    {
        match files.read(path) {
            Ok(source) => self.compiled_as(name, source.as_str()),
            Err(cause) => Err(unread(self.alloc, name, cause)),
        }
    }

    // Registers a file's tree, and remembers the file in dev mode. When memory runs out, nothing is changed.
    fn register_file(
        &mut self,
        name: &str,
        path: &str,
        template: Template,
    ) -> Result<(), AllocError>
        ensures ok { OnOk result (HasLoaded
            (record { name = name.now; path = path.now; tree = tree_view template } ∷ [])
            self.old self.new) }
        ensures unchanged { OnErr result (HasLoaded [] self.old self.new) }
    {
        let before = self.dev.remember(self.alloc, name, path)?;
        match self.register_template(name, template) {
            Ok(()) => Ok(()),
            Err(AllocError) => {
                self.dev.take_back(name, before);
                Err(AllocError)
            }
        }
    }
}

// The error of a template whose file can't be read.
fn unread(alloc: Global, name: &str, cause: io::Error) -> TemplateError
    ensures refusal { (template_refusal_of result).reason ≢ template_out_of_memory
        → (template_refusal_of result ≡ unreadable_file name.now) × HoldsKind (error_kind cause) result
        × (error_kind cause ≢ OutOfMemory) }
{
    match cause.kind() {
        ErrorKind::OutOfMemory => TemplateError::of(TemplateErrorReason::OutOfMemory),
        _ => match String::from_str(alloc, name) {
            Ok(name) => TemplateError::from((cause, name)),
            Err(AllocError) => TemplateError::of(TemplateErrorReason::OutOfMemory),
        },
    }
}

// A folder that can't be listed counts as empty, unless listing it ran out of memory.
fn passed_over(cause: &io::Error) -> Result<(), TemplateError>
    ensures ok { OnOk result (error_kind cause.now ≢ OutOfMemory) }
    ensures err { IfErr result (λ e. (template_refusal_of e).reason ≡ template_out_of_memory) }
{
    match cause.kind() {
        ErrorKind::OutOfMemory => Err(TemplateError::of(TemplateErrorReason::OutOfMemory)),
        _ => Ok(()),
    }
}

// The entries in byte order of name, equal ones as they were listed.
fn in_order(listed: Vec<(String, EntryKind)>) -> Result<Vec<(String, EntryKind)>, AllocError>
    ensures { IfOk result (λ v. IsInOrder listed.items v.items) }
{
    let mut entries = listed;
    entries.sort_by(|a, b| a.0.cmp(&b.0))?;
    Ok(entries)
}

// A text after another.
fn after(alloc: Global, prefix: &str, text: &str) -> Result<String, AllocError>
    ensures { IfOk result (λ s. string_bytes s ≡ prefix.now ++ text.now) }
{
    let mut joined = String::from_str(alloc, prefix)?;
    joined.push_str(text)?;
    Ok(joined)
}
