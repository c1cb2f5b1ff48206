//! The files of templates that are remembered in dev mode.

ghost use Rattle.std.specs.Prelude.{◌≡◌, true, cond, is_some, IfOk, OnOk};
ghost use Rattle.std.specs.Prelude.{OnErr, None, Some, option_map, string_bytes};
ghost use Rattle.handlebars_base.specs.Bytes.{Text};
ghost use Rattle.handlebars.specs.Files.{IsByName, files_in, source_path, path_put};

use std::alloc::{AllocError, Global};
use std::collections::BTreeMap;

/// In dev mode, the paths of the files of templates, by the names of the templates.
#[derive(Drop)]
pub struct DevFiles {
    paths: Option<BTreeMap<String, String>>,
}

impl DevFiles {
    /// Creates it without dev mode.
    pub fn new() -> DevFiles
        ensures { result.paths ≡ None }
    {
        DevFiles { paths: None }
    }

    /// Returns whether dev mode is on.
    pub fn is_on(&self) -> bool
        ensures { result ≡ is_some self.now.paths }
    {
        self.paths.is_some()
    }

    /// Switches dev mode on, with the files that are remembered, or off.
    pub fn switch(&mut self, alloc: Global, on: bool)
        ensures on { is_some self.new.paths ≡ on }
        ensures files { (name : Text) → source_path self.new.paths name ≡ cond on (source_path self.old.paths name) None }
    {
        if !on {
            self.paths = None;
        } else if self.paths.is_none() {
            self.paths = Some(BTreeMap::new(alloc));
        }
    }

    /// Returns the path under a name, if one is remembered.
    pub fn path(&self, name: &str) -> Option<&String>
        ensures { option_map (λ s. string_bytes s.now) result ≡ source_path self.now.paths name.now }
    {
        match &self.paths {
            Some(paths) => paths.get(name),
            None => None,
        }
    }

    /// Remembers a path under a name in dev mode, and returns the one that it replaces.
    pub fn remember(
        &mut self,
        alloc: Global,
        name: &str,
        path: &str,
    ) -> Result<Option<String>, AllocError>
        ensures before { IfOk result (λ before. option_map string_bytes before ≡ source_path self.old.paths name.now) }
        ensures ok { OnOk result ((other : Text) → source_path self.new.paths other
            ≡ path_put (is_some self.old.paths) name.now (Some path.now) (source_path self.old.paths) other) }
        ensures err { OnErr result ((other : Text) → source_path self.new.paths other ≡ source_path self.old.paths other) }
        ensures on { is_some self.new.paths ≡ is_some self.old.paths }
    {
        match &mut self.paths {
            Some(paths) => put(alloc, paths, name, path),
            None => Ok(None),
        }
    }

    /// Undoes the last change under a name: what was remembered before is remembered again.
    pub fn take_back(&mut self, name: &str, before: Option<String>)
        ensures back { is_some (source_path self.old.paths name.now) ≡ is_some self.old.paths → (other : Text)
            → source_path self.new.paths other
            ≡ path_put (is_some self.old.paths) name.now (option_map string_bytes before)
            (source_path self.old.paths) other }
        ensures on { is_some self.new.paths ≡ is_some self.old.paths }
    {
        match before {
            Some(path) => self.put_back(name, path),
            None => self.forget(name),
        }
    }

    fn put_back(&mut self, name: &str, path: String)
        ensures back { is_some (source_path self.old.paths name.now) ≡ is_some self.old.paths → (other : Text)
            → source_path self.new.paths other
            ≡ path_put (is_some self.old.paths) name.now (Some (string_bytes path)) (source_path self.old.paths) other }
        ensures on { is_some self.new.paths ≡ is_some self.old.paths }
    {
        if let Some(paths) = &mut self.paths {
            replace(paths, name, path);
        }
    }

    /// Forgets the file under a name.
    pub fn forget(&mut self, name: &str)
        ensures gone { (other : Text) → source_path self.new.paths other
            ≡ path_put (is_some self.old.paths) name.now None (source_path self.old.paths) other }
        ensures on { is_some self.new.paths ≡ is_some self.old.paths }
    {
        if let Some(paths) = &mut self.paths {
            paths.remove(name);
        }
    }

    /// Forgets all files.
    pub fn forget_all(&mut self)
        ensures none { (name : Text) → source_path self.new.paths name ≡ None }
        ensures on { is_some self.new.paths ≡ is_some self.old.paths }
    {
        if let Some(paths) = &mut self.paths {
            paths.clear();
        }
    }

    /// Shows that the files are in order of the names, each name once.
    pub fn are_in_order(&self)
        ensures { IsByName (files_in self.now.paths) }
    {
        if let Some(paths) = &self.paths {
            let _count = paths.len();
        }
    }

    /// Returns all paths, in order of the names.
    pub fn paths(&self) -> Option<&BTreeMap<String, String>>
        ensures { option_map (λ m. m.now) result ≡ self.now.paths }
    {
        self.paths.as_ref()
    }
}

// Puts a path under a name, and returns the one that it replaces.
fn put(
    alloc: Global,
    paths: &mut BTreeMap<String, String>,
    name: &str,
    path: &str,
) -> Result<Option<String>, AllocError>
    ensures before { IfOk result (λ before. option_map string_bytes before ≡ source_path (Some paths.old) name.now) }
    ensures ok { OnOk result ((other : Text) → source_path (Some paths.new) other
        ≡ path_put true name.now (Some path.now) (source_path (Some paths.old)) other) }
    ensures err { OnErr result ((other : Text) → source_path (Some paths.new) other ≡ source_path (Some paths.old) other) }
{
    let key = String::from_str(alloc, name)?;
    let value = String::from_str(alloc, path)?;
    Ok(paths.insert(key, value)?)
}

// Replaces the path under a name.
fn replace(paths: &mut BTreeMap<String, String>, name: &str, path: String)
    ensures { is_some (source_path (Some paths.old) name.now) ≡ true → (other : Text) → source_path (Some paths.new) other
        ≡ path_put true name.now (Some (string_bytes path)) (source_path (Some paths.old)) other }
{
    if let Some(slot) = paths.get_mut(name) {
        *slot = path;
    }
}
