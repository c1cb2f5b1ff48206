//! The files that arguments name.

use crate::failure::Failure;
use std::alloc::{AllocError, Global};
use std::rt::{Env, Files};
use std::{env, fs};

/// Returns the arguments of the command line, or the folder `data` if there are none.
pub fn arguments<R: Env + AllocGlobal>(rt: &R) -> Result<Vec<String>, Failure> {
    let args = env::args(rt).map_err(Failure::NoArguments)?;
    let mut arguments: Vec<String> = args.skip(1).collect(rt.alloc())?;
    if arguments.is_empty() {
        arguments.push(String::from_str(rt.alloc(), "data")?)?;
    }
    Ok(arguments)
}

/// Returns the paths of the files that an argument names. For a folder these are its `.json` files, in byte order of name.
pub fn file_paths<R: Files + AllocGlobal + Clone + Drop>(
    rt: &R,
    argument: &str,
) -> Result<Vec<String>, Failure> {
    if is_folder(rt, argument) {
        return folder_paths(rt, argument);
    }
    Ok(vec![in rt.alloc(); String::from_str(rt.alloc(), argument)?]?)
}

// A path that doesn't exist counts as a file: reading it then reports why there is none.
fn is_folder(rt: &impl Files, path: &str) -> bool {
    match fs::metadata(rt, path) {
        Ok(metadata) => metadata.is_dir(),
        Err(_) => false,
    }
}

fn folder_paths<R: Files + AllocGlobal + Clone + Drop>(
    rt: &R,
    folder: &str,
) -> Result<Vec<String>, Failure> {
    let mut paths = Vec::new(rt.alloc());
    push_paths(rt, folder, &mut paths)?;
    if paths.is_empty() {
        return Err(Failure::NoFiles);
    }
    paths.sort()?;
    Ok(paths)
}

fn push_paths<R: Files + AllocGlobal + Clone + Drop>(
    rt: &R,
    folder: &str,
    paths: &mut Vec<String>,
) -> Result<(), Failure> {
    for entry in fs::read_dir(rt, folder).map_err(Failure::CannotRead)? {
        let entry = entry.map_err(Failure::CannotRead)?;
        push_json(rt.alloc(), folder, entry.file_name(), paths)?;
    }
    Ok(())
}

fn push_json(
    alloc: Global,
    folder: &str,
    name: &str,
    paths: &mut Vec<String>,
) -> Result<(), AllocError> {
    if name.ends_with(".json") {
        paths.push(format!(in alloc; "{folder}/{name}")?)?;
    }
    Ok(())
}
