//! The files of the folder that a program of rows is run in: `NAME.ENDING`, of which one ending names the rows; and what several
//! such programs share.
#![tactic(auto)]

pub mod failing;
pub mod neighbours;
pub mod texts;

use std::alloc::AllocGlobal;
use std::fs::Files;
use std::{fs, io};

/// The names before this ending, in the order of their bytes.
pub fn names_before<R: AllocGlobal + Files + Clone>(
    rt: &R,
    ending: &str,
) -> io::Result<Vec<String>> {
    let alloc = rt.alloc();
    let mut names = Vec::new(alloc);
    for entry in fs::read_dir(rt, ".")? {
        if let Some(name) = entry?.file_name().strip_suffix(ending) {
            names.push(String::from_str(alloc, name)?)?;
        }
    }
    names.sort()?;
    Ok(names)
}

/// The bytes of the file `NAME.ENDING`, or none where it isn't there.
pub fn bytes_of<R: AllocGlobal + Files + Clone>(
    rt: &R,
    name: &str,
    ending: &str,
) -> io::Result<Option<Vec<u8>>> {
    let path = format!(in rt.alloc(); "{name}.{ending}")?;
    match fs::read(rt, path) {
        Ok(bytes) => Ok(Some(bytes)),
        Err(e) if e.kind() == io::ErrorKind::NotFound => Ok(None),
        Err(e) => Err(e),
    }
}
