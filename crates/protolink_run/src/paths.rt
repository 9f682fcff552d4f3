//! Names of files, and where they lie. All is done with texts: nobody looks where paths lead to.

use protolink_words::Folder;
use std::alloc::{AllocError, Global};

/// A folder: what names in it have in front, and its path, both without parts that count for nothing.
#[derive(Drop)]
pub(crate) struct Place {
    pub(crate) name: String,
    pub(crate) path: String,
}

// Adds a part to a path, behind a slash unless it is the first.
fn push_part(path: &mut String, part: &str) -> Result<(), AllocError> {
    if !path.is_empty() && !path.as_str().ends_with('/') {
        path.push_str("/")?;
    }
    path.push_str(part)
}

/// The path without `.` and without empty parts. A slash in front stays, and one at the end.
pub(crate) fn canonical(alloc: Global, path: &str) -> Result<String, AllocError> {
    let mut made = String::from_str(alloc, if path.starts_with('/') { "/" } else { "" })?;
    for part in path.split('/') {
        if !part.is_empty() && part != "." {
            push_part(&mut made, part)?;
        }
    }
    if path.ends_with('/') && !made.is_empty() && !made.as_str().ends_with('/') {
        made.push_str("/")?;
    }
    Ok(made)
}

// Whether a part of the path leads up.
fn leads_up(path: &str) -> bool {
    for part in path.split('/') {
        if part == ".." {
            return true;
        }
    }
    false
}

/// Whether a path may be the name of a file: none of its parts leads up or counts for nothing.
pub(crate) fn is_name(alloc: Global, path: &str) -> Result<bool, AllocError> {
    if leads_up(path) {
        return Ok(false);
    }
    let made = canonical(alloc, path)?;
    Ok(made.as_str() == path)
}

// What stands behind a folder in a path. The empty one is in front of each relative path.
fn behind<'a>(path: &'a str, folder: &str) -> Option<&'a str> {
    if folder.is_empty() {
        return if path.starts_with('/') {
            None
        } else {
            Some(path)
        };
    }
    let rest = path.strip_prefix(folder)?;
    if rest.is_empty() || folder.ends_with('/') {
        return Some(rest);
    }
    rest.strip_prefix('/')
}

/// The path with another folder in front, if it is in the one and doesn't lead up from it.
pub(crate) fn moved(
    alloc: Global,
    path: &str,
    from: &str,
    to: &str,
) -> Result<Option<String>, AllocError> {
    let Some(rest) = behind(path, from) else {
        return Ok(None);
    };
    if leads_up(rest) {
        return Ok(None);
    }
    let mut made = String::from_str(alloc, to)?;
    if !rest.is_empty() {
        if !made.is_empty() {
            made.push_str("/")?;
        }
        made.push_str(rest)?;
    }
    Ok(Some(made))
}

/// The folders in which files are looked for: with none named, the current one.
pub(crate) fn places(alloc: Global, folders: &[Folder<'_>]) -> Result<Vec<Place>, AllocError> {
    let mut places = Vec::new(alloc);
    for folder in folders {
        let name = String::from_str(alloc, folder.name)?;
        let path = canonical(alloc, folder.path)?;
        places.push(Place { name, path })?;
    }
    if places.is_empty() {
        let (name, path) = (String::new(alloc), String::new(alloc));
        places.push(Place { name, path })?;
    }
    Ok(places)
}
