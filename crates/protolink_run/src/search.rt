//! Looking for files in folders.

use crate::host::Host;
use crate::paths::{Place, canonical, is_name, moved};
use std::alloc::{AllocError, Global};
use std::io;

/// What comes of a file that is named on the command line.
#[derive(Drop)]
pub(crate) enum Input {
    /// Its name, as imports have it.
    Named(String),
    /// A file of an earlier folder has its name: the path of that file.
    Shadowed(String),
    /// It lies in no folder.
    Outside,
    /// There is no such file.
    Missing,
    /// It is a folder.
    Folder,
}

// The path of the first thing that has this name in one of the folders, if there is one.
fn first_path<H: Host>(
    alloc: Global,
    host: &H,
    places: &[Place],
    name: &str,
) -> io::Result<Option<String>> {
    for place in places {
        if let Some(path) = moved(alloc, name, place.name.as_str(), place.path.as_str())? {
            if host.exists(path.as_str())? {
                return Ok(Some(path));
            }
        }
    }
    Ok(None)
}

// The path of the first file that has this name in one of the folders, if there is one. A folder
// of this name is passed by.
fn first_file<H: Host>(
    alloc: Global,
    host: &H,
    places: &[Place],
    name: &str,
) -> io::Result<Option<String>> {
    for place in places {
        if let Some(path) = moved(alloc, name, place.name.as_str(), place.path.as_str())? {
            if host.exists(path.as_str())? && !host.is_folder(path.as_str())? {
                return Ok(Some(path));
            }
        }
    }
    Ok(None)
}

/// The path of the file of this name. A name may not lead up, or have parts that count for nothing.
pub(crate) fn path_of<H: Host>(
    alloc: Global,
    host: &H,
    places: &[Place],
    name: &str,
) -> io::Result<Option<String>> {
    if !is_name(alloc, name)? {
        return Ok(None);
    }
    first_file(alloc, host, places, name)
}

// The name of a path in the first folder that holds it, and how many folders come before that one.
fn name_of(
    alloc: Global,
    places: &[Place],
    path: &str,
) -> Result<Option<(String, usize)>, AllocError> {
    for (index, place) in places.iter().enumerate() {
        if let Some(name) = moved(alloc, path, place.path.as_str(), place.name.as_str())? {
            return Ok(Some((name, index)));
        }
    }
    Ok(None)
}

// A word that is no path may be a name.
fn by_name<H: Host>(
    alloc: Global,
    host: &H,
    places: &[Place],
    word: &str,
    otherwise: Input,
) -> io::Result<Input> {
    match path_of(alloc, host, places, word)? {
        Some(_) => Ok(Input::Named(String::from_str(alloc, word)?)),
        None => Ok(otherwise),
    }
}

/// What a word of the command line names: a path, or else a name in one of the folders.
pub(crate) fn input_of<H: Host>(
    alloc: Global,
    host: &H,
    places: &[Place],
    word: &str,
) -> io::Result<Input> {
    if !host.exists(word)? {
        return by_name(alloc, host, places, word, Input::Missing);
    }
    let path = canonical(alloc, word)?;
    let Some((name, index)) = name_of(alloc, places, path.as_str())? else {
        return by_name(alloc, host, places, word, Input::Outside);
    };
    let earlier = places.get(..index).unwrap_or(places);
    if let Some(other) = first_path(alloc, host, earlier, name.as_str())? {
        return Ok(Input::Shadowed(other));
    }
    if host.is_folder(word)? {
        return Ok(Input::Folder);
    }
    Ok(Input::Named(name))
}

// Whether a folder holds the files that come with the program.
fn holds_own_files<H: Host>(alloc: Global, host: &H, folder: &str) -> io::Result<bool> {
    let path = format!(in alloc; "{folder}/google/protobuf/descriptor.proto")?;
    host.exists(path.as_str())
}

/// The folder of the files that come with the program: the one in which the program is, or `include`
/// in that, or `include` beside that; the first that has them.
pub(crate) fn beside_program<H: Host>(alloc: Global, host: &H) -> io::Result<Option<String>> {
    let Some((folder, _)) = host.program().and_then(|path| path.rsplit_once('/')) else {
        return Ok(None);
    };
    if holds_own_files(alloc, host, folder)? {
        return Ok(Some(String::from_str(alloc, folder)?));
    }
    let inner = format!(in alloc; "{folder}/include")?;
    if holds_own_files(alloc, host, inner.as_str())? {
        return Ok(Some(inner));
    }
    let Some((outer, _)) = folder.rsplit_once('/') else {
        return Ok(None);
    };
    let beside = format!(in alloc; "{outer}/include")?;
    if holds_own_files(alloc, host, beside.as_str())? {
        return Ok(Some(beside));
    }
    Ok(None)
}
