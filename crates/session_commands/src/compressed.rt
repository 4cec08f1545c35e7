//! Files of recorders that are there only as somebody has compressed them. None of them is read.

ghost use Rattle.std.specs.Prelude.{◌≡◌, ◌↔◌, IsTrue, OnOk, map, string_bytes};
ghost use Rattle.std.specs.List.{Contains};
ghost use Rattle.session_commands.specs.Found.{IsCompressed};
ghost use Rattle.session_commands.specs.inner.Compressing.{AddsCompressed};

use crate::found::joined;
use crate::stops::add;
use recorder_files::read_compressed_name;
use std::alloc::{AllocError, Global};

/// Returns whether this is one of the names.
pub(crate) fn is_among(names: &[String], name: &[u8]) -> bool
    ensures { IsTrue result ↔ Contains (map string_bytes names.now) name.now }
{
    for other in names {
        if other.as_bytes() == name {
            return true;
        }
    }
    false
}

/// Returns whether a name of a folder is that of a recorder's file that is only there compressed.
fn is_compressed(names: &[String], name: &str) -> bool
    ensures { IsTrue result ↔ IsCompressed (map string_bytes names.now) name.now }
{
    match read_compressed_name(name.as_bytes()) {
        Some(whole) => !is_among(names, whole),
        None => false,
    }
}

/// Adds the path of what has this name in a folder with these names, if it is a recorder's file that is only there compressed.
fn push_one(
    alloc: Global,
    paths: &mut Vec<String>,
    folder: &str,
    names: &[String],
    name: &str,
) -> Result<(), AllocError>
    ensures { OnOk result (AddsCompressed (map string_bytes names.now) (λ n. n ≡ name.now) folder.now (map string_bytes paths.old.items) (map string_bytes paths.new.items)) }
{
    if !is_compressed(names, name) {
        return Ok(());
    }
    let path = joined(alloc, folder, name)?;
    add(paths, path)
}

/// Adds the paths of the recorders' files in a folder with these names that are only there compressed.
pub(crate) fn push_compressed(
    alloc: Global,
    paths: &mut Vec<String>,
    folder: &str,
    names: &[String],
) -> Result<(), AllocError>
    ensures { OnOk result (AddsCompressed (map string_bytes names.now) (Contains (map string_bytes names.now)) folder.now (map string_bytes paths.old.items) (map string_bytes paths.new.items)) }
{
    for name in names {
        push_one(alloc, paths, folder, names, name.as_str())?;
    }
    Ok(())
}
