//! The directories above paths.

ghost use Rattle.std.specs.Prelude.{◌<◌, ◌==◌, ◌∷◌, [], if◌then◌else◌, length, slice_index, take, IfOk, OnOk};
ghost use Rattle.nj_chosen.specs.Cited.{flat_map, without, HasMore, folders_of, AreFoldersOf};

use nj_names::{HashKeys, Names};
use std::alloc::{AllocError, Global};

/// Returns a table of the directories above the given paths that are not among others, with the
/// given keys.
pub(crate) fn folders_above(
    alloc: Global,
    keys: HashKeys,
    paths: &Names,
    others: &Names,
) -> Result<Names, AllocError>
    ensures { IfOk result (λ folders. AreFoldersOf (without others.now paths.now) folders) }
{
    let mut folders = Names::new(alloc, keys);
    'paths: for number in 0..paths.count() {
        add_unless(&mut folders, others, paths.name(number))?;
    }
    Ok(folders)
}

/// Adds the directories above a path, unless it is among others.
fn add_unless(folders: &mut Names, others: &Names, path: &[u8]) -> Result<(), AllocError>
    ensures { OnOk result (HasMore folders.old
        (flat_map folders_of (without others.now (path.now ∷ []))) folders.new) }
{
    if others.number(path).is_some() {
        return Ok(());
    }
    add_folders(folders, path)
}

/// Adds the directories above a path.
fn add_folders(folders: &mut Names, path: &[u8]) -> Result<(), AllocError>
    ensures { OnOk result (HasMore folders.old (folders_of path.now) folders.new) }
{
    'bytes: for index in 0..path.len() {
        add_folder(folders, path, index)?;
    }
    Ok(())
}

/// Adds the part of a path before an index, if a slash is at the index.
fn add_folder(folders: &mut Names, path: &[u8], index: usize) -> Result<(), AllocError>
    requires { index < length path.now }
    ensures { OnOk result (HasMore folders.old
        (if slice_index path.now index == 47 then take index path.now ∷ [] else []) folders.new) }
{
    if path[index] != b'/' {
        return Ok(());
    }
    folders.add(&path[..index])?;
    Ok(())
}
