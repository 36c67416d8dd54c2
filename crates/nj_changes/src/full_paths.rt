//! Full paths, by which files are the same however their paths are written.

ghost use Rattle.std.specs.Prelude.{◌≡◌, ◌||◌, IfOk, OnOk, map, string_bytes};
ghost use Rattle.nj_changes.specs.Cited.{HasMore, SameNames, all_sought, clean_path_of, full_path, has_one, is_absolute, is_among, is_empty, path_below, sought};

use nj_names::{HashKeys, Names};
use nj_text::clean_path;
use std::alloc::{AllocError, Global};

// ---- full paths

/// The full path of a path: absolute by the path of the working directory, if that is not empty,
/// and clean. Paths with the same full path are the same file. The full path of the empty path is
/// empty.
pub fn full_path(alloc: Global, folder: &[u8], path: &[u8]) -> Result<Vec<u8>, AllocError>
    ensures { IfOk result (λ full. full.items ≡ full_path folder.now path.now) }
{
    if path.is_empty() {
        return Ok(Vec::new(alloc));
    }
    if stays(folder, path) {
        return clean(alloc, path);
    }
    clean(alloc, &path_below(alloc, folder, path)?)
}

// Whether a path is absolute, or no directory is known that makes it so.
fn stays(folder: &[u8], path: &[u8]) -> bool
    ensures { result ≡ (is_empty folder.now || is_absolute path.now) }
{
    folder.is_empty() || is_absolute(path)
}

// Whether a path begins with a slash.
fn is_absolute(path: &[u8]) -> bool
    ensures { result ≡ is_absolute path.now }
{
    match path {
        [b'/', ..] => true,
        _ => false,
    }
}

// A path in a directory.
fn path_below(alloc: Global, folder: &[u8], path: &[u8]) -> Result<Vec<u8>, AllocError>
    ensures { IfOk result (λ below. below.items ≡ path_below folder.now path.now) }
{
    let mut below = Vec::from_slice(alloc, folder)?;
    below.push(b'/')?;
    below.extend_from_slice(path)?;
    Ok(below)
}

// The clean path of a path that is not empty.
fn clean(alloc: Global, path: &[u8]) -> Result<Vec<u8>, AllocError>
    ensures { IfOk result (λ clean. clean.items ≡ clean_path_of path.now) }
{
    match clean_path(alloc, path) {
        Ok(clean) => Ok(clean),
        Err(_) => Err(AllocError),
    }
}

// ---- changed paths

/// Returns the full paths at which a changed path may be: in each of the given directories; without
/// directories, at the path itself.
pub fn sought(
    alloc: Global,
    folder: &[u8],
    dirs: &[String],
    path: &[u8],
) -> Result<Vec<Vec<u8>>, AllocError>
    ensures { IfOk result (λ found. map (λ full. full.items) found.items
        ≡ sought folder.now (map string_bytes dirs.now) path.now) }
{
    let mut found = Vec::new(alloc);
    if dirs.is_empty() {
        found.push(full_path(alloc, folder, path)?)?;
        return Ok(found);
    }
    'dirs: for dir in dirs {
        found.push(full_path_in(alloc, folder, dir, path)?)?;
    }
    Ok(found)
}

// The full path of a path in a directory.
fn full_path_in(alloc: Global, folder: &[u8], dir: &str, path: &[u8]) -> Result<Vec<u8>, AllocError>
    ensures { IfOk result (λ full.
        full.items ≡ full_path folder.now (path_below dir.now path.now)) }
{
    let below = path_below(alloc, dir.as_bytes(), path)?;
    full_path(alloc, folder, &below)
}

/// Returns a table of the full paths at which changed paths may be, hashed by the given keys.
pub fn all_sought(
    alloc: Global,
    keys: HashKeys,
    folder: &[u8],
    dirs: &[String],
    paths: &[&[u8]],
) -> Result<Names, AllocError>
    ensures { IfOk result (λ names. SameNames names
        (all_sought folder.now (map string_bytes dirs.now) (map (λ path. path.now) paths.now))) }
{
    let mut names = Names::new(alloc, keys);
    'paths: for path in paths {
        add_all(&mut names, &sought(alloc, folder, dirs, path)?)?;
    }
    Ok(names)
}

// ---- tables of paths

/// Adds the given paths to a table.
pub fn add_all(names: &mut Names, paths: &[Vec<u8>]) -> Result<(), AllocError>
    ensures { OnOk result (HasMore names.old (map (λ path. path.items) paths.now) names.new) }
{
    'paths: for path in paths {
        names.add(path)?;
    }
    Ok(())
}

/// Whether one of the given paths is in a table.
pub fn has_one(names: &Names, paths: &[Vec<u8>]) -> bool
    ensures { result ≡ has_one names.now (map (λ path. path.items) paths.now) }
{
    paths.iter().any(|path| names.number(path).is_some())
}

/// Whether the full path of a path is in a table.
pub fn is_at(alloc: Global, names: &Names, folder: &[u8], path: &[u8]) -> Result<bool, AllocError>
    ensures { IfOk result (λ is. is ≡ is_among names.now (full_path folder.now path.now)) }
{
    let full = full_path(alloc, folder, path)?;
    Ok(names.number(&full).is_some())
}
