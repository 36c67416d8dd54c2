//! The full paths of a change, in tables.

ghost use Rattle.std.specs.Prelude.{◌≡◌, ◌&&◌, IfOk, map};
ghost use Rattle.nj_chosen.specs.Cited.{test_model, counted, AreFoldersOf, is_at_or_above, is_below, is_telling, change_by, kinds_in, is_of_outputs, kinds_of, link_of, is_among, is_absolute};

use crate::folders::folders_above;
use crate::programs::programs_of;
use crate::reason::Link;
use nj_names::{HashKeys, Names};
use nj_tests::Test;
use std::alloc::{AllocError, Global};

/// A change of files in a build, by full paths.
#[derive(Drop)]
pub struct ChangedPaths {
    /// The build directory and those of the sources.
    pub roots: Vec<Vec<u8>>,
    /// The outputs of all edges.
    pub outputs: Names,
    /// The outputs of edges with a command.
    pub made: Names,
    /// The outputs of affected edges.
    pub affected: Names,
    /// The outputs of edges that need an affected output or a changed file, by inputs of any kind.
    pub needing: Names,
    /// The changed files.
    pub changed: Names,
    /// The affected outputs and changed files that count in a directory, unless they are programs
    /// of tests.
    pub noticed: Names,
}

/// The full paths of a change, and the directories above them.
#[derive(Drop)]
pub(crate) struct PathTables {
    pub(crate) paths: ChangedPaths,
    /// The directories above the outputs of edges with a command.
    pub(crate) made_folders: Names,
    /// The directories above the noticed paths that are not programs of tests.
    pub(crate) counted_folders: Names,
}

impl PathTables {
    /// Returns the tables of a change for the given tests.
    pub(crate) fn new(
        alloc: Global,
        keys: HashKeys,
        build: &[u8],
        paths: ChangedPaths,
        tests: &[Test],
    ) -> Result<PathTables, AllocError>
        ensures { IfOk result (λ tables. kinds_in tables
            ≡ kinds_of (change_by build.now paths) (map test_model tests.now)) }
    {
        let none = Names::new(alloc, keys);
        let made_folders = folders_above(alloc, keys, &paths.made, &none)?;
        let counted_folders = counted_folders(alloc, keys, build, &paths, tests)?;
        Ok(PathTables {
            paths,
            made_folders,
            counted_folders,
        })
    }

    /// Returns the link of a path to the change, if any.
    pub(crate) fn link_of(&self, path: &[u8]) -> Option<Link>
        ensures { result ≡ link_of (kinds_in self.now) path.now }
    {
        if has(&self.paths.affected, path) {
            return Some(Link::AffectedOutput);
        }
        if has(&self.paths.changed, path) {
            return Some(Link::ChangedFile);
        }
        if has_folder(&self.counted_folders, &self.paths.roots, path) {
            return Some(Link::Directory);
        }
        if has(&self.paths.needing, path) {
            return Some(Link::NeedsAffected);
        }
        None
    }

    /// Whether a path is an output, or a directory with an output.
    pub(crate) fn is_of_outputs(&self, path: &[u8]) -> bool
        ensures { result ≡ is_of_outputs (kinds_in self.now) path.now }
    {
        has(&self.paths.outputs, path) || has_folder(&self.made_folders, &self.paths.roots, path)
    }
}

/// The directories above the noticed paths that are not programs of the given tests.
fn counted_folders(
    alloc: Global,
    keys: HashKeys,
    build: &[u8],
    paths: &ChangedPaths,
    tests: &[Test],
) -> Result<Names, AllocError>
    ensures { IfOk result (AreFoldersOf
        (counted (change_by build.now paths.now) (map test_model tests.now))) }
{
    let programs = programs_of(alloc, keys, build, &paths.outputs, tests)?;
    folders_above(alloc, keys, &paths.noticed, &programs)
}

/// Whether a path is in a table.
fn has(names: &Names, path: &[u8]) -> bool
    ensures { result ≡ is_among names.now path.now }
{
    names.number(path).is_some()
}

/// Whether a path is a directory in a table, and neither a root nor a directory above a root.
fn has_folder(folders: &Names, roots: &[Vec<u8>], path: &[u8]) -> bool
    ensures { result ≡ (is_telling (map (λ root. root.items) roots.now) path.now
        && is_among folders.now path.now) }
{
    is_telling(roots, path) && has(folders, path)
}

/// Whether a path is neither a root nor a directory above a root.
fn is_telling(roots: &[Vec<u8>], path: &[u8]) -> bool
    ensures { result ≡ is_telling (map (λ root. root.items) roots.now) path.now }
{
    !roots.iter().any(|root| is_at_or_above(path, root))
}

/// Whether a path is a given directory, or is above it.
fn is_at_or_above(path: &[u8], folder: &[u8]) -> bool
    ensures { result ≡ is_at_or_above path.now folder.now }
{
    path == folder || is_below(path, folder)
}

/// Whether a path is below a directory.
fn is_below(folder: &[u8], path: &[u8]) -> bool
    ensures { result ≡ is_below folder.now path.now }
{
    match path.strip_prefix(folder) {
        Some(rest) => begins_with_slash(rest),
        None => false,
    }
}

/// Whether a text begins with a slash.
fn begins_with_slash(text: &[u8]) -> bool
    ensures { result ≡ is_absolute text.now }
{
    match text {
        [b'/', ..] => true,
        _ => false,
    }
}
