//! The files at full paths.

ghost use Rattle.std.specs.Prelude.{◌≡◌, ◌<◌, ◌++◌, IfOk, OnOk, [], ◌∷◌, if◌then◌else◌, length, map};
ghost use Rattle.nj_ask.specs.Cited.{AreAt, AreFilesOf, AreFullPaths, files_of, full_path_of, is_among, numbers_of};

use nj_changes::full_path;
use nj_graph::{FileNo, Graph, HashKeys};
use nj_names::Names;
use std::alloc::{AllocError, Global};

/// The files of a graph that changed, and those that were opened.
#[derive(Drop)]
pub struct FilesAt {
    pub changed: Vec<FileNo>,
    pub opened: Vec<FileNo>,
}

/// The files of a graph whose full paths, by the working directory, are in either table.
pub fn files_at(
    alloc: Global,
    graph: &Graph,
    working: &[u8],
    changed: &Names,
    opened: &Names,
) -> Result<FilesAt, AllocError>
    ensures changed { IfOk result (λ files.
        AreAt graph.now working.now changed.now files.changed.items) }
    ensures opened { IfOk result (λ files.
        AreAt graph.now working.now opened.now files.opened.items) }
{
    let mut changed_files = Vec::new(alloc);
    let mut opened_files = Vec::new(alloc);
    'numbers: for number in 0..graph.file_count() {
        let file = FileNo(number);
        let full = full_path_of(alloc, graph, working, file)?;
        push_if_at(&mut changed_files, changed, &full, file)?;
        push_if_at(&mut opened_files, opened, &full, file)?;
    }
    Ok(FilesAt {
        changed: changed_files,
        opened: opened_files,
    })
}

/// Appends a file if its full path is in a table.
fn push_if_at(
    files: &mut Vec<FileNo>,
    paths: &Names,
    full: &[u8],
    file: FileNo,
) -> Result<(), AllocError>
    ensures { OnOk result (files.new.items ≡ files.old.items
        ++ (if is_among paths.now full.now then file ∷ [] else [])) }
{
    if paths.number(full).is_some() {
        files.push(file)?;
    }
    Ok(())
}

/// A table of the full paths of the given files, with the given keys.
pub fn full_paths(
    alloc: Global,
    graph: &Graph,
    keys: HashKeys,
    working: &[u8],
    files: &[FileNo],
) -> Result<Names, AllocError>
    requires { AreFilesOf graph.now files.now }
    ensures { IfOk result (AreFullPaths graph.now working.now (numbers_of files.now)) }
{
    let mut names = Names::new(alloc, keys);
    'files: for file in files {
        let full = full_path_of(alloc, graph, working, *file)?;
        names.add(&full)?;
    }
    Ok(names)
}

/// The full path of a file.
fn full_path_of(
    alloc: Global,
    graph: &Graph,
    working: &[u8],
    file: FileNo,
) -> Result<Vec<u8>, AllocError>
    requires { file.0 < length (files_of graph.now) }
    ensures { IfOk result (λ full. full.items ≡ full_path_of graph.now working.now file.0) }
{
    full_path(alloc, working, graph.path(file))
}
