//! The sources of a graph, by the times of files.

ghost use Rattle.std.specs.Prelude.{◌≡◌, [], IfOk};
ghost use Rattle.nj_ask.specs.Cited.{contains, MissingSource, LookUp, LookUpIf, LooksUp, file_of, files_of};

use nj_audit::{Kind, Kinds};
use nj_discovered::time_of;
use nj_graph::{File, FileTimes, Graph, TimeFound};
use std::alloc::{AllocError, Global};

/// What is at the paths of sources. The flags are empty if nothing was looked up.
#[derive(Drop)]
pub(crate) struct Sources {
    /// For each file, whether it is a missing source.
    pub missing: Vec<bool>,
    /// For each file, whether it is a source that cannot be looked up.
    pub unknown: Vec<bool>,
}

/// What is at the path of a file.
#[derive(Clone, Copy)]
struct LookedUp {
    is_missing: bool,
    is_unknown: bool,
}

/// What is at the paths of sources. Nothing is looked up unless missing sources are requested.
pub(crate) fn sources_of<T: FileTimes>(
    alloc: Global,
    graph: &Graph,
    times: &T,
    kinds: Kinds,
) -> Result<Sources, AllocError>
    ensures { IfOk result (λ sources. LookUpIf (contains kinds MissingSource) graph.now
        (T.times times.now) sources.missing.items sources.unknown.items) }
{
    if kinds.contains(Kind::MissingSource) {
        return look_up(alloc, graph, times);
    }
    Ok(Sources {
        missing: Vec::new(alloc),
        unknown: Vec::new(alloc),
    })
}

/// Looks up each source of a graph.
fn look_up<T: FileTimes>(alloc: Global, graph: &Graph, times: &T) -> Result<Sources, AllocError>
    ensures { IfOk result (λ sources. LookUp graph.now (T.times times.now) (files_of graph.now)
        sources.missing.items sources.unknown.items) }
{
    let mut missing = Vec::new(alloc);
    let mut unknown = Vec::new(alloc);
    'files: for file in graph.files() {
        let found = looked_up(file, times)?;
        missing.push(found.is_missing)?;
        unknown.push(found.is_unknown)?;
    }
    Ok(Sources { missing, unknown })
}

/// What is at the path of a file. A file that an edge makes is not looked up.
fn looked_up<T: FileTimes>(file: File<'_>, times: &T) -> Result<LookedUp, AllocError>
    ensures { IfOk result (λ found. LooksUp (file_of file.entry).graph (T.times times.now)
        (file_of file.entry).path found.is_missing found.is_unknown) }
{
    let mut found = LookedUp {
        is_missing: false,
        is_unknown: false,
    };
    if file.maker().is_some() {
        return Ok(found);
    }
    match time_of(times, file.path())? {
        TimeFound::Time(Some(_)) => {}
        TimeFound::Time(None) => found.is_missing = true,
        TimeFound::NoAnswer => found.is_unknown = true,
    }
    Ok(found)
}
