//! The calls of `nj_keys`.

ghost use Rattle.std.specs.Prelude.{◌≡◌, ◌<◌, All, OnErr, OnOk, length};
ghost use Rattle.nj_one_answer.specs.Cited.{AgreeIfOk, AgreeUpTo, IsMarkOutOfMemory, OfStatements, SameKeyPage, SamePage, edges_of};

use nj_graph::{FileList, Graph};
use nj_keys::{Bases, EdgeKey, KeyPage, Page};
use nj_needs::{Mark, MarkFault};
use std::alloc::{AllocError, Global};

/// Free: whether memory lacks.
pub fn bases_add(
    alloc: Global,
    one: &mut Bases,
    other: &mut Bases,
    path: &[u8],
) -> (Result<bool, AllocError>, Result<bool, AllocError>)
    requires { one.old ≡ other.old }
    ensures agree { AgreeIfOk (λ a b. a ≡ b) result.0 result.1 }
    ensures added { OnOk result.0 (OnOk result.1 (one.new ≡ other.new)) }
    ensures refused { OnErr result.0 (OnErr result.1 (one.new ≡ other.new)) }
{
    (one.add(alloc, path), other.add(alloc, path))
}

/// Free: whether memory lacks, and what has been appended then.
pub fn bases_append_mapped(
    bases: &Bases,
    one: &mut Vec<u8>,
    other: &mut Vec<u8>,
    text: &[u8],
) -> (Result<(), AllocError>, Result<(), AllocError>)
    requires { one.old.items ≡ other.old.items }
    ensures { OnOk result.0 (OnOk result.1 (one.new.items ≡ other.new.items)) }
{
    (
        bases.append_mapped(one, text),
        bases.append_mapped(other, text),
    )
}

/// Free: whether memory lacks.
pub fn content_addition(
    alloc: Global,
    content: &[u8],
) -> (Result<Vec<u8>, AllocError>, Result<Vec<u8>, AllocError>)
    ensures { AgreeIfOk (λ a b. a.items ≡ b.items) result.0 result.1 }
{
    (
        nj_keys::content_addition(alloc, content),
        nj_keys::content_addition(alloc, content),
    )
}

/// For a graph of statements. Free: whether memory lacks.
pub fn page_from(
    alloc: Global,
    bases: &Bases,
    additions: &[&[u8]],
    counts: &[usize],
    targets: &FileList<'_>,
    mark: &Mark,
    take: Option<u64>,
) -> (Result<Page, MarkFault>, Result<Page, MarkFault>)
    ensures { OfStatements targets.now.graph (λ entries.
        AgreeUpTo SamePage IsMarkOutOfMemory result.0 result.1) }
{
    nj_keys::lines_law();
    (
        nj_keys::page_from(alloc, bases, additions, counts, targets, mark, take),
        nj_keys::page_from(alloc, bases, additions, counts, targets, mark, take),
    )
}

/// For a graph of statements. Free: whether memory lacks.
pub fn keys_from(
    alloc: Global,
    bases: &Bases,
    additions: &[&[u8]],
    counts: &[usize],
    targets: &FileList<'_>,
    mark: &Mark,
    take: Option<u64>,
) -> (Result<KeyPage, MarkFault>, Result<KeyPage, MarkFault>)
    ensures { OfStatements targets.now.graph (λ entries.
        AgreeUpTo SameKeyPage IsMarkOutOfMemory result.0 result.1) }
{
    nj_keys::lines_law();
    (
        nj_keys::keys_from(alloc, bases, additions, counts, targets, mark, take),
        nj_keys::keys_from(alloc, bases, additions, counts, targets, mark, take),
    )
}

/// For a graph of statements. Free: whether memory lacks.
pub fn all_keys(
    alloc: Global,
    graph: &Graph,
    bases: &Bases,
    additions: &[&[u8]],
    counts: &[usize],
) -> (
    Result<Vec<EdgeKey>, AllocError>,
    Result<Vec<EdgeKey>, AllocError>,
)
    ensures { OfStatements graph.now (λ entries.
        AgreeIfOk (λ a b. a.items ≡ b.items) result.0 result.1) }
{
    nj_keys::lines_law();
    (
        nj_keys::all_keys(alloc, graph, bases, additions, counts),
        nj_keys::all_keys(alloc, graph, bases, additions, counts),
    )
}

/// Free: whether memory lacks.
pub fn key_lines(
    alloc: Global,
    graph: &Graph,
    keys: &[EdgeKey],
) -> (Result<Vec<u8>, AllocError>, Result<Vec<u8>, AllocError>)
    requires { All (λ next. next.edge.0 < length (edges_of graph.now)) keys.now }
    ensures { AgreeIfOk (λ a b. a.items ≡ b.items) result.0 result.1 }
{
    (
        nj_keys::key_lines(alloc, graph, keys),
        nj_keys::key_lines(alloc, graph, keys),
    )
}
