//! The keys of commands, and their lines, in pages.

ghost use Rattle.std.specs.Prelude.{◌≡◌, ◌++◌, ◌<◌, ◌⊎◌, [], true, false, All, IfErr, IfOk, OnOk, length, map, string_bytes, unwrap_or};
ghost use Rattle.nj_keys.specs.Cited.{edge_of, edges_stated, encode_lower, flat_map, paths_of, OfStatements, first_output, leads, left_at, BeginsAfter, WalkState, written, StopsAt, edges_of, line, HaveKeys, IsKept, ListsKeys, kept_key};

use crate::additions::{digest_of_additions, with_additions};
use crate::bases::Bases;
use crate::fields::Key;
use crate::keys::keep_key;
use nj_graph::{Edge, EdgeNo, FileList, Graph};
use nj_needs::{Mark, MarkFault, Needs};
use std::alloc::{AllocError, Global};

/// The key of an edge.
#[derive(Clone, Copy)]
pub struct EdgeKey {
    pub edge: EdgeNo,
    pub key: [u8; 32],
}

/// Keys of commands, and the mark at which the rest begins, if any commands are left.
#[derive(Drop)]
pub struct KeyPage {
    pub keys: Vec<EdgeKey>,
    pub mark: Option<Mark>,
}

/// Lines of commands, and the mark at which the rest begins, if any lines are left.
#[derive(Drop)]
pub struct Page {
    pub lines: Vec<u8>,
    pub mark: Option<Mark>,
}

/// Returns the keys of the commands that the targets need, from a mark on: at most `take` keys, if
/// that is a limit. In the contents of a key a number stands for each base. The additions go into
/// every key: they name what commands depend on besides files, such as a compiler's version.
/// `counts` has the number of implicit inputs that the manifest itself states for each edge: the
/// inputs after them, which builds discovered, are not part of a key. It is empty if nothing was
/// joined to the graph.
///
/// # Errors
///
/// `MarkOutOfRange` if a step of the mark does not lead to an edge, and `OutOfMemory` if an
/// allocation failed.
pub fn keys_from(
    alloc: Global,
    bases: &Bases,
    additions: &[&[u8]],
    counts: &[usize],
    targets: &FileList<'_>,
    mark: &Mark,
    take: Option<u64>,
) -> Result<KeyPage, MarkFault>
    ensures valid { IfOk result (λ _. leads targets.now mark.now ≡ true) }
    ensures refused { IfErr result (λ fault. (fault ≡ MarkFault.OutOfMemory)
        ⊎ ((fault ≡ MarkFault.MarkOutOfRange) × (leads targets.now mark.now ≡ false))) }
    ensures keys { OfStatements targets.now.graph (λ entries.
        IfOk result (λ page. HaveKeys (map (λ text. text.now) additions.now) bases.now
        (edges_stated counts.now (edges_of targets.now.graph)) entries
        (written take (left_at targets.now mark.now)) page.keys.items)) }
    ensures known { IfOk result (λ page.
        All (λ next. next.edge.0 < length (edges_of targets.now.graph)) page.keys.items) }
    ensures mark { IfOk result (λ page. (walk : WalkState)
        × BeginsAfter targets.now mark.now walk × StopsAt walk take page.mark) }
{
    let graph = targets.graph();
    let mut needs = Needs::resume(alloc, graph, targets.numbers(), mark)?;
    let page = next_keys(alloc, graph, bases, additions, counts, &mut needs, take)?;
    Ok(page)
}

/// Returns the lines of the commands that the targets need, from a mark on, as [`keys_from`] returns
/// their keys. A line is the key of an edge in hexadecimal digits, a space and its first output.
///
/// # Errors
///
/// Those of [`keys_from`].
pub fn page_from(
    alloc: Global,
    bases: &Bases,
    additions: &[&[u8]],
    counts: &[usize],
    targets: &FileList<'_>,
    mark: &Mark,
    take: Option<u64>,
) -> Result<Page, MarkFault>
    ensures valid { IfOk result (λ _. leads targets.now mark.now ≡ true) }
    ensures refused { IfErr result (λ fault. (fault ≡ MarkFault.OutOfMemory)
        ⊎ ((fault ≡ MarkFault.MarkOutOfRange) × (leads targets.now mark.now ≡ false))) }
    ensures lines { OfStatements targets.now.graph (λ entries.
        IfOk result (λ page. ListsKeys (map (λ text. text.now) additions.now) bases.now
        (edges_stated counts.now (edges_of targets.now.graph)) entries
        (written take (left_at targets.now mark.now)) page.lines.items)) }
    ensures mark { IfOk result (λ page. (walk : WalkState)
        × BeginsAfter targets.now mark.now walk × StopsAt walk take page.mark) }
{
    let graph = targets.graph();
    let page = keys_from(alloc, bases, additions, counts, targets, mark, take)?;
    let lines = key_lines(alloc, graph, &page.keys)?;
    Ok(Page {
        lines,
        mark: page.mark,
    })
}

// Returns the keys of the commands that are left to a walk over the given graph.
fn next_keys(
    alloc: Global,
    graph: &Graph,
    bases: &Bases,
    additions: &[&[u8]],
    counts: &[usize],
    needs: &mut Needs<'_>,
    take: Option<u64>,
) -> Result<KeyPage, AllocError>
    requires { needs.old.graph ≡ graph.now.built.graph }
    ensures keys { OfStatements graph.now (λ entries.
        IfOk result (λ page. HaveKeys (map (λ text. text.now) additions.now) bases.now
        (edges_stated counts.now (edges_of graph.now)) entries (written take needs.old.left)
        page.keys.items)) }
    ensures known { IfOk result (λ page.
        All (λ next. next.edge.0 < length (edges_of graph.now)) page.keys.items) }
    ensures mark { IfOk result (λ page. StopsAt needs.old take page.mark) }
{
    let mut kept: Vec<Option<Key>> = vec![in alloc; None; graph.edge_count()]?;
    let kept_keys = kept.as_mut_slice();
    let added = digest_of_additions(alloc, additions)?;
    let mut keys = Vec::new(alloc);
    let mut room = take;
    'commands: while let Some(edge) = needs.next_on_page(&mut room) {
        keep_key(alloc, graph.edge_at(edge), bases, counts, kept_keys)?;
        let key = with_additions(alloc, added, key_at(kept_keys, edge))?;
        keys.push(EdgeKey { edge, key })?;
    }
    let mark = needs.mark_after_page(alloc, room)?;
    Ok(KeyPage { keys, mark })
}

/// Returns the kept key of an edge.
pub(crate) fn key_at(keys: &[Option<Key>], edge: EdgeNo) -> Key
    requires { IsKept keys.now edge.0 }
    ensures { result ≡ kept_key keys.now edge.0 }
{
    match keys[edge.0] {
        Some(key) => key,
        None => [0; 32],
    }
}

/// Returns the lines of edges with the given keys. A line is the key in hexadecimal digits, a space and
/// the first output of the edge.
///
/// # Errors
///
/// If an allocation failed.
pub fn key_lines(alloc: Global, graph: &Graph, keys: &[EdgeKey]) -> Result<Vec<u8>, AllocError>
    requires { All (λ next. next.edge.0 < length (edges_of graph.now)) keys.now }
    ensures { IfOk result (λ lines. lines.items
        ≡ flat_map (λ next. line (edges_of graph.now) next.edge.0 next.key) keys.now) }
{
    let mut lines = Vec::new(alloc);
    'keys: for next in keys {
        push_line(&mut lines, graph.edge_at(next.edge), &next.key)?;
    }
    Ok(lines)
}

// Appends the line of an edge with the given key.
fn push_line(lines: &mut Vec<u8>, edge: Edge<'_>, key: &[u8]) -> Result<(), AllocError>
    ensures { OnOk result (lines.new.items ≡ lines.old.items
        ++ line (edges_of (edge_of edge.entry).graph) (edge_of edge.entry).number key.now) }
{
    let digits = hex::encode(*lines.allocator(), key)?;
    lines.extend_from_slice(digits.as_bytes())?;
    lines.push(b' ')?;
    lines.extend_from_slice(first_output(edge))?;
    lines.push(b'\n')?;
    Ok(())
}

// Returns the path of the first output of an edge; it is empty if the edge has no output.
fn first_output(edge: Edge<'_>) -> &[u8]
    ensures { result.now ≡ unwrap_or (first_output (paths_of (edge_of edge.entry))) [] }
{
    match edge.outputs().first() {
        Some(output) => output.path(),
        None => b"",
    }
}
