//! The lines of chains of inputs.

ghost use Rattle.std.specs.Prelude.{◌≡◌, ◌++◌, IfOk, OnOk, slice_get};
ghost use Rattle.nj_ask.specs.Cited.{edge_of, file_of, is_discovered, paths_of, kind_end, kind_word, place_text, step_line, IsChainText};

use crate::listing::rule_of;
use nj_graph::{ChainKinds, Edge, EdgeNo, File, Kind, PlaceRef, Step};
use nj_tools::EdgeDiscovery;
use std::alloc::{AllocError, Global};

/// The lines of a shortest chain by which one file of a graph needs another, if any: of several
/// shortest chains, the first when inputs are tried from left to right. It has only inputs of the
/// given kinds. `discoveries` says by edge number which inputs builds discovered.
pub(crate) fn chain_of(
    alloc: Global,
    from: File<'_>,
    to: File<'_>,
    kinds: ChainKinds,
    discoveries: &[EdgeDiscovery],
) -> Result<Option<Vec<u8>>, AllocError>
    requires { (file_of to).graph ≡ (file_of from).graph }
    ensures { IfOk result
        (IsChainText (file_of from.entry) (file_of to.entry) kinds discoveries.now) }
{
    let graph = from.graph();
    let Some(steps) = graph.path_between(alloc, from.number(), to.number(), kinds)? else {
        return Ok(None);
    };
    let mut lines = Vec::new(alloc);
    let mut user = from;
    'steps: for step in &steps {
        let input = graph.file_at(step.file);
        let edge = graph.edge_at(step.edge);
        let is_discovered = is_discovered(edge, discovery_of(discoveries, step.edge), *step);
        push_step(
            alloc,
            &mut lines,
            user,
            edge,
            input,
            step.kind,
            is_discovered,
        )?;
        user = input;
    }
    Ok(Some(lines))
}

/// What builds discovered for an edge; `None` if that is not requested.
fn discovery_of(discoveries: &[EdgeDiscovery], edge: EdgeNo) -> Option<EdgeDiscovery>
    ensures { result ≡ slice_get discoveries.now edge.0 }
{
    discoveries.get(edge.0).copied()
}

/// Whether a step from an edge leads to a discovered input: an implicit one after those that the
/// edge had before.
fn is_discovered(edge: Edge<'_>, discovery: Option<EdgeDiscovery>, step: Step) -> bool
    ensures { result ≡ is_discovered discovery (paths_of (edge_of edge.entry)) step }
{
    let Some(discovery) = discovery else {
        return false;
    };
    let place = step.index.saturating_sub(edge.explicit_inputs().len());
    matches!(step.kind, Some(Kind::Implicit)) && place >= discovery.stated_inputs
}

/// Appends the line of a step from a file to an input of the edge that makes it, with the input's
/// kind.
fn push_step(
    alloc: Global,
    lines: &mut Vec<u8>,
    from: File<'_>,
    edge: Edge<'_>,
    input: File<'_>,
    kind: Option<Kind>,
    is_discovered: bool,
) -> Result<(), AllocError>
    ensures { OnOk result (lines.new.items ≡ lines.old.items ++ step_line
        (edge_of edge.entry) (file_of from.entry).path (file_of input.entry).path
        kind is_discovered) }
{
    push_place(alloc, lines, edge.place())?;
    lines.extend_from_slice(rule_of(edge))?;
    lines.extend_from_slice(b": ")?;
    lines.extend_from_slice(from.path())?;
    lines.extend_from_slice(b" needs ")?;
    lines.extend_from_slice(input.path())?;
    push_kind(lines, kind, is_discovered)
}

/// Appends a place.
fn push_place(alloc: Global, lines: &mut Vec<u8>, place: PlaceRef<'_>) -> Result<(), AllocError>
    ensures { OnOk result (lines.new.items
        ≡ lines.old.items ++ place_text place.entry.file.now place.entry.spot.line
        place.entry.spot.column) }
{
    let (line, column) = (place.spot.line, place.spot.column);
    lines.extend_from_slice(place.file)?;
    lines.extend_from_slice(format!(in alloc; ":{line}:{column}: ")?.as_bytes())
}

/// Appends the kind of an input, and the end of its line.
fn push_kind(lines: &mut Vec<u8>, kind: Option<Kind>, is_discovered: bool) -> Result<(), AllocError>
    ensures { OnOk result (lines.new.items ≡ lines.old.items ++ kind_end kind is_discovered) }
{
    lines.extend_from_slice(b" (")?;
    lines.extend_from_slice(kind_word(kind, is_discovered))?;
    lines.extend_from_slice(b")\n")
}

/// The word for a kind of input.
fn kind_word(kind: Option<Kind>, is_discovered: bool) -> &'static [u8]
    ensures { result.now ≡ kind_word kind is_discovered }
{
    if is_discovered {
        return b"discovered";
    }
    match kind {
        Some(Kind::Explicit) => b"explicit",
        Some(Kind::Implicit) => b"implicit",
        Some(Kind::OrderOnly) => b"order-only",
        None => b"validation",
    }
}
