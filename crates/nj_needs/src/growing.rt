//! Targets together with the validations of the edges that they need.

ghost use Rattle.std.specs.Prelude.{◌≡◌, ◌<◌, ◌++◌, List, true, false, Some, length, map, All, IfOk, OnOk, IfSome, IfNone, slice_index_or};
ghost use Rattle.nj_needs.specs.Cited.{ForSome, edge_at, path_at, AreFiles, grown_targets, RoundsAppend, GrownTargetsStay, GrownTargetsReachTheFollowed};

use crate::frame::Frame;
use crate::looks::look_at;
use crate::walk::top_edge;
use nj_edges::{EdgeGraph, EdgeNo, FileNo};
use std::alloc::{AllocError, Global};

/// Returns the targets together with the validations of the edges that they need ("Validations" in
/// the Ninja manual): after them come the validations of each edge that the list reaches, phony or
/// not, edge by edge in the order in which the edges are first completed. A file that is named
/// again is listed again, and a source is listed too. Takes time in proportion to the edges that
/// are reached, their inputs and validations. Fails only if an allocation fails.
pub fn grow_targets(
    alloc: Global,
    graph: &EdgeGraph,
    targets: &[FileNo],
) -> Result<Vec<FileNo>, AllocError>
    requires { All (λ f. f.0 < length graph.now.files) targets.now }
    ensures grown { IfOk result (λ files. AreFiles graph.now.files files.items
        (grown_targets graph.now.edges (map (path_at graph.now.files) targets.now))) }
    ensures known { IfOk result (λ files.
        All (λ f. f.0 < length graph.now.files) files.items) }
{
    let mut files = Vec::from_slice(alloc, targets)?;
    let mut path: Vec<Frame> = Vec::new(alloc);
    let mut place = 0;
    let mut flags = vec![in alloc; false; graph.edge_count()]?;
    'turns: loop {
        let found = look_at(graph, &files, top_edge(&path), place);
        let Some(maker) = found else {
            let Some(frame) = path.pop() else {
                return Ok(files);
            };
            flags[frame.edge.0] = true;
            add_validations(graph, frame.edge, &mut files)?;
            place = frame.at + 1;
            continue;
        };
        match undone(&flags, maker) {
            Some(edge) => {
                path.push(Frame { edge, at: place })?;
                place = 0;
            }
            None => place += 1,
        }
    }
}

// Appends the validations of an edge, phony or not.
fn add_validations(
    graph: &EdgeGraph,
    edge: EdgeNo,
    files: &mut Vec<FileNo>,
) -> Result<(), AllocError>
    requires { edge.0 < length graph.now.edges }
    ensures { OnOk result ((added : List FileNo) × (files.new.items ≡ files.old.items ++ added)
        × AreFiles graph.now.files added (edge_at graph.now.edges edge.0).validations) }
{
    files.extend_from_slice(graph.validations(edge))
}

// The maker of a file, if it has a maker that is not done.
fn undone(flags: &[bool], maker: Option<EdgeNo>) -> Option<EdgeNo>
    requires { ForSome maker (λ e. e.0 < length flags.now) }
    ensures left { IfSome result (λ e.
        (maker ≡ Some e) × (slice_index_or flags.now e.0 false ≡ false)) }
    ensures done { IfNone result (ForSome maker (λ e. slice_index_or flags.now e.0 false ≡ true)) }
{
    let edge = maker?;
    if flags[edge.0] {
        return None;
    }
    Some(edge)
}

/// Each round of validations appends to the list of the one before, and appends nothing after as
/// many rounds as there are edges. The edges that the grown targets reach are the least set that
/// has the makers of the targets and, with each edge, the makers of its inputs and of its
/// validations.
pub fn growing_law()
    ensures append { RoundsAppend }
    ensures stay { GrownTargetsStay }
    ensures reach { GrownTargetsReachTheFollowed }
{}
