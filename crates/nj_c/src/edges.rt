//! The files and rules that build statements name.

ghost use Rattle.std.specs.Prelude.{◌≡◌, List, length, slice_get};
ghost use Rattle.nj_c.specs.Cited.{edge_at, inputs_of, kind_at, outputs_of, ReadStatement, detail_at, edges_of, files_of, rule_name_at, IsGraphOf, Done, GivesFile, GivesText, KeptUnlessDone, AtEdge, bool_code, kind_code, code_of};

use crate::asking::ask_edge;
use crate::buffers::copy_text;
use crate::items::{give_file, kind_number};
use crate::session::Session;
use crate::status::Status;
use std::alloc::Global;

/// The output of an edge at an index, the explicit ones first.
#[unsafe(no_mangle)]
pub extern "C" fn nx_output(
    alloc: Global,
    session: &mut Session,
    edge: usize,
    index: usize,
    file: &mut usize,
) -> i32
    ensures kept { session.new.kept ≡ session.old.kept }
    ensures file { AtEdge session.old.kept edge result (λ g.
        GivesFile (files_of g)
        (slice_get (outputs_of (edge_at (edges_of g) edge)) index) result file.new) }
{
    ask_edge!(session, alloc, edge, graph => give_file(graph.outputs(edge), index, file))
}

/// The input of an edge at an index, and its kind: 0 explicit, 1 implicit, 2 order-only. Inputs
/// come in the order of their kinds ("Build dependencies" in the Ninja manual).
#[unsafe(no_mangle)]
pub extern "C" fn nx_input(
    alloc: Global,
    session: &mut Session,
    edge: usize,
    index: usize,
    file: &mut usize,
    kind: &mut i32,
) -> i32
    ensures kept { session.new.kept ≡ session.old.kept }
    ensures file { AtEdge session.old.kept edge result (λ g.
        (GivesFile (files_of g)
        (slice_get (inputs_of (edge_at (edges_of g) edge)) index) result file.new)
        × (kind.new ≡ kind_code (kind_at (edge_at (edges_of g) edge) index))) }
{
    ask_edge!(session, alloc, edge, graph => {
        *kind = kind_number(graph.input_kind(edge, index));
        give_file(graph.inputs(edge), index, file)
    })
}

/// The validation of an edge at an index ("Validations" in the Ninja manual).
#[unsafe(no_mangle)]
pub extern "C" fn nx_validation(
    alloc: Global,
    session: &mut Session,
    edge: usize,
    index: usize,
    file: &mut usize,
) -> i32
    ensures kept { session.new.kept ≡ session.old.kept }
    ensures file { AtEdge session.old.kept edge result (λ g.
        GivesFile (files_of g)
        (slice_get (edge_at (edges_of g) edge).validations index) result file.new) }
{
    ask_edge!(session, alloc, edge, graph => give_file(graph.validations(edge), index, file))
}

/// How many outputs of an edge are explicit; explicit outputs come first.
#[unsafe(no_mangle)]
pub extern "C" fn nx_explicit_outputs(
    alloc: Global,
    session: &mut Session,
    edge: usize,
    count: &mut usize,
) -> i32
    ensures kept { session.new.kept ≡ session.old.kept }
    ensures count { AtEdge session.old.kept edge result (λ g.
        (result ≡ code_of Done) ×
        (count.new ≡ length (edge_at (edges_of g) edge).explicit_outputs)) }
{
    ask_edge!(session, alloc, edge, graph => {
        *count = graph.explicit_outputs(edge);
        Status::Done
    })
}

/// How many inputs of an edge are explicit; explicit inputs come first.
#[unsafe(no_mangle)]
pub extern "C" fn nx_explicit_inputs(
    alloc: Global,
    session: &mut Session,
    edge: usize,
    count: &mut usize,
) -> i32
    ensures kept { session.new.kept ≡ session.old.kept }
    ensures count { AtEdge session.old.kept edge result (λ g.
        (result ≡ code_of Done) ×
        (count.new ≡ length (edge_at (edges_of g) edge).explicit_inputs)) }
{
    ask_edge!(session, alloc, edge, graph => {
        *count = graph.explicit_inputs(edge);
        Status::Done
    })
}

/// Whether the rule of an edge is `phony`, so that it has no command: 1 or 0.
#[unsafe(no_mangle)]
pub extern "C" fn nx_is_phony(
    alloc: Global,
    session: &mut Session,
    edge: usize,
    phony: &mut i32,
) -> i32
    ensures kept { session.new.kept ≡ session.old.kept }
    ensures phony { AtEdge session.old.kept edge result (λ g.
        (result ≡ code_of Done) ×
        (phony.new ≡ bool_code (edge_at (edges_of g) edge).is_phony)) }
{
    ask_edge!(session, alloc, edge, graph => {
        *phony = i32::from(graph.is_phony(edge));
        Status::Done
    })
}

/// The name of the rule of an edge.
#[unsafe(no_mangle)]
pub extern "C" fn nx_rule_name(
    alloc: Global,
    session: &mut Session,
    edge: usize,
    buffer: &mut [u8],
    needed: &mut usize,
) -> i32
    ensures kept { session.new.kept ≡ session.old.kept }
    ensures name { AtEdge session.old.kept edge result (λ g.
        (entries : List ReadStatement) → IsGraphOf g entries
        → GivesText (rule_name_at entries edge) buffer.old buffer.new needed.new result) }
    ensures buffer { KeptUnlessDone buffer.old buffer.new result }
{
    ask_edge!(session, alloc, edge, graph => copy_text(graph.rule_name(edge), buffer, needed))
}

/// The line and the column of the build statement of an edge, counted from 1; columns are in bytes.
#[unsafe(no_mangle)]
pub extern "C" fn nx_edge_place(
    alloc: Global,
    session: &mut Session,
    edge: usize,
    line: &mut usize,
    column: &mut usize,
) -> i32
    ensures kept { session.new.kept ≡ session.old.kept }
    ensures place { AtEdge session.old.kept edge result (λ g.
        (result ≡ code_of Done) ×
        (record { line = line.new; column = column.new }
        ≡ (detail_at g.built.details edge).spot)) }
{
    ask_edge!(session, alloc, edge, graph => {
        let place = graph.edge_place(edge);
        *line = place.spot.line;
        *column = place.spot.column;
        Status::Done
    })
}

/// The file of the build statement of an edge, by the name under which it was opened.
#[unsafe(no_mangle)]
pub extern "C" fn nx_edge_file(
    alloc: Global,
    session: &mut Session,
    edge: usize,
    buffer: &mut [u8],
    needed: &mut usize,
) -> i32
    ensures kept { session.new.kept ≡ session.old.kept }
    ensures file { AtEdge session.old.kept edge result (λ g.
        GivesText
        (detail_at g.built.details edge).file buffer.old buffer.new needed.new result) }
    ensures buffer { KeptUnlessDone buffer.old buffer.new result }
{
    ask_edge!(session, alloc, edge, graph => copy_text(graph.edge_place(edge).file, buffer, needed))
}
