//! The defaults, the roots, and the names of rules.

ghost use Rattle.std.specs.Prelude.{◌≡◌, map, slice_get};
ghost use Rattle.nj_c.specs.Cited.{roots_of, defaults_in_force, edges_of, files_of, main_rules, GivesFile, GivesTextAt, KeptUnlessDone, AtGraph, code_of};

use crate::asking::ask_graph;
use crate::buffers::copy_text;
use crate::items::give_file;
use crate::session::Session;
use crate::status::Status;
use nj_graph::Graph;
use std::alloc::Global;

/// The file at an index among the defaults in force: those of the `default` lines in their order,
/// or without such lines the roots ("Default target statements" in the Ninja manual).
#[unsafe(no_mangle)]
pub extern "C" fn nx_default(
    alloc: Global,
    session: &mut Session,
    index: usize,
    file: &mut usize,
) -> i32
    ensures kept { session.new.kept ≡ session.old.kept }
    ensures file { AtGraph session.old.kept result (λ g.
        GivesFile (files_of g)
        (slice_get (defaults_in_force g.built.defaults (edges_of g)) index) result file.new) }
{
    ask_graph!(session, alloc, graph => give_file(graph.defaults(), index, file))
}

/// The file at an index among the roots: the outputs that no edge has as an input.
#[unsafe(no_mangle)]
pub extern "C" fn nx_root(
    alloc: Global,
    session: &mut Session,
    index: usize,
    file: &mut usize,
) -> i32
    ensures kept { session.new.kept ≡ session.old.kept }
    ensures file { AtGraph session.old.kept result (λ g.
        GivesFile (files_of g)
        (slice_get (roots_of (edges_of g)) index) result file.new) }
{
    ask_graph!(session, alloc, graph => give_file(graph.roots(), index, file))
}

/// The name of the rule at an index among the rules of the main file's scope, in byte order and
/// with `phony` among them, as in `nx_rule_count`.
#[unsafe(no_mangle)]
pub extern "C" fn nx_rule_name_at(
    alloc: Global,
    session: &mut Session,
    index: usize,
    buffer: &mut [u8],
    needed: &mut usize,
) -> i32
    ensures kept { session.new.kept ≡ session.old.kept }
    ensures name { AtGraph session.old.kept result (λ g.
        GivesTextAt (map (λ r. r.name) (main_rules g)) index
        buffer.old buffer.new needed.new result) }
    ensures buffer { KeptUnlessDone buffer.old buffer.new result }
{
    ask_graph!(session, alloc, graph => give_rule_name(graph, index, buffer, needed))
}

// Copies the name of the rule at an index.
fn give_rule_name(graph: &Graph, index: usize, buffer: &mut [u8], needed: &mut usize) -> Status
    ensures gives { GivesTextAt (map (λ r. r.name) (main_rules graph.now)) index
        buffer.old buffer.new needed.new (code_of result) }
    ensures buffer { KeptUnlessDone buffer.old buffer.new (code_of result) }
{
    if index >= graph.main_rule_count() {
        return Status::Nothing;
    }
    copy_text(graph.main_rule(index), buffer, needed)
}
