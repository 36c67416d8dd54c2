//! How many edges, files and rules there are.

ghost use Rattle.std.specs.Prelude.{◌≡◌, length};
ghost use Rattle.nj_c.specs.Cited.{edges_of, files_of, main_rules, Done, AtGraph, code_of};

use crate::asking::ask_graph;
use crate::session::Session;
use crate::status::Status;
use std::alloc::Global;

/// The number of edges, one for each build statement, numbered from 0 in reading order ("Build
/// statements" in the Ninja manual).
#[unsafe(no_mangle)]
pub extern "C" fn nx_edge_count(alloc: Global, session: &mut Session, count: &mut usize) -> i32
    ensures kept { session.new.kept ≡ session.old.kept }
    ensures count { AtGraph session.old.kept result (λ g.
        (result ≡ code_of Done) × (count.new ≡ length (edges_of g))) }
{
    ask_graph!(session, alloc, graph => {
        *count = graph.edge_count();
        Status::Done
    })
}

/// The number of files: of the distinct paths that edges name as outputs, inputs or validations,
/// numbered from 0.
#[unsafe(no_mangle)]
pub extern "C" fn nx_file_count(alloc: Global, session: &mut Session, count: &mut usize) -> i32
    ensures kept { session.new.kept ≡ session.old.kept }
    ensures count { AtGraph session.old.kept result (λ g.
        (result ≡ code_of Done) × (count.new ≡ length (files_of g))) }
{
    ask_graph!(session, alloc, graph => {
        *count = graph.file_count();
        Status::Done
    })
}

/// How many rules the main file's scope has, `phony` among them ("Rules" in the Ninja manual).
#[unsafe(no_mangle)]
pub extern "C" fn nx_rule_count(alloc: Global, session: &mut Session, count: &mut usize) -> i32
    ensures kept { session.new.kept ≡ session.old.kept }
    ensures count { AtGraph session.old.kept result (λ g.
        (result ≡ code_of Done) × (count.new ≡ length (main_rules g))) }
{
    ask_graph!(session, alloc, graph => {
        *count = graph.main_rule_count();
        Status::Done
    })
}
