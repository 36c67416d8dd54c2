//! What is known of the graph of every session.

ghost use Rattle.std.specs.Prelude.{◌≡◌, ℕ, List, bytes_eq, length};
ghost use Rattle.nj_c.specs.Cited.{edges_of, files_of, is_named, list_any, makers_of_inputs, IsAcyclic, IsDistinct, OfAnyGraph};

use crate::asking::ask_graph;
use crate::session::Session;
use crate::status::Status;
use std::alloc::Global;

/// The files of a graph have different paths, which are those that edges name; and no edge needs
/// itself by a chain of inputs.
pub fn graph_is_sound(alloc: Global, session: &mut Session)
    ensures kept { session.new.kept ≡ session.old.kept }
    ensures files { OfAnyGraph session.new.kept (λ g. IsDistinct bytes_eq (files_of g)) }
    ensures named { OfAnyGraph session.new.kept (λ g. (path : List ℕ) →
        list_any (bytes_eq path) (files_of g) ≡ is_named (edges_of g) path) }
    ensures edges { OfAnyGraph session.new.kept (λ g.
        IsAcyclic (makers_of_inputs (edges_of g)) (length (edges_of g))) }
{
    ask_graph!(session, alloc, graph => {
        graph.file_count();
        graph.edge_count();
        Status::Done
    });
}
