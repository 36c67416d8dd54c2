//! The keys of all commands of a graph.

ghost use Rattle.std.specs.Prelude.{◌≡◌, ◌<◌, All, IfOk, length, map};
ghost use Rattle.nj_keys.specs.Cited.{all_commands, edges_of, edges_stated, OfStatements, HaveKeys};

use crate::additions::{digest_of_additions, with_additions};
use crate::bases::Bases;
use crate::fields::Key;
use crate::keys::keep_key;
use crate::pages::{EdgeKey, key_at};
use nj_graph::{EdgeNo, Graph};
use std::alloc::{AllocError, Global};

/// Returns the keys of all commands, in the order of the manifest, whatever targets need. Each key is
/// the one that [`keys_from`](crate::keys_from) returns for its edge.
///
/// # Errors
///
/// If an allocation failed.
pub fn all_keys(
    alloc: Global,
    graph: &Graph,
    bases: &Bases,
    additions: &[&[u8]],
    counts: &[usize],
) -> Result<Vec<EdgeKey>, AllocError>
    ensures keys { OfStatements graph.now (λ entries.
        IfOk result (λ keys. HaveKeys (map (λ text. text.now) additions.now) bases.now
        (edges_stated counts.now (edges_of graph.now)) entries (all_commands graph.now)
        keys.items)) }
    ensures known { IfOk result (λ keys.
        All (λ next. next.edge.0 < length (edges_of graph.now)) keys.items) }
{
    let mut kept: Vec<Option<Key>> = vec![in alloc; None; graph.edge_count()]?;
    let kept_keys = kept.as_mut_slice();
    let added = digest_of_additions(alloc, additions)?;
    let mut keys = Vec::new(alloc);
    'edges: for number in 0..graph.edge_count() {
        let edge = graph.edge_at(EdgeNo(number));
        if !edge.is_phony() {
            keep_key(alloc, edge, bases, counts, kept_keys)?;
            let key = with_additions(alloc, added, key_at(kept_keys, EdgeNo(number)))?;
            keys.push(EdgeKey {
                edge: EdgeNo(number),
                key,
            })?;
        }
    }
    Ok(keys)
}
