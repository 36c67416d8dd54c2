//! The users of edges: which edges need an edge directly.
ghost use Rattle.std.specs.Prelude.{◌≡◌, ◌+◌, ◌<◌, length, IfOk, IfSome, OnOk};
ghost use Rattle.nj_cycles.specs.Cited.{AreEdges, Needs, HaveUsers, NeedsSoFar, lists_of, users_of, with_user};

use crate::maker_lists::EdgeInputs;
use std::alloc::{AllocError, Global};

/// For each edge the edges that need it directly, one for each input that it makes.
pub(crate) fn users_of_edges<I: EdgeInputs>(
    alloc: Global,
    inputs: &I,
) -> Result<Vec<Vec<usize>>, AllocError>
    ensures { IfOk result (λ users.
        HaveUsers (I.count inputs.now) (Needs (I.makers inputs.now)) users.items) }
{
    let mut users = no_users(alloc, inputs.edge_count())?;
    'edges: for edge in 0..inputs.edge_count() {
        add_edge(inputs, edge, &mut users)?;
    }
    Ok(users)
}

/// No users for each of `count` edges.
fn no_users(alloc: Global, count: usize) -> Result<Vec<Vec<usize>>, AllocError>
    ensures { IfOk result (λ users. HaveUsers count (λ e m. ⊥) users.items) }
{
    let mut users = Vec::with_capacity(alloc, count)?;
    'edges: for _ in 0..count {
        users.push(Vec::new(alloc))?;
    }
    Ok(users)
}

/// Adds an edge to the users of all that it needs.
fn add_edge<I: EdgeInputs>(
    inputs: &I,
    edge: usize,
    users: &mut Vec<Vec<usize>>,
) -> Result<(), AllocError>
    requires edges { AreEdges (I.makers inputs.now) (I.count inputs.now) }
    requires edge_in { edge < I.count inputs.now }
    requires users { HaveUsers (I.count inputs.now)
        (NeedsSoFar (I.makers inputs.now) edge 0) users.old.items }
    ensures { OnOk result (HaveUsers (I.count inputs.now)
        (NeedsSoFar (I.makers inputs.now) (edge + 1) 0) users.new.items) }
{
    let mut index = 0;
    'inputs: while let Some(maker) = inputs.maker_at(edge, index) {
        add_user(users, maker, edge)?;
        index += 1;
    }
    Ok(())
}

/// Adds a user to an input's maker; a source has no maker.
fn add_user(
    users: &mut Vec<Vec<usize>>,
    maker: Option<usize>,
    user: usize,
) -> Result<(), AllocError>
    requires { IfSome maker (λ edge. edge < length users.old.items) }
    ensures { OnOk result (lists_of users.new.items
        ≡ with_user (lists_of users.old.items) maker user) }
{
    if let Some(edge) = maker {
        users[edge].push(user)?;
    }
    Ok(())
}

/// The users of an edge.
pub(crate) fn users_of(users: &[Vec<usize>], edge: usize) -> &[usize]
    requires { edge < length users.now }
    ensures { result.now ≡ users_of users.now edge }
{
    &users[edge]
}
