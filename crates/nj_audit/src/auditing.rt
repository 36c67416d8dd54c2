//! The findings of the requested kinds.

ghost use Rattle.std.specs.Prelude.{◌≡◌, ◌++◌, IfOk, OnOk};
ghost use Rattle.nj_audit.specs.Cited.{OfStatements, flat_map, inputs_in, IsAudit, asked_of, findings_of, all_kinds};

use crate::commands::find_repeated_commands;
use crate::depfiles::find_depfiles_without_deps;
use crate::findings::Findings;
use crate::inputs::find_repeated_inputs;
use crate::kinds::{Kind, Kinds};
use crate::logged_inputs::find_undeclared_inputs;
use crate::outputs::find_unused_outputs;
use crate::pools::find_unused_pools;
use crate::rules::find_unused_rules;
use crate::serving::serving_edges;
use crate::sources::find_missing_sources;
use crate::variables::find_unused_variables;
use nj_graph::{Graph, UndeclaredInput};
use std::alloc::{AllocError, Global};

/// Returns the findings of the given kinds, kind by kind. `missing` has for each file whether it is
/// missing on the disk; without `missing-source` it may be empty. Commands name files as seen from
/// the directory, which is absolute; it may be empty, and then absolute names stay.
///
/// `logged` are the inputs that edges do not declare by a deps log
/// ([`nj_graph::undeclared_inputs`]), in numbers of this graph, to which the log may be joined by
/// now. Inputs whose edge or file is not in the graph are ignored. The others come after the inputs
/// that commands name, and do not repeat them. If many logged inputs are still unordered with their
/// edges, as without the log in the graph, each takes the time to read the command of its edge.
pub fn audit<'a>(
    alloc: Global,
    graph: &'a Graph,
    missing: &[bool],
    folder: &[u8],
    logged: &[UndeclaredInput],
    kinds: Kinds,
) -> Result<Findings<'a>, AllocError>
    ensures { OfStatements graph.now (λ entries.
        IfOk result (IsAudit graph.now entries missing.now folder.now
        (inputs_in graph.now logged.now) kinds)) }
{
    let edges = serving_edges(alloc, graph)?;
    let undeclared = if kinds.contains(Kind::UndeclaredInput) {
        find_undeclared_inputs(alloc, graph, folder, logged)?
    } else {
        Findings::new(alloc)
    };
    find_all(alloc, graph, missing, edges.flags(), &undeclared, kinds)
}

/// Returns the findings of the given kinds, where flags mark the edges that serve commands.
fn find_all<'a>(
    alloc: Global,
    graph: &'a Graph,
    missing: &[bool],
    serving: &[bool],
    undeclared: &Findings<'a>,
    kinds: Kinds,
) -> Result<Findings<'a>, AllocError>
    ensures { OfStatements graph.now (λ entries.
        IfOk result (λ found. found ≡ flat_map (asked_of kinds
        (findings_of graph.now entries missing.now serving.now undeclared.entry.now)) all_kinds)) }
{
    let mut found = Findings::new(alloc);
    'all: for kind in Kind::ALL {
        find(
            alloc, graph, missing, serving, undeclared, kinds, kind, &mut found,
        )?;
    }
    Ok(found)
}

/// Appends the findings of a kind, if it is requested.
fn find<'a>(
    alloc: Global,
    graph: &'a Graph,
    missing: &[bool],
    serving: &[bool],
    undeclared: &Findings<'a>,
    kinds: Kinds,
    kind: Kind,
    found: &mut Findings<'a>,
) -> Result<(), AllocError>
    ensures { OfStatements graph.entry.now (λ entries. OnOk result
        (found.new ≡ found.old ++ asked_of kinds (findings_of graph.entry.now entries missing.now
        serving.now undeclared.entry.now) kind)) }
{
    if !kinds.contains(kind) {
        return Ok(());
    }
    match kind {
        Kind::UnusedOutput => find_unused_outputs(alloc, graph, found),
        Kind::MissingSource => find_missing_sources(graph, missing, serving, found),
        Kind::UnusedRule => find_unused_rules(alloc, graph, found),
        Kind::UnusedPool => find_unused_pools(alloc, graph, found),
        Kind::UnusedVariable => find_unused_variables(alloc, graph, found),
        Kind::RepeatedCommand => find_repeated_commands(alloc, graph, found),
        Kind::DepfileWithoutDeps => find_depfiles_without_deps(alloc, graph, found),
        Kind::RepeatedInput => find_repeated_inputs(alloc, graph, found),
        Kind::UndeclaredInput => found.extend(undeclared),
    }
}
