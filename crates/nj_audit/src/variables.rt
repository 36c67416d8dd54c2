//! Variables of edges that their rules do not refer to.

ghost use Rattle.std.specs.Prelude.{◌≡◌, ◌++◌, ℕ, List, [], ◌∷◌, IfOk, OnOk};
ghost use Rattle.nj_audit.specs.Cited.{OfEdge, OfStatements, AllZip, edge_of, is_among, is_known, names_in, rule_at, unused_names, unused_variables, unused_variables_at, HasReferences};

use crate::findings::Findings;
use crate::kinds::Kind;
use crate::names::Names;
use nj_graph::{Edge, Graph, LateValue, Part, Rule};
use std::alloc::{AllocError, Global};

/// Appends the names that blocks of edges bind, that the edge's rule does not refer to, and that
/// have no meaning to Ninja itself.
#[tactic(auto, using(crate::proofs::HandleLemmas::numbers_there))]
pub fn find_unused_variables<'a>(
    alloc: Global,
    graph: &'a Graph,
    found: &mut Findings<'a>,
) -> Result<(), AllocError>
    ensures { OfStatements graph.entry.now (λ entries.
        OnOk result (found.new ≡ found.old ++ unused_variables graph.entry.now entries)) }
{
    let references = references_of_rules(alloc, graph.rules())?;
    'edges: for edge in graph.edges() {
        push_unused_variables(edge, &references[edge.rule_number().0], found)?;
    }
    Ok(())
}

/// Appends the unused names of an edge. The references are those of its rule.
fn push_unused_variables<'a>(
    edge: Edge<'a>,
    references: &Names,
    found: &mut Findings<'a>,
) -> Result<(), AllocError>
    requires { HasReferences references.now
        (rule_at (edge_of edge).graph (edge_of edge).number) }
    ensures { OfEdge (edge_of edge.entry) (λ entries number. OnOk result (found.new
        ≡ found.old ++ unused_variables_at (edge_of edge.entry).graph entries number)) }
{
    'names: for index in 0..edge.block_name_count() {
        if let Some(name) = edge.block_name(index) {
            push_if_unused(edge, name, references, found)?;
        }
    }
    Ok(())
}

/// Appends a name that the block of an edge binds, unless it is used.
fn push_if_unused<'a>(
    edge: Edge<'a>,
    name: &'a [u8],
    references: &Names,
    found: &mut Findings<'a>,
) -> Result<(), AllocError>
    requires { HasReferences references.now
        (rule_at (edge_of edge).graph (edge_of edge).number) }
    ensures { OnOk result (found.new ≡ found.old ++ unused_names
        (edge_of edge.entry).graph (edge_of edge.entry).number (name.entry.now ∷ [])) }
{
    if is_known(name) || references.has(name) {
        return Ok(());
    }
    found.push_at(edge, Kind::UnusedVariable, name)
}

/// Returns the names to which the lines of each rule refer.
fn references_of_rules(alloc: Global, rules: &[Rule]) -> Result<Vec<Names>, AllocError>
    ensures { IfOk result (λ references. AllZip HasReferences references.items rules.now) }
{
    let mut references = Vec::with_capacity(alloc, rules.len())?;
    'rules: for rule in rules {
        references.push(references_of(alloc, rule)?)?;
    }
    Ok(references)
}

/// Returns the names to which the lines of a rule refer.
fn references_of(alloc: Global, rule: &Rule) -> Result<Names, AllocError>
    ensures { IfOk result (λ references. HasReferences references rule.now) }
{
    let mut references = Names::new(alloc);
    'lines: for index in 0..rule.line_count() {
        add_references(&mut references, rule.line_value(index))?;
    }
    Ok(references)
}

/// Adds the names to which a value refers.
fn add_references(references: &mut Names, value: &LateValue) -> Result<(), AllocError>
    ensures { OnOk result ((name : List ℕ) → is_among references.new name
        ≡ is_among (references.old ++ names_in value.now) name) }
{
    'parts: for index in 0..value.len() {
        match value.part(index) {
            Part::Name(name) => {
                references.add(name)?;
            }
            Part::Bytes(_) => {}
        }
    }
    Ok(())
}

/// Whether a name has a meaning to Ninja itself.
fn is_known(name: &[u8]) -> bool
    ensures { result ≡ is_known name.now }
{
    name == b"command".as_slice()
        || name == b"depfile".as_slice()
        || name == b"deps".as_slice()
        || name == b"description".as_slice()
        || name == b"dyndep".as_slice()
        || name == b"generator".as_slice()
        || name == b"in".as_slice()
        || name == b"in_newline".as_slice()
        || name == b"msvc_deps_prefix".as_slice()
        || name == b"out".as_slice()
        || name == b"pool".as_slice()
        || name == b"restat".as_slice()
        || name == b"rspfile".as_slice()
        || name == b"rspfile_content".as_slice()
}
