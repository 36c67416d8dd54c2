//! Files that the commands of edges name, and that other edges make, unordered with them.

ghost use Rattle.std.specs.Prelude.{◌≡◌, ◌↔◌, ℕ, List, [], Some, IfOk, IfSome, IsTrue, OnOk, map, option_map};
ghost use Rattle.nj_audit.specs.Cited.{OfEdge, OfStatements, edge_of, file_of, inputs_of, maker_of, paths_of, edges_of, edge_numbers, AreNamedUnordered, IsOther, IsTwin, IsUnordered, files_named, has_generator, is_looked_at, response_of, with_name, AreIn, AddsUnordered, AddsOnce, HaveNumbers, HasRoles};

use crate::file_set::FileSet;
use crate::findings::Findings;
use crate::kinds::Kind;
use crate::named_files::add_named_files;
use crate::roles::Roles;
use nj_graph::{Edge, File, Graph, NeedsSearch};
use std::alloc::{AllocError, Global};

/// Returns the files that the commands of edges and their response files name, and that another
/// edge makes, where neither edge needs the other. Names are read as seen from the directory, which
/// is absolute; without a directory, absolute names stay.
pub fn find_unordered_files<'a>(
    alloc: Global,
    graph: &'a Graph,
    folder: &[u8],
    roles: &Roles,
) -> Result<Findings<'a>, AllocError>
    requires { HasRoles graph.now roles.now }
    ensures { OfStatements graph.now (λ entries.
        IfOk result (AreNamedUnordered graph.now entries folder.now (edge_numbers graph.now))) }
{
    let mut found = Findings::new(alloc);
    let mut seen = FileSet::new(alloc, graph)?;
    let mut makers = NeedsSearch::new(alloc, graph);
    let mut users = NeedsSearch::new(alloc, graph);
    'edges: for edge in graph.edges() {
        let files = named_files(alloc, folder, edge, roles)?;
        push_unordered(
            edge,
            &files,
            roles,
            &mut seen,
            &mut makers,
            &mut users,
            &mut found,
        )?;
    }
    Ok(found)
}

/// Returns the files that the command of an edge and its response file may name.
pub fn named_files<'g>(
    alloc: Global,
    folder: &[u8],
    edge: Edge<'g>,
    roles: &Roles,
) -> Result<Vec<File<'g>>, AllocError>
    requires { HasRoles (edge_of edge).graph roles.now }
    ensures named { OfEdge (edge_of edge.entry) (λ entries number.
        IfOk result (λ files. HaveNumbers (edge_of edge.entry).graph (map file_of files.items)
        (files_named (edge_of edge.entry).graph entries folder.now number))) }
    ensures graph { IfOk result
        (λ files. AreIn (edge_of edge.entry).graph (map file_of files.items)) }
{
    let mut files = Vec::new(alloc);
    if !is_looked_at(alloc, edge, roles)? {
        return Ok(files);
    }
    let graph = edge.graph();
    let command = edge.command(alloc)?;
    add_named_files(&mut files, graph, folder, &command)?;
    let response = response(alloc, edge)?;
    add_named_files(&mut files, graph, folder, &response)?;
    Ok(files)
}

/// Whether an edge runs a command in a build that does not regenerate the build.
pub fn is_looked_at(alloc: Global, edge: Edge<'_>, roles: &Roles) -> Result<bool, AllocError>
    requires { HasRoles (edge_of edge).graph roles.now }
    ensures { OfEdge (edge_of edge.entry) (λ entries number.
        IfOk result (λ is. is ≡ is_looked_at (edge_of edge.entry).graph entries number)) }
{
    if edge.is_phony() {
        return Ok(false);
    }
    let has_generator = has_generator(alloc, edge)?;
    Ok(!has_generator && !roles.is_run_by_hand(edge))
}

/// Whether the value of `generator` for an edge is not empty.
pub fn has_generator(alloc: Global, edge: Edge<'_>) -> Result<bool, AllocError>
    ensures { OfEdge (edge_of edge.entry) (λ entries number.
        IfOk result (λ has. has ≡ has_generator entries number)) }
{
    let generator = edge.variable(alloc, b"generator")?;
    Ok(!generator.is_empty())
}

/// Returns the contents of an edge's response file, if the file has a name.
fn response(alloc: Global, edge: Edge<'_>) -> Result<Vec<u8>, AllocError>
    ensures { OfEdge (edge_of edge.entry) (λ entries number.
        IfOk result (λ text. text.items ≡ response_of entries number)) }
{
    let file = edge.variable(alloc, b"rspfile")?;
    if file.as_slice().is_empty() {
        return Ok(file);
    }
    edge.variable(alloc, b"rspfile_content")
}

/// Appends the given files that are unordered with an edge. The set is for the files found.
fn push_unordered<'a>(
    edge: Edge<'a>,
    files: &[File<'a>],
    roles: &Roles,
    seen: &mut FileSet<'_>,
    makers: &mut NeedsSearch<'_>,
    users: &mut NeedsSearch<'_>,
    found: &mut Findings<'a>,
) -> Result<(), AllocError>
    requires files { AreIn (edge_of edge).graph (map file_of files.now) }
    requires roles { HasRoles (edge_of edge).graph roles.now }
    requires seen { seen.old.graph ≡ (edge_of edge).graph }
    requires makers { makers.old ≡ edges_of (edge_of edge).graph }
    requires users { users.old ≡ edges_of (edge_of edge).graph }
    ensures found { OnOk result ((numbers : List ℕ)
        → HaveNumbers (edge_of edge.entry).graph (map file_of files.now) numbers
        → AddsUnordered (edge_of edge.entry) numbers found.old found.new) }
    ensures seen { OnOk result (seen.new.graph ≡ seen.old.graph) }
    ensures makers { OnOk result (makers.new ≡ makers.old) }
    ensures users { OnOk result (users.new ≡ users.old) }
{
    seen.clear();
    'files: for file in files {
        if is_unordered(edge, *file, roles, makers, users)? {
            push_once(edge, *file, seen, found)?;
        }
    }
    Ok(())
}

/// Appends a file of an edge, unless it was seen.
fn push_once<'a>(
    edge: Edge<'a>,
    file: File<'a>,
    seen: &mut FileSet<'_>,
    found: &mut Findings<'a>,
) -> Result<(), AllocError>
    requires { seen.old.graph ≡ (file_of file).graph }
    ensures { OnOk result (AddsOnce (edge_of edge.entry) (file_of file.entry).path
        seen.old seen.new found.old found.new) }
{
    if seen.add(file)? {
        found.push_at(edge, Kind::UndeclaredInput, file.path())?;
    }
    Ok(())
}

/// Whether a file is unordered with an edge.
pub fn is_unordered(
    edge: Edge<'_>,
    file: File<'_>,
    roles: &Roles,
    makers: &mut NeedsSearch<'_>,
    users: &mut NeedsSearch<'_>,
) -> Result<bool, AllocError>
    requires graph { (file_of file).graph ≡ (edge_of edge).graph }
    requires roles { HasRoles (edge_of edge).graph roles.now }
    requires makers { makers.old ≡ edges_of (edge_of edge).graph }
    requires users { users.old ≡ edges_of (edge_of edge).graph }
    ensures unordered { IfOk result (λ is_unordered. IsTrue is_unordered ↔ IsUnordered
        (edge_of edge.entry).graph (edge_of edge.entry).number (file_of file.entry).path) }
    ensures makers { OnOk result (makers.new ≡ makers.old) }
    ensures users { OnOk result (users.new ≡ users.old) }
{
    let Some(maker) = other_maker(edge, file, roles) else {
        return Ok(false);
    };
    if makers.is_or_needs(edge.number(), maker.number())? {
        return Ok(false);
    }
    let is_user = users.is_or_needs(maker.number(), edge.number())?;
    Ok(!is_user)
}

/// Returns the edge that makes a file, if it has a command, is not a twin and does not make a file
/// of the manifest.
fn other_maker<'g>(edge: Edge<'_>, file: File<'g>, roles: &Roles) -> Option<Edge<'g>>
    requires graph { (file_of file).graph ≡ (edge_of edge).graph }
    requires roles { HasRoles (edge_of edge).graph roles.now }
    ensures graph { IfSome result (λ maker. (edge_of maker).graph ≡ (edge_of edge.entry).graph) }
    ensures maker { (maker : ℕ) → (option_map (λ maker. (edge_of maker).number) result ≡ Some maker)
        ↔ ((maker_of (edges_of (edge_of edge.entry).graph) (file_of file.entry).path ≡ Some maker)
        × IsOther (edge_of edge.entry).graph (edge_of edge.entry).number maker) }
{
    let maker = file.maker()?;
    if maker.is_phony() || roles.makes_opened(maker) || is_twin(edge, maker) {
        None
    } else {
        Some(maker)
    }
}

/// Whether an edge has the rule and the inputs of another edge.
fn is_twin(edge: Edge<'_>, other: Edge<'_>) -> bool
    requires { (edge_of other).graph ≡ (edge_of edge).graph }
    ensures { IsTrue result ↔ IsTwin
        (edge_of edge.entry).graph (edge_of edge.entry).number (edge_of other.entry).number }
{
    if edge.rule_number().0 != other.rule_number().0 {
        return false;
    }
    // so that the paths of the graph are known to be distinct
    let _count = edge.graph().file_count();
    edge.inputs().numbers() == other.inputs().numbers()
}
