//! Inputs that a deps log names, besides the inputs that commands name.

ghost use Rattle.std.specs.Prelude.{◌≡◌, ◌↔◌, [], if◌then◌else◌, IfOk, IsTrue, None, OnOk, Some, length, map, nat_lt, option_map, Contains};
ghost use Rattle.nj_audit.specs.Cited.{OfEdge, OfStatements, cons_option, edge_of, file_in, file_of, maker_of, makes_opened, edges_of, files_of, path_at, path_of, files_named, AreUndeclaredFindings, IsLoggedAlone, IsNamedUnordered, AddsLogged, HasRoles, AreIn, input_in, input_of, inputs_in};

use crate::findings::Findings;
use crate::kinds::Kind;
use crate::roles::Roles;
use crate::unordered_files::{find_unordered_files, is_looked_at, is_unordered, named_files};
use nj_graph::{Edge, File, FileNo, Graph, NeedsSearch, UndeclaredInput};
use std::alloc::{AllocError, Global};

/// Returns the undeclared inputs: the files that commands name and that are unordered with their
/// edges, and then the inputs of the deps log that were not found by the command of their edge.
pub fn find_undeclared_inputs<'a>(
    alloc: Global,
    graph: &'a Graph,
    folder: &[u8],
    logged: &[UndeclaredInput],
) -> Result<Findings<'a>, AllocError>
    ensures { OfStatements graph.now (λ entries.
        IfOk result (AreUndeclaredFindings graph.now entries folder.now
        (inputs_in graph.now logged.now))) }
{
    let roles = Roles::new(alloc, graph)?;
    let mut found = find_unordered_files(alloc, graph, folder, &roles)?;
    push_logged(alloc, graph, folder, logged, &roles, &mut found)?;
    Ok(found)
}

/// Appends the given inputs, except those that the command of their edge names and that are
/// unordered with it.
fn push_logged<'a>(
    alloc: Global,
    graph: &'a Graph,
    folder: &[u8],
    logged: &[UndeclaredInput],
    roles: &Roles,
    found: &mut Findings<'a>,
) -> Result<(), AllocError>
    requires { HasRoles graph.now roles.now }
    ensures { OfStatements graph.entry.now (λ entries.
        OnOk result (AddsLogged graph.entry.now entries folder.now
        (inputs_in graph.entry.now logged.now) found.old found.new)) }
{
    let mut makers = NeedsSearch::new(alloc, graph);
    let mut users = NeedsSearch::new(alloc, graph);
    'inputs: for input in logged {
        push_input(
            alloc,
            graph,
            folder,
            *input,
            roles,
            &mut makers,
            &mut users,
            found,
        )?;
    }
    Ok(())
}

/// Appends an input if its edge and its file are in the graph, unless the command of the edge names
/// the input and it is unordered with the edge.
fn push_input<'a>(
    alloc: Global,
    graph: &'a Graph,
    folder: &[u8],
    input: UndeclaredInput,
    roles: &Roles,
    makers: &mut NeedsSearch<'_>,
    users: &mut NeedsSearch<'_>,
    found: &mut Findings<'a>,
) -> Result<(), AllocError>
    requires roles { HasRoles graph.now roles.now }
    requires makers { makers.old ≡ edges_of graph.now }
    requires users { users.old ≡ edges_of graph.now }
    ensures found { OfStatements graph.entry.now (λ entries.
        OnOk result (AddsLogged graph.entry.now entries folder.now
        (cons_option (input_in graph.entry.now input) []) found.old found.new)) }
    ensures makers { OnOk result (makers.new ≡ makers.old) }
    ensures users { OnOk result (users.new ≡ users.old) }
{
    let Some(edge) = graph.edge(input.edge) else {
        return Ok(());
    };
    let Some(file) = file_numbered(graph, input.file) else {
        return Ok(());
    };
    if is_logged_alone(alloc, folder, edge, file, roles, makers, users)? {
        found.push_at(edge, Kind::UndeclaredInput, file.path())?;
    }
    Ok(())
}

/// Returns the file with the given number, or `None` past the last file.
fn file_numbered(graph: &Graph, number: FileNo) -> Option<File<'_>>
    ensures { option_map file_of result ≡ (if nat_lt number.0 (length (files_of graph.now))
        then Some (file_in graph.now (path_at (files_of graph.now) number)) else None) }
{
    if number.0 < graph.file_count() {
        Some(graph.file_at(number))
    } else {
        None
    }
}

/// Whether an input of an edge that a log names is a finding of its own.
fn is_logged_alone(
    alloc: Global,
    folder: &[u8],
    edge: Edge<'_>,
    file: File<'_>,
    roles: &Roles,
    makers: &mut NeedsSearch<'_>,
    users: &mut NeedsSearch<'_>,
) -> Result<bool, AllocError>
    requires graph { (file_of file).graph ≡ (edge_of edge).graph }
    requires roles { HasRoles (edge_of edge).graph roles.now }
    requires makers { makers.old ≡ edges_of (edge_of edge).graph }
    requires users { users.old ≡ edges_of (edge_of edge).graph }
    ensures alone { OfEdge (edge_of edge.entry) (λ entries number.
        IfOk result (λ is_alone. IsTrue is_alone ↔ IsLoggedAlone (edge_of edge.entry).graph
        entries folder.now (input_of number (file_of file.entry)))) }
    ensures makers { OnOk result (makers.new ≡ makers.old) }
    ensures users { OnOk result (users.new ≡ users.old) }
{
    if !is_looked_at(alloc, edge, roles)? {
        return Ok(false);
    }
    if is_of_manifest(file, roles) {
        return Ok(false);
    }
    let is_named = is_named_unordered(alloc, folder, edge, file, roles, makers, users)?;
    Ok(!is_named)
}

/// Whether an edge that makes the manifest makes a file.
fn is_of_manifest(file: File<'_>, roles: &Roles) -> bool
    requires { HasRoles (file_of file).graph roles.now }
    ensures { result ≡ makes_opened (file_of file.entry).graph
        (maker_of (edges_of (file_of file.entry).graph) (file_of file.entry).path) }
{
    match file.maker() {
        Some(maker) => roles.makes_opened(maker),
        None => false,
    }
}

/// Whether the command of an edge names an input that is unordered with the edge.
fn is_named_unordered(
    alloc: Global,
    folder: &[u8],
    edge: Edge<'_>,
    file: File<'_>,
    roles: &Roles,
    makers: &mut NeedsSearch<'_>,
    users: &mut NeedsSearch<'_>,
) -> Result<bool, AllocError>
    requires graph { (file_of file).graph ≡ (edge_of edge).graph }
    requires roles { HasRoles (edge_of edge).graph roles.now }
    requires makers { makers.old ≡ edges_of (edge_of edge).graph }
    requires users { users.old ≡ edges_of (edge_of edge).graph }
    ensures named { OfEdge (edge_of edge.entry) (λ entries number.
        IfOk result (λ is_named. IsTrue is_named ↔ IsNamedUnordered (edge_of edge.entry).graph
        entries folder.now (input_of number (file_of file.entry)))) }
    ensures makers { OnOk result (makers.new ≡ makers.old) }
    ensures users { OnOk result (users.new ≡ users.old) }
{
    if is_unordered(edge, file, roles, makers, users)? {
        return names_file(alloc, folder, edge, file, roles);
    }
    Ok(false)
}

/// Whether the command of an edge or its response file names a file.
fn names_file(
    alloc: Global,
    folder: &[u8],
    edge: Edge<'_>,
    file: File<'_>,
    roles: &Roles,
) -> Result<bool, AllocError>
    requires graph { (file_of file).graph ≡ (edge_of edge).graph }
    requires roles { HasRoles (edge_of edge).graph roles.now }
    ensures { OfEdge (edge_of edge.entry) (λ entries number.
        IfOk result (λ names. IsTrue names ↔ Contains (map (path_of (edge_of edge.entry).graph)
        (files_named (edge_of edge.entry).graph entries folder.now number))
        (file_of file.entry).path)) }
{
    let files = named_files(alloc, folder, edge, roles)?;
    Ok(has_file(&files, file))
}

/// Whether the given files include a file.
fn has_file(files: &[File<'_>], file: File<'_>) -> bool
    requires { AreIn (file_of file).graph (map file_of files.now) }
    ensures { IsTrue result
        ↔ Contains (map (λ other. (file_of other).path) files.now) (file_of file.entry).path }
{
    'files: for other in files {
        if other.number().0 == file.number().0 {
            return true;
        }
    }
    false
}
