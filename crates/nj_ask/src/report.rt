//! A report about a change of files.

ghost use Rattle.std.specs.Prelude.{◌≡◌, ◌<◌, ◌++◌, [], All, IfOk, OnOk, false, if◌then◌else◌, length, map};
ghost use Rattle.nj_ask.specs.Cited.{OfStatements, IsAffected, flat_map, path_at, edges_of, files_of, asked_of, changed_numbers, numbers_of, opened_files, opened_paths, warning_by, AreFilesAt, AreFilesOf, AreTables, SameNames, IsTouched, made_from_line, change_model, texts, DoneMissesNothing, DoneMissesNoTest, ListedHaveReasons, HasCaveats, HasWarnings, IsReport, IsTouchedBy, WarningsAreUnique, HasEdges, AreEdgesOf, HaveAffected, AreTouched, remade_files, shape_text, CanTellAll, IsReach, edge_numbers};

use crate::answer::Answer;
use crate::changes::{FilesAt, files_at, full_paths};
use crate::discovered::DiscoveredGraph;
use crate::listing::{Listed, list_outputs, push_line};
use crate::manifest::{Manifest, feeding_files};
use crate::new_commands::{with_commands, with_outputs};
use crate::opened::opened_paths;
use crate::shape::shape_lines;
use nj_changes::{all_sought, has_one, sought};
use nj_graph::{EdgeNo, FileNo};
use nj_names::Names;
use std::alloc::{AllocError, Global};

/// A change of files.
#[derive(Clone, Copy)]
pub struct Change<'a> {
    /// The path of the working directory; empty if it is not known.
    pub working: &'a [u8],
    /// The directories that the paths may be in; if empty, the paths stand for themselves.
    pub folders: &'a [String],
    /// The changed paths.
    pub paths: &'a [&'a [u8]],
    /// Whether paths that no edge and no test names are left unreported.
    pub ignores_unknown: bool,
    /// The full paths of files that tests name.
    pub test_files: &'a Names,
    /// The edges with new commands.
    pub commands: &'a [EdgeNo],
    /// Whether the manifest is up to date with the files that it is made from.
    pub is_settled: bool,
}

/// Tables of full paths, in which changed paths are looked up.
#[derive(Drop)]
struct Tables {
    /// The paths of the changed files.
    changed: Names,
    /// The paths of the changed files from which the manifest is made.
    feeding: Names,
}

/// What a change of files reaches.
#[derive(Drop)]
pub(crate) struct Reach {
    /// A table of the full paths at which its paths may be.
    pub sought: Names,
    /// The changed files.
    pub files: Vec<FileNo>,
    /// The edges that the change touches.
    pub touched: Vec<EdgeNo>,
    /// Why more edges may be touched, a line each.
    pub caveats: Vec<u8>,
}

/// The edges that a change touches, and why there may be more.
#[derive(Drop)]
struct Touched {
    edges: Vec<EdgeNo>,
    caveats: Vec<u8>,
}

// ---- the report

/// The report about a change: the requested outputs of exactly the edges that it touches, in
/// reading order, and why outputs may be missing.
pub(crate) fn report_of(
    alloc: Global,
    known: &DiscoveredGraph,
    change: Change<'_>,
    listed: Listed<'_>,
) -> Result<Answer, AllocError>
    requires edges { HasEdges known.now }
    requires commands { AreEdgesOf known.now.graph change.commands.now }
    ensures report { OfStatements known.now.graph (λ entries.
        IfOk result (λ answer. IsReport known.now entries (change_model change.entry)
        (asked_of listed.entry) answer.output.items answer.warnings.items)) }
    ensures looks { IfOk result (λ answer. answer.looks ≡ false) }
{
    let Reach {
        touched,
        caveats,
        ..
    } = reach_of(alloc, known, change)?;
    let output = list_outputs(alloc, known.graph.edges_at(&touched), listed)?;
    Ok(Answer {
        output,
        warnings: caveats,
        looks: false,
    })
}

/// What a change reaches: exactly the edges that it touches, in reading order.
pub(crate) fn reach_of(
    alloc: Global,
    known: &DiscoveredGraph,
    change: Change<'_>,
) -> Result<Reach, AllocError>
    requires edges { HasEdges known.now }
    requires commands { AreEdgesOf known.now.graph change.commands.now }
    ensures reach { IfOk result (IsReach known.now (change_model change.entry)) }
    ensures caveats { OfStatements known.now.graph (λ entries. IfOk result (λ reach.
        HasCaveats known.now entries (change_model change.entry)
        (edge_numbers reach.touched.items) reach.caveats.items)) }
{
    let Change {
        working,
        folders,
        paths,
        ..
    } = change;
    let graph = &known.graph;
    let opened = opened_paths(alloc, graph, known.keys, working)?;
    let sought = all_sought(alloc, known.keys, working, folders, paths)?;
    let files = files_at(alloc, graph, working, &sought, &opened)?;
    let Touched { edges, caveats } = reached_by(alloc, known, change, &opened, &files)?;
    let FilesAt { changed, .. } = files;
    Ok(Reach {
        sought,
        files: changed,
        touched: edges,
        caveats,
    })
}

/// What a change of the given files reaches, where `opened` has the full paths of the opened files.
fn reached_by(
    alloc: Global,
    known: &DiscoveredGraph,
    change: Change<'_>,
    opened: &Names,
    files: &FilesAt,
) -> Result<Touched, AllocError>
    requires edges { HasEdges known.now }
    requires commands { AreEdgesOf known.now.graph change.commands.now }
    requires opened { SameNames opened.now
        (opened_paths known.now.graph (change_model change).working) }
    requires files { AreFilesAt known.now.graph (change_model change) files.now }
    ensures touched { IfOk result (λ touched. AreTouched known.now
        (IsTouchedBy known.now (change_model change.entry)) touched.edges.items) }
    ensures caveats { OfStatements known.now.graph (λ entries. IfOk result (λ touched.
        HasCaveats known.now entries (change_model change.entry)
        (edge_numbers touched.edges.items) touched.caveats.items)) }
{
    let new = with_outputs(alloc, &known.graph, &files.changed, change.commands)?;
    let affected = known.graph.affected_by(alloc, &new)?;
    let about = warnings_of(alloc, known, change, opened, files, &affected)?;
    let edges = touched_by(alloc, known, &new, affected)?;
    let edges = with_commands(alloc, known, &edges, change.commands)?;
    let caveats = caveats_of(alloc, known, change, files, &about, &edges)?;
    Ok(Touched { edges, caveats })
}

/// Why more edges may be touched than the given ones, with these warnings about paths.
fn caveats_of(
    alloc: Global,
    known: &DiscoveredGraph,
    change: Change<'_>,
    files: &FilesAt,
    about: &[u8],
    edges: &[EdgeNo],
) -> Result<Vec<u8>, AllocError>
    requires files { AreFilesAt known.now.graph (change_model change) files.now }
    requires edges { All (λ edge. edge.0 < length (edges_of known.now.graph)) edges.now }
    ensures { OfStatements known.now.graph (λ entries. IfOk result (λ text. text.items
        ≡ known.now.caveats.items ++ about.now ++ shape_text known.now entries
        (remade_files known.now.graph (change_model change.entry))
        (changed_numbers known.now.graph (change_model change.entry))
        (edge_numbers edges.now))) }
{
    let opened = files_unless(change.is_settled, &files.opened);
    let shape = shape_lines(alloc, known, opened, &files.changed, edges)?;
    joined(alloc, &known.caveats, about, &shape)
}

/// No files, or else the given ones.
fn files_unless(is_settled: bool, files: &[FileNo]) -> &[FileNo]
    ensures { result.now ≡ (if is_settled then [] else files.entry.now) }
{
    if is_settled {
        return &[];
    }
    files
}

/// Three texts, one after the other.
fn joined(alloc: Global, first: &[u8], second: &[u8], third: &[u8]) -> Result<Vec<u8>, AllocError>
    ensures { IfOk result (λ text. text.items ≡ first.now ++ second.now ++ third.now) }
{
    let mut text = Vec::new(alloc);
    text.extend_from_slice(first)?;
    text.extend_from_slice(second)?;
    text.extend_from_slice(third)?;
    Ok(text)
}

/// The edges that a change of the given files touches: those that are to be built again, if
/// discovered inputs were joined; otherwise the affected ones, which are given.
pub fn touched_by(
    alloc: Global,
    known: &DiscoveredGraph,
    changed: &[FileNo],
    affected: Vec<EdgeNo>,
) -> Result<Vec<EdgeNo>, AllocError>
    requires edges { HasEdges known.now }
    requires files { All (λ file. file.0 < length (files_of known.now.graph)) changed.now }
    requires affected { AreTouched known.now (IsAffected (edges_of known.now.graph)
        (map (path_at (files_of known.now.graph)) changed.now)) affected.items }
    ensures { IfOk result (λ touched. AreTouched known.now (IsTouched known.now
        (map (path_at (files_of known.now.graph)) changed.now)) touched.items) }
{
    if known.has_discovered {
        return known.graph.dirtied_by(alloc, changed, &known.unknown);
    }
    Ok(affected)
}

// ---- the warnings about changed paths

/// The warnings about the changed paths, which denote the given files and affect the given edges,
/// among which may be more.
fn warnings_of(
    alloc: Global,
    known: &DiscoveredGraph,
    change: Change<'_>,
    opened: &Names,
    files: &FilesAt,
    affected: &[EdgeNo],
) -> Result<Vec<u8>, AllocError>
    requires opened { SameNames opened.now
        (opened_paths known.now.graph (change_model change).working) }
    requires files { AreFilesAt known.now.graph (change_model change) files.now }
    requires edges { All (λ edge. edge.0 < length (edges_of known.now.graph)) affected.now }
    requires affected { HaveAffected known.now.graph (change_model change)
        (map (λ edge. edge.0) affected.now) }
    ensures { OfStatements known.now.graph (λ entries.
        IfOk result (λ text. HasWarnings known.now.graph entries (change_model change.entry)
        (texts change.entry.paths.now) text.items)) }
{
    let manifest = Manifest::new(alloc, &known.graph, &files.opened, affected)?;
    let tables = tables_of(alloc, known, change, &manifest, &files.changed)?;
    warnings_about(alloc, change, opened, &tables)
}

/// The tables for the changed files.
fn tables_of(
    alloc: Global,
    known: &DiscoveredGraph,
    change: Change<'_>,
    manifest: &Manifest,
    changed: &[FileNo],
) -> Result<Tables, AllocError>
    requires files { numbers_of changed.now ≡ changed_numbers known.now.graph (change_model change) }
    requires known { AreFilesOf known.now.graph changed.now }
    requires tells { OfStatements known.now.graph (λ entries. CanTellAll known.now.graph
        (opened_files known.now.graph (change_model change).working) entries
        (changed_numbers known.now.graph (change_model change)) manifest.now) }
    ensures { OfStatements known.now.graph (λ entries.
        IfOk result (AreTables known.now.graph entries (change_model change.entry))) }
{
    let graph = &known.graph;
    let feeding = feeding_files(alloc, graph, manifest, changed)?;
    let changed = full_paths(alloc, graph, known.keys, change.working, changed)?;
    let feeding = full_paths(alloc, graph, known.keys, change.working, &feeding)?;
    Ok(Tables { changed, feeding })
}

/// The warnings about the changed paths, by the tables and that of opened files.
fn warnings_about(
    alloc: Global,
    change: Change<'_>,
    opened: &Names,
    tables: &Tables,
) -> Result<Vec<u8>, AllocError>
    ensures { IfOk result (λ text. text.items
        ≡ flat_map (warning_by opened.now tables.now (change_model change.entry))
        (texts change.entry.paths.now)) }
{
    let mut warnings = Vec::new(alloc);
    'paths: for path in change.paths {
        push_warning(alloc, change, opened, tables, path, &mut warnings)?;
    }
    Ok(warnings)
}

/// Appends the warning about a changed path, if any.
fn push_warning(
    alloc: Global,
    change: Change<'_>,
    opened: &Names,
    tables: &Tables,
    path: &[u8],
    warnings: &mut Vec<u8>,
) -> Result<(), AllocError>
    ensures { OnOk result (warnings.new.items ≡ warnings.old.items
        ++ warning_by opened.now tables.now (change_model change.entry) path.now) }
{
    let found = sought(alloc, change.working, change.folders, path)?;
    if has_one(opened, &found) || has_one(&tables.feeding, &found) {
        return push_made_from(change.is_settled, path, warnings);
    }
    let is_known = has_one(&tables.changed, &found) || has_one(change.test_files, &found);
    if is_known || change.ignores_unknown {
        return Ok(());
    }
    push_line(warnings, path)
}

/// Appends a path as a line that says that the manifest is made from it, unless the manifest is up to
/// date.
fn push_made_from(is_settled: bool, path: &[u8], lines: &mut Vec<u8>) -> Result<(), AllocError>
    ensures { OnOk result (lines.new.items ≡ lines.old.items
        ++ (if is_settled then [] else made_from_line path.now)) }
{
    if is_settled {
        return Ok(());
    }
    lines.extend_from_slice(path)?;
    lines.extend_from_slice(b": the manifest is made from it")?;
    lines.push(b'\n')?;
    Ok(())
}

// ---- its meaning

/// Where `affected` ends with status 0, each changed path denotes files of the graph that are not
/// needed to make the manifest, unless it is unknown and such paths are ignored; no file was opened
/// at it; and the written outputs are all that the change affects. The same is true of `tests`,
/// except that a path may also denote a file that only a test names, and exactly the chosen tests
/// are written. A list of paths has only one text of warnings. The edges whose outputs are listed
/// are exactly those with a reason, such as a changed input, or an input that a listed edge makes.
pub fn report_law()
    ensures complete { DoneMissesNothing }
    ensures tests { DoneMissesNoTest }
    ensures unique { WarningsAreUnique }
    ensures closed { ListedHaveReasons }
{}
