//! Lists of edges: those that a change affects, those that files need, and pages of the commands
//! that targets need.

ghost use Rattle.std.specs.Prelude.{◌≡◌, ◌<◌, false, Some, map, length, slice_get, All, IfErr, IfOk};
ghost use Rattle.nj_c.specs.Cited.{AreReached, AreNeeded, files_of, GivesItem, GivesMark, IfOpen, KeptUnlessDone, Changes, end_text, mark_of, numbered, AreKnown, IsPageOf, ListsNeeded, ListsPage, ListsReached, code_of, numbers_of, MarkRefused, AreRefused, IsPage, IsNoMark, IsPageAfter, PageRefused, makers_of, row_of, is_valid, FindsEdges, KeepsPage};

use crate::asking::{ask, list};
use crate::buffers::copy_text;
use crate::items::give_edge;
use crate::sealed_box::Seal;
use crate::session::Session;
use crate::session_state::Kept;
use crate::status::Status;
use nj_graph::{EdgeGraph, EdgeNo, FileNo, Graph};
use nj_needs::{Mark, Needs};
use std::alloc::{AllocError, Global};
use std::mem;

/// Lists the edges that a change of the given files affects: those that need one of them through
/// any chain of inputs, phony edges among them, without duplicates, by number. `nx_found` returns
/// them.
#[unsafe(no_mangle)]
pub extern "C" fn nx_affected(alloc: Global, session: &mut Session, files: &[usize]) -> i32
    ensures { Changes session.old.kept session.new.kept result (λ kept after.
        ListsReached kept after files.now) }
{
    list!(session, alloc, kept => affected(alloc, kept, files))
}

/// Lists the edges that the given files need through any chain of inputs, phony edges among them,
/// without duplicates, nearest first: the edges that make the files, then those that make their
/// inputs, and so on. `nx_found` returns them.
#[unsafe(no_mangle)]
pub extern "C" fn nx_needed(alloc: Global, session: &mut Session, files: &[usize]) -> i32
    ensures { Changes session.old.kept session.new.kept result (λ kept after.
        ListsNeeded kept after files.now) }
{
    list!(session, alloc, kept => needed(alloc, kept, files))
}

/// Lists the edges with commands that targets need, without duplicates, each after all edges that
/// make its inputs: at most `take` of those that are left after a mark. The mark is the empty text
/// for the first page, and that of `nx_page_mark` for the next page. `nx_found` returns the edges.
#[unsafe(no_mangle)]
pub extern "C" fn nx_page(
    alloc: Global,
    session: &mut Session,
    targets: &[usize],
    mark: &[u8],
    take: usize,
) -> i32
    ensures { Changes session.old.kept session.new.kept result (λ kept after.
        ListsPage kept after targets.now mark.now take) }
{
    list!(session, alloc, kept => page_of(alloc, kept, targets, mark, take))
}

/// The edge at an index among those that were listed last.
#[unsafe(no_mangle)]
pub extern "C" fn nx_found(
    alloc: Global,
    session: &mut Session,
    index: usize,
    edge: &mut usize,
) -> i32
    ensures kept { session.new.kept ≡ session.old.kept }
    ensures edge { IfOpen session.old.kept result (λ kept. GivesItem
        (slice_get (map (λ e. e.0) kept.found.items) index) result (λ number. edge.new ≡ number)) }
{
    ask!(session, alloc, kept => give_edge(&kept.found, index, edge))
}

/// The mark at which the last page ends. `NX_NOTHING` if no edge is left after it.
#[unsafe(no_mangle)]
pub extern "C" fn nx_page_mark(
    alloc: Global,
    session: &mut Session,
    buffer: &mut [u8],
    needed: &mut usize,
) -> i32
    ensures kept { session.new.kept ≡ session.old.kept }
    ensures mark { IfOpen session.old.kept result (λ kept.
        GivesMark kept.mark.items buffer.old buffer.new needed.new result) }
    ensures buffer { KeptUnlessDone buffer.old buffer.new result }
{
    ask!(session, alloc, kept => give_mark(&kept.mark, buffer, needed))
}

fn give_mark(mark: &[u8], buffer: &mut [u8], needed: &mut usize) -> Status
    ensures gives { GivesMark mark.now buffer.old buffer.new needed.new (code_of result) }
    ensures buffer { KeptUnlessDone buffer.old buffer.new (code_of result) }
{
    if mark.is_empty() {
        return Status::Nothing;
    }
    copy_text(mark, buffer, needed)
}

/// A list of edges, and the text of the mark at which it ends; empty if no edge is left after it.
#[derive(Drop)]
pub(crate) struct Page {
    pub(crate) edges: Vec<EdgeNo>,
    pub(crate) mark: Vec<u8>,
}

/// Keeps a list in place of the last list.
pub(crate) fn keep_page(seal: Seal, found: Result<Page, Status>) -> (Seal, Status)
    ensures { KeepsPage seal.kept result.0.kept found result.1 }
{
    match found {
        Ok(Page { edges, mark }) => (keep_edges(seal, edges, mark), Status::Done),
        Err(status) => (seal, status),
    }
}

fn keep_edges(seal: Seal, edges: Vec<EdgeNo>, mark: Vec<u8>) -> Seal
    ensures { result.kept ≡ record seal.kept { found = edges; mark = mark } }
{
    let mut kept = seal.into_box();
    drop(mem::replace(&mut kept.found, edges));
    drop(mem::replace(&mut kept.mark, mark));
    Seal::new(kept)
}

// The edges that a change of files with the given numbers affects.
fn affected(alloc: Global, kept: &Kept, numbers: &[usize]) -> Result<Page, Status>
    ensures { FindsEdges kept.now numbers.now (AreReached numbers.now)
        (AreRefused kept.now.graph numbers.now) result }
{
    let (graph, files) = graph_and_files(alloc, kept, numbers)?;
    let edges = graph.affected_by(alloc, &files)?;
    let mark = Vec::new(alloc);
    Ok(Page { edges, mark })
}

// The edges that files with the given numbers need.
fn needed(alloc: Global, kept: &Kept, numbers: &[usize]) -> Result<Page, Status>
    ensures { FindsEdges kept.now numbers.now (AreNeeded numbers.now)
        (AreRefused kept.now.graph numbers.now) result }
{
    let (graph, files) = graph_and_files(alloc, kept, numbers)?;
    let edges = graph.needed_by(alloc, &files)?;
    let mark = Vec::new(alloc);
    Ok(Page { edges, mark })
}

/// The graph of a session, and the files with the given numbers.
pub(crate) fn graph_and_files<'k>(
    alloc: Global,
    kept: &'k Kept,
    numbers: &[usize],
) -> Result<(&'k Graph, Vec<FileNo>), Status>
    ensures found { IfOk result (λ found. (kept.now.graph ≡ Some found.0.now)
        × AreKnown found.0.now numbers.now × (found.1.items ≡ numbered numbers.now)) }
    ensures below { IfOk result (λ found.
        All (λ file. file.0 < length (files_of found.0.now)) found.1.items) }
    ensures refused { IfErr result (AreRefused kept.now.graph numbers.now) }
{
    let Some(graph) = &kept.graph else {
        return Err(Status::NotLoaded);
    };
    let files = known_files(alloc, graph, numbers)?;
    Ok((graph, files))
}

/// The files with the given numbers.
pub(crate) fn known_files(
    alloc: Global,
    graph: &Graph,
    numbers: &[usize],
) -> Result<Vec<FileNo>, Status>
    ensures found { IfOk result (λ files.
        AreKnown graph.now numbers.now × (files.items ≡ numbered numbers.now)) }
    ensures below { IfOk result (λ files.
        All (λ file. file.0 < length (files_of graph.now)) files.items) }
    ensures refused { IfErr result (AreRefused (Some graph.now) numbers.now) }
{
    let mut files = Vec::new(alloc);
    'numbers: for number in numbers {
        if *number >= graph.file_count() {
            return Err(Status::BadNumber);
        }
        files.push(FileNo(*number))?;
    }
    Ok(files)
}

// The page of the edges that targets need after the mark of a text.
fn page_of(
    alloc: Global,
    kept: &Kept,
    numbers: &[usize],
    text: &[u8],
    take: usize,
) -> Result<Page, Status>
    ensures { FindsEdges kept.now numbers.now (IsPageAfter numbers.now text.now take)
        (PageRefused kept.now.graph numbers.now text.now) result }
{
    let (graph, targets) = graph_and_files(alloc, kept, numbers)?;
    let mark = read_mark(alloc, text)?;
    page_after(alloc, graph, &targets, &mark, take)
}

// The mark that a text denotes; the empty text is the start.
fn read_mark(alloc: Global, text: &[u8]) -> Result<Mark, Status>
    ensures mark { IfOk result (λ mark. mark_of text.now ≡ Some mark) }
    ensures refused { IfErr result (MarkRefused (IsNoMark text.now)) }
{
    if text.is_empty() {
        return Ok(Mark::start(alloc));
    }
    let Ok(text) = str::from_utf8(text) else {
        return Err(Status::BadMark);
    };
    Ok(Mark::read(alloc, text)?)
}

fn page_after(
    alloc: Global,
    graph: &EdgeGraph,
    targets: &[FileNo],
    mark: &Mark,
    take: usize,
) -> Result<Page, Status>
    requires { All (λ file. file.0 < length graph.now.files) targets.now }
    ensures page { IfOk result (λ page. IsPage graph.now targets.now mark.now take
        (numbers_of page.edges.items) page.mark.items) }
    ensures refused { IfErr result (MarkRefused
        (is_valid (makers_of graph.now) (row_of graph.now targets.now) mark.now ≡ false)) }
{
    let mut needs = Needs::resume(alloc, graph, targets, mark)?;
    Ok(next_page(alloc, &mut needs, take)?)
}

// At most `take` of the edges that are left to a walk.
fn next_page(alloc: Global, needs: &mut Needs<'_>, take: usize) -> Result<Page, AllocError>
    ensures { IfOk result (λ page.
        IsPageOf needs.old take (numbers_of page.edges.items) page.mark.items) }
{
    let mut edges = Vec::new(alloc);
    let mut room = Some(take as u64);
    'edges: while let Some(edge) = needs.next_on_page(&mut room) {
        edges.push(edge)?;
    }
    let mark = needs.mark_after_page(alloc, room)?;
    let mark = end_text(alloc, mark)?;
    Ok(Page { edges, mark })
}

// The text of the mark at which a page ends; empty if no edge is left after it.
fn end_text(alloc: Global, mark: Option<Mark>) -> Result<Vec<u8>, AllocError>
    ensures { IfOk result (λ text. text.items ≡ end_text mark) }
{
    match mark {
        Some(mark) => Ok(mark.to_text(alloc)?.into_bytes()),
        None => Ok(Vec::new(alloc)),
    }
}
