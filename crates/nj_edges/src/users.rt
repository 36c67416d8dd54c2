//! The users of files: the edges that have a file among their inputs, or in another part of theirs.

ghost use Rattle.std.specs.Prelude.{◌≡◌, ℕ, List, ◌+◌, ◌<◌, ◌^◌, Some, length, slice_get, slice_index_or, IfOk, OnOk};
ghost use Rattle.nj_edges.specs.Cited.{AllByRecursion, AreNumbers, IsWithin, within, AreCounted, AreCounts, AreEnds, AreMarks, AreParts, ArePlaced, HaveCapacity, HaveUsers, HaveUsersIfAny, numbers_of, plus_use, plus_uses, span_of, starts_with, users_before, using_edges};

use crate::edges::{EdgeNo, EdgeRow, Span};
use crate::list_parts::part;
use crate::rows::Rows;
use nj_names::FileNo;
use std::alloc::{AllocError, Global};

/// A part of an edge whose files have users.
#[derive(Clone, Copy)]
pub(crate) enum RowPart {
    Inputs,
    /// The explicit and the implicit inputs.
    CountedInputs,
    Outputs,
    Validations,
}

/// The users of each file, by number: one list, in which the users of a file are together.
#[derive(Drop)]
pub(crate) struct Users {
    /// Where the users of each file begin, and where the users of the last file end.
    pub(crate) starts: Vec<u32>,
    pub(crate) edges: Vec<EdgeNo>,
}

/// For each of `file_count` files, the edges that have it in the given part. They are counted
/// first, and then each is put in its place. Takes time in proportion to the number of files and
/// the length of the parts. A number that does not fit in 32 bits is an allocation failure.
pub(crate) fn users_of_files(
    alloc: Global,
    file_count: usize,
    files: &[FileNo],
    rows: &Rows,
    row_part: RowPart,
) -> Result<Users, AllocError>
    requires files { AreNumbers file_count files.now }
    requires rows { AllByRecursion (λ row. IsWithin (span_of row_part row) (length files.now))
        rows.now }
    ensures { IfOk result (λ users. HaveUsers file_count users.starts.items
        (numbers_of users.edges.items) (using_edges files.now row_part 0 rows.now)) }
{
    let start_count = file_count.checked_add(1).ok_or(AllocError)?;
    let mut starts = user_counts(alloc, start_count, files, rows, row_part)?;
    let user_count = add_up(&mut starts)?;
    let edges = placed_users(alloc, &mut starts, user_count, files, rows, row_part)?;
    Ok(Users { starts, edges })
}

/// As `users_of_files`, but `None` if the part is empty in every edge.
pub(crate) fn users_if_any(
    alloc: Global,
    file_count: usize,
    files: &[FileNo],
    rows: &Rows,
    row_part: RowPart,
) -> Result<Option<Users>, AllocError>
    requires files { AreNumbers file_count files.now }
    requires rows { AllByRecursion (λ row. IsWithin (span_of row_part row) (length files.now))
        rows.now }
    ensures { IfOk result (λ users. HaveUsersIfAny file_count users
        (using_edges files.now row_part 0 rows.now)) }
{
    if files.is_empty() {
        return Ok(None);
    }
    let users = users_of_files(alloc, file_count, files, rows, row_part)?;
    Ok(Some(users))
}

// The users of a file.
pub(crate) fn users_at<'a>(starts: &[u32], edges: &'a [EdgeNo], file: FileNo) -> &'a [EdgeNo]
    requires held { (uses : ℕ → List ℕ) × AreParts starts.now (numbers_of edges.now) uses }
    requires file { file.0 + 1 < length starts.now }
    ensures { (uses : ℕ → List ℕ) → AreParts starts.now (numbers_of edges.now) uses
        → numbers_of result.now ≡ uses file.0 }
{
    part(
        edges,
        start_at(starts, file.0),
        start_at(starts, file.0 + 1),
    )
}

// Where the users of a file begin.
fn start_at(starts: &[u32], file: usize) -> usize
    requires { file < length starts.now }
    ensures { result ≡ slice_index_or starts.now file 0 }
{
    starts[file] as usize
}

// How many users each of `count` files has.
fn user_counts(
    alloc: Global,
    count: usize,
    files: &[FileNo],
    rows: &Rows,
    row_part: RowPart,
) -> Result<Vec<u32>, AllocError>
    requires files { AreNumbers count files.now }
    requires rows { AllByRecursion (λ row. IsWithin (span_of row_part row) (length files.now))
        rows.now }
    ensures count { IfOk result (λ counts. length counts.items ≡ count) }
    ensures counts { IfOk result (λ counts. AreCounts counts.items
        (using_edges files.now row_part 0 rows.now)) }
{
    let mut counts = vec![in alloc; 0_u32; count]?;
    let mut marks = vec![in alloc; 0_u32; count]?;
    let mut edge = row_count(rows)?;
    'rows: while edge > 0 {
        edge -= 1;
        let edge_files = files_of(files, rows, row_part, edge as usize);
        count_uses(&mut counts, &mut marks, edge_files, edge)?;
    }
    Ok(counts)
}

// The number of edges.
fn row_count(rows: &Rows) -> Result<u32, AllocError>
    ensures { IfOk result (λ count. count ≡ length rows.now) }
{
    match u32::try_from(rows.count()) {
        Ok(count) => Ok(count),
        Err(_) => Err(AllocError),
    }
}

// The files in this part of an edge.
fn files_of<'a>(files: &'a [FileNo], rows: &Rows, row_part: RowPart, edge: usize) -> &'a [FileNo]
    requires edge { edge < length rows.now }
    requires rows { AllByRecursion (λ row. IsWithin (span_of row_part row) (length files.now))
        rows.now }
    ensures { (row : EdgeRow) × (slice_get rows.now edge ≡ Some row)
        × (result.now ≡ within files.now (span_of row_part row)) }
{
    let span = span_of(rows.row(edge), row_part);
    part(files, span.start, span.end)
}

// Where this part of an edge is.
fn span_of(row: EdgeRow, row_part: RowPart) -> Span
    requires { (span_of row_part row).end < 2 ^ 64 }
    ensures { result ≡ span_of row_part row }
{
    match row_part {
        RowPart::Inputs => row.inputs,
        RowPart::CountedInputs => counted_inputs(row),
        RowPart::Outputs => row.outputs,
        RowPart::Validations => row.validations,
    }
}

// Where the explicit and the implicit inputs of an edge are.
fn counted_inputs(row: EdgeRow) -> Span
    requires { row.inputs.start + row.kinds.implicit_inputs < 2 ^ 64 }
    ensures { result ≡ span_of RowPart.CountedInputs row }
{
    Span {
        start: row.inputs.start,
        end: row.inputs.start + row.kinds.implicit_inputs,
    }
}

// Counts an edge among the users of the given files.
fn count_uses(
    counts: &mut [u32],
    marks: &mut [u32],
    files: &[FileNo],
    edge: u32,
) -> Result<(), AllocError>
    requires files { AreNumbers (length counts.old) files.now }
    requires marks { length marks.old ≡ length counts.old }
    requires fits { edge + 1 < 2 ^ 32 }
    ensures { OnOk result ((uses : ℕ → List ℕ)
        → AreCounted counts.old marks.old uses
        → AreCounted counts.new marks.new (plus_uses files.now edge uses)) }
{
    'files: for file in files {
        count_use(counts, marks, *file, edge)?;
    }
    Ok(())
}

// Counts an edge among the users of a file, once.
fn count_use(
    counts: &mut [u32],
    marks: &mut [u32],
    file: FileNo,
    edge: u32,
) -> Result<(), AllocError>
    requires file { file.0 < length counts.old }
    requires marks { length marks.old ≡ length counts.old }
    requires fits { edge + 1 < 2 ^ 32 }
    ensures { OnOk result ((uses : ℕ → List ℕ)
        → AreCounted counts.old marks.old uses
        → AreCounted counts.new marks.new (plus_use file.0 edge uses)) }
{
    if mark(marks, file, edge) {
        return Ok(());
    }
    counts[file.0] = counts[file.0].checked_add(1).ok_or(AllocError)?;
    Ok(())
}

// Marks a file with an edge that uses it. Returns whether it had that mark already. A mark is one
// more than the number of an edge, and 0 is not an edge.
fn mark(marks: &mut [u32], file: FileNo, edge: u32) -> bool
    requires file { file.0 < length marks.old }
    requires fits { edge + 1 < 2 ^ 32 }
    ensures known { (uses : ℕ → List ℕ) → AreMarks marks.old uses
        → result ≡ starts_with edge (uses file.0) }
    ensures marks { (uses : ℕ → List ℕ) → AreMarks marks.old uses
        → AreMarks marks.new (plus_use file.0 edge uses) }
{
    let known = marks[file.0] == edge + 1;
    marks[file.0] = edge + 1;
    known
}

// Replaces each count by the sum of the counts up to it, and returns the sum of all.
fn add_up(counts: &mut [u32]) -> Result<u32, AllocError>
    ensures ends { OnOk result ((uses : ℕ → List ℕ) → AreCounts counts.old uses
        → AreEnds counts.new uses) }
    ensures sum { IfOk result (λ sum. (uses : ℕ → List ℕ) → AreCounts counts.old uses
        → sum ≡ users_before uses (length counts.old)) }
{
    let mut sum = 0_u32;
    'counts: for count in counts.iter_mut() {
        sum = sum.checked_add(*count).ok_or(AllocError)?;
        *count = sum;
    }
    Ok(sum)
}

// Puts the users of each file in front of its end, which thus becomes its start: edges are visited
// from last to first.
fn placed_users(
    alloc: Global,
    places: &mut [u32],
    user_count: u32,
    files: &[FileNo],
    rows: &Rows,
    row_part: RowPart,
) -> Result<Vec<EdgeNo>, AllocError>
    requires files { AreNumbers (length places.old) files.now }
    requires rows { AllByRecursion (λ row. IsWithin (span_of row_part row) (length files.now))
        rows.now }
    requires ends { AreEnds places.old (using_edges files.now row_part 0 rows.now) }
    requires sum { user_count ≡ users_before (using_edges files.now row_part 0 rows.now)
        (length places.old) }
    ensures { IfOk result (λ edges. AreParts places.new (numbers_of edges.items)
        (using_edges files.now row_part 0 rows.now)) }
{
    let mut marks = vec![in alloc; 0_u32; places.len()]?;
    let mut edges = vec![in alloc; EdgeNo(0); user_count as usize]?;
    let mut edge = row_count(rows)?;
    'rows: while edge > 0 {
        edge -= 1;
        let edge_files = files_of(files, rows, row_part, edge as usize);
        place_uses(places, &mut marks, &mut edges, edge_files, edge);
    }
    Ok(edges)
}

// Puts an edge in front of the users of each given file.
fn place_uses(
    places: &mut [u32],
    marks: &mut [u32],
    edges: &mut [EdgeNo],
    files: &[FileNo],
    edge: u32,
)
    requires files { AreNumbers (length places.old) files.now }
    requires marks { length marks.old ≡ length places.old }
    requires fits { edge + 1 < 2 ^ 32 }
    requires capacity { (all uses : ℕ → List ℕ)
        × ArePlaced all uses places.old marks.old edges.old
        × HaveCapacity all (plus_uses files.now edge uses) }
    ensures { (all uses : ℕ → List ℕ)
        → ArePlaced all uses places.old marks.old edges.old
        → HaveCapacity all (plus_uses files.now edge uses)
        → ArePlaced all (plus_uses files.now edge uses) places.new marks.new edges.new }
{
    'files: for file in files {
        place_use(places, marks, edges, *file, edge);
    }
}

// Puts an edge in front of the users of a file, once.
fn place_use(places: &mut [u32], marks: &mut [u32], edges: &mut [EdgeNo], file: FileNo, edge: u32)
    requires file { file.0 < length places.old }
    requires marks { length marks.old ≡ length places.old }
    requires fits { edge + 1 < 2 ^ 32 }
    requires capacity { (all uses : ℕ → List ℕ)
        × ArePlaced all uses places.old marks.old edges.old
        × HaveCapacity all (plus_use file.0 edge uses) }
    ensures { (all uses : ℕ → List ℕ)
        → ArePlaced all uses places.old marks.old edges.old
        → HaveCapacity all (plus_use file.0 edge uses)
        → ArePlaced all (plus_use file.0 edge uses) places.new marks.new edges.new }
{
    if mark(marks, file, edge) {
        return;
    }
    let place = places[file.0] - 1;
    places[file.0] = place;
    edges[place as usize] = EdgeNo(edge as usize);
}
