//! Lists of edges: those that a change affects or dirties, those that files need, and pages.

ghost use Rattle.std.specs.Prelude.{◌≡◌};
ghost use Rattle.nj_c.specs.Cited.{graph_of, Equal, SameChange, SameNeeded};

use super::graphs::graph_is_sound;
use crate::dirty_edges::nx_dirtied;
use crate::pages::{nx_affected, nx_needed, nx_page};
use crate::session::Session;
use nj_needs::given_marks_are_written;
use std::alloc::Global;

/// `nx_affected`. Free: whether memory lacks; the room of the lists.
pub fn affected_twice(
    alloc: Global,
    one: &mut Session,
    other: &mut Session,
    files: &[usize],
) -> (i32, i32)
    requires { one.old.kept ≡ other.old.kept }
    ensures { SameChange Equal Equal result.0 result.1 one.new.kept other.new.kept }
{
    (
        nx_affected(alloc, one, files),
        nx_affected(alloc, other, files),
    )
}

/// `nx_dirtied`. Free: whether memory lacks; the room of the lists.
pub fn dirtied_twice(
    alloc: Global,
    one: &mut Session,
    other: &mut Session,
    files: &[usize],
) -> (i32, i32)
    requires { one.old.kept ≡ other.old.kept }
    ensures { SameChange Equal Equal result.0 result.1 one.new.kept other.new.kept }
{
    (
        nx_dirtied(alloc, one, files),
        nx_dirtied(alloc, other, files),
    )
}

/// `nx_needed`. Free: whether memory lacks; the room of the lists; the order of edges that are
/// equally far from the files.
pub fn needed_twice(
    alloc: Global,
    one: &mut Session,
    other: &mut Session,
    files: &[usize],
) -> (i32, i32)
    requires { one.old.kept ≡ other.old.kept }
    ensures { SameChange Equal (SameNeeded (graph_of one.old.kept) files.now) result.0 result.1
        one.new.kept other.new.kept }
{
    (nx_needed(alloc, one, files), nx_needed(alloc, other, files))
}

/// `nx_page`. Free: whether memory lacks; the room of the lists.
pub fn page_twice(
    alloc: Global,
    one: &mut Session,
    other: &mut Session,
    targets: &[usize],
    mark: &[u8],
    take: usize,
) -> (i32, i32)
    requires { one.old.kept ≡ other.old.kept }
    ensures { SameChange Equal Equal result.0 result.1 one.new.kept other.new.kept }
{
    given_marks_are_written();
    graph_is_sound(alloc, one);
    (
        nx_page(alloc, one, targets, mark, take),
        nx_page(alloc, other, targets, mark, take),
    )
}
