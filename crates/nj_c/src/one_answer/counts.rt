//! How many edges, files and rules there are.

ghost use Rattle.std.specs.Prelude.{◌≡◌};
ghost use Rattle.nj_c.specs.Cited.{SameAnswer};

use crate::counts::{nx_edge_count, nx_file_count, nx_rule_count};
use crate::session::Session;
use std::alloc::Global;

/// `nx_edge_count`. Free: the number where the status is not done.
pub fn edge_count_twice(
    alloc: Global,
    one: &mut Session,
    other: &mut Session,
    count: &mut usize,
    count_other: &mut usize,
) -> (i32, i32)
    requires { one.old.kept ≡ other.old.kept }
    ensures same { SameAnswer result.0 result.1 (count.new ≡ count_other.new) }
    ensures kept { one.new.kept ≡ other.new.kept }
{
    (
        nx_edge_count(alloc, one, count),
        nx_edge_count(alloc, other, count_other),
    )
}

/// `nx_file_count`. Free: the number where the status is not done.
pub fn file_count_twice(
    alloc: Global,
    one: &mut Session,
    other: &mut Session,
    count: &mut usize,
    count_other: &mut usize,
) -> (i32, i32)
    requires { one.old.kept ≡ other.old.kept }
    ensures same { SameAnswer result.0 result.1 (count.new ≡ count_other.new) }
    ensures kept { one.new.kept ≡ other.new.kept }
{
    (
        nx_file_count(alloc, one, count),
        nx_file_count(alloc, other, count_other),
    )
}

/// `nx_rule_count`. Free: the number where the status is not done.
pub fn rule_count_twice(
    alloc: Global,
    one: &mut Session,
    other: &mut Session,
    count: &mut usize,
    count_other: &mut usize,
) -> (i32, i32)
    requires { one.old.kept ≡ other.old.kept }
    ensures same { SameAnswer result.0 result.1 (count.new ≡ count_other.new) }
    ensures kept { one.new.kept ≡ other.new.kept }
{
    (
        nx_rule_count(alloc, one, count),
        nx_rule_count(alloc, other, count_other),
    )
}
