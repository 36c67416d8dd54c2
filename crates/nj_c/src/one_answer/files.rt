//! Paths, and the edges that make or use files.

ghost use Rattle.std.specs.Prelude.{◌≡◌};
ghost use Rattle.nj_c.specs.Cited.{SameAnswer, SameBuffer};

use crate::bulk::nx_users;
use crate::files::{nx_file_named, nx_maker, nx_path, nx_user, nx_validation_user};
use crate::session::Session;
use std::alloc::Global;

/// `nx_file_named`. Free: the number where the status is not done.
pub fn file_named_twice(
    alloc: Global,
    one: &mut Session,
    other: &mut Session,
    path: &[u8],
    file: &mut usize,
    file_other: &mut usize,
) -> (i32, i32)
    requires { one.old.kept ≡ other.old.kept }
    ensures same { SameAnswer result.0 result.1 (file.new ≡ file_other.new) }
    ensures kept { one.new.kept ≡ other.new.kept }
{
    (
        nx_file_named(alloc, one, path, file),
        nx_file_named(alloc, other, path, file_other),
    )
}

/// `nx_maker`. Free: the number where the status is not done.
pub fn maker_twice(
    alloc: Global,
    one: &mut Session,
    other: &mut Session,
    file: usize,
    edge: &mut usize,
    edge_other: &mut usize,
) -> (i32, i32)
    requires { one.old.kept ≡ other.old.kept }
    ensures same { SameAnswer result.0 result.1 (edge.new ≡ edge_other.new) }
    ensures kept { one.new.kept ≡ other.new.kept }
{
    (
        nx_maker(alloc, one, file, edge),
        nx_maker(alloc, other, file, edge_other),
    )
}

/// `nx_path`. Free: the length where the status is neither done nor short.
pub fn path_twice(
    alloc: Global,
    one: &mut Session,
    other: &mut Session,
    file: usize,
    buffer: &mut [u8],
    buffer_other: &mut [u8],
    needed: &mut usize,
    needed_other: &mut usize,
) -> (i32, i32)
    requires kept { one.old.kept ≡ other.old.kept }
    requires buffer { buffer.old ≡ buffer_other.old }
    ensures same { SameBuffer result.0 result.1 buffer.new buffer_other.new needed.new
        needed_other.new }
    ensures kept { one.new.kept ≡ other.new.kept }
{
    (
        nx_path(alloc, one, file, buffer, needed),
        nx_path(alloc, other, file, buffer_other, needed_other),
    )
}

/// `nx_user`. Free: the number where the status is not done.
pub fn user_twice(
    alloc: Global,
    one: &mut Session,
    other: &mut Session,
    file: usize,
    index: usize,
    edge: &mut usize,
    edge_other: &mut usize,
) -> (i32, i32)
    requires { one.old.kept ≡ other.old.kept }
    ensures same { SameAnswer result.0 result.1 (edge.new ≡ edge_other.new) }
    ensures kept { one.new.kept ≡ other.new.kept }
{
    (
        nx_user(alloc, one, file, index, edge),
        nx_user(alloc, other, file, index, edge_other),
    )
}

/// `nx_users`. Free: the number of users where the status is not done.
pub fn users_twice(
    alloc: Global,
    one: &mut Session,
    other: &mut Session,
    file: usize,
    from: usize,
    edges: &mut [usize],
    edges_other: &mut [usize],
    count: &mut usize,
    count_other: &mut usize,
) -> (i32, i32)
    requires kept { one.old.kept ≡ other.old.kept }
    requires edges { edges.old ≡ edges_other.old }
    ensures same { SameBuffer result.0 result.1 edges.new edges_other.new count.new
        count_other.new }
    ensures kept { one.new.kept ≡ other.new.kept }
{
    (
        nx_users(alloc, one, file, from, edges, count),
        nx_users(alloc, other, file, from, edges_other, count_other),
    )
}

/// `nx_validation_user`. Free: the number where the status is not done.
pub fn validation_user_twice(
    alloc: Global,
    one: &mut Session,
    other: &mut Session,
    file: usize,
    index: usize,
    edge: &mut usize,
    edge_other: &mut usize,
) -> (i32, i32)
    requires { one.old.kept ≡ other.old.kept }
    ensures same { SameAnswer result.0 result.1 (edge.new ≡ edge_other.new) }
    ensures kept { one.new.kept ≡ other.new.kept }
{
    (
        nx_validation_user(alloc, one, file, index, edge),
        nx_validation_user(alloc, other, file, index, edge_other),
    )
}
