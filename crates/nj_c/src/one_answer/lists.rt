//! Lists of the graph, of the load and of what was requested last.

ghost use Rattle.std.specs.Prelude.{◌≡◌};
ghost use Rattle.nj_c.specs.Cited.{SameAnswer, SameBuffer};

use super::graphs::graph_is_sound;
use crate::loads::nx_wanted;
use crate::opened_files::nx_opened;
use crate::pages::{nx_found, nx_page_mark};
use crate::rule_and_target_lists::{nx_default, nx_root, nx_rule_name_at};
use crate::session::Session;
use std::alloc::Global;

/// `nx_default`. Free: the number where the status is not done.
pub fn default_twice(
    alloc: Global,
    one: &mut Session,
    other: &mut Session,
    index: usize,
    file: &mut usize,
    file_other: &mut usize,
) -> (i32, i32)
    requires { one.old.kept ≡ other.old.kept }
    ensures same { SameAnswer result.0 result.1 (file.new ≡ file_other.new) }
    ensures kept { one.new.kept ≡ other.new.kept }
{
    graph_is_sound(alloc, one);
    (
        nx_default(alloc, one, index, file),
        nx_default(alloc, other, index, file_other),
    )
}

/// `nx_found`. Free: the number where the status is not done.
pub fn found_twice(
    alloc: Global,
    one: &mut Session,
    other: &mut Session,
    index: usize,
    edge: &mut usize,
    edge_other: &mut usize,
) -> (i32, i32)
    requires { one.old.kept ≡ other.old.kept }
    ensures same { SameAnswer result.0 result.1 (edge.new ≡ edge_other.new) }
    ensures kept { one.new.kept ≡ other.new.kept }
{
    (
        nx_found(alloc, one, index, edge),
        nx_found(alloc, other, index, edge_other),
    )
}

/// `nx_opened`. Free: the length where the status is neither done nor short.
pub fn opened_twice(
    alloc: Global,
    one: &mut Session,
    other: &mut Session,
    index: usize,
    buffer: &mut [u8],
    buffer_other: &mut [u8],
    needed: &mut usize,
    needed_other: &mut usize,
) -> (i32, i32)
    requires kept { one.old.kept ≡ other.old.kept }
    requires buffer { buffer.old ≡ buffer_other.old }
    ensures same { SameBuffer result.0 result.1 buffer.new buffer_other.new needed.new
        needed_other.new }
    ensures kept { one.new.kept ≡ other.new.kept }
{
    (
        nx_opened(alloc, one, index, buffer, needed),
        nx_opened(alloc, other, index, buffer_other, needed_other),
    )
}

/// `nx_page_mark`. Free: the length where the status is neither done nor short.
pub fn page_mark_twice(
    alloc: Global,
    one: &mut Session,
    other: &mut Session,
    buffer: &mut [u8],
    buffer_other: &mut [u8],
    needed: &mut usize,
    needed_other: &mut usize,
) -> (i32, i32)
    requires kept { one.old.kept ≡ other.old.kept }
    requires buffer { buffer.old ≡ buffer_other.old }
    ensures same { SameBuffer result.0 result.1 buffer.new buffer_other.new needed.new
        needed_other.new }
    ensures kept { one.new.kept ≡ other.new.kept }
{
    (
        nx_page_mark(alloc, one, buffer, needed),
        nx_page_mark(alloc, other, buffer_other, needed_other),
    )
}

/// `nx_root`. Free: the number where the status is not done.
pub fn root_twice(
    alloc: Global,
    one: &mut Session,
    other: &mut Session,
    index: usize,
    file: &mut usize,
    file_other: &mut usize,
) -> (i32, i32)
    requires { one.old.kept ≡ other.old.kept }
    ensures same { SameAnswer result.0 result.1 (file.new ≡ file_other.new) }
    ensures kept { one.new.kept ≡ other.new.kept }
{
    graph_is_sound(alloc, one);
    (
        nx_root(alloc, one, index, file),
        nx_root(alloc, other, index, file_other),
    )
}

/// `nx_rule_name_at`. Free: the length where the status is neither done nor short.
pub fn rule_name_at_twice(
    alloc: Global,
    one: &mut Session,
    other: &mut Session,
    index: usize,
    buffer: &mut [u8],
    buffer_other: &mut [u8],
    needed: &mut usize,
    needed_other: &mut usize,
) -> (i32, i32)
    requires kept { one.old.kept ≡ other.old.kept }
    requires buffer { buffer.old ≡ buffer_other.old }
    ensures same { SameBuffer result.0 result.1 buffer.new buffer_other.new needed.new
        needed_other.new }
    ensures kept { one.new.kept ≡ other.new.kept }
{
    (
        nx_rule_name_at(alloc, one, index, buffer, needed),
        nx_rule_name_at(alloc, other, index, buffer_other, needed_other),
    )
}

/// `nx_wanted`. Free: the length where the status is neither done nor short.
pub fn wanted_twice(
    alloc: Global,
    one: &mut Session,
    other: &mut Session,
    index: usize,
    buffer: &mut [u8],
    buffer_other: &mut [u8],
    needed: &mut usize,
    needed_other: &mut usize,
) -> (i32, i32)
    requires kept { one.old.kept ≡ other.old.kept }
    requires buffer { buffer.old ≡ buffer_other.old }
    ensures same { SameBuffer result.0 result.1 buffer.new buffer_other.new needed.new
        needed_other.new }
    ensures kept { one.new.kept ≡ other.new.kept }
{
    (
        nx_wanted(alloc, one, index, buffer, needed),
        nx_wanted(alloc, other, index, buffer_other, needed_other),
    )
}
