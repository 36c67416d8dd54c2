//! The last fault of a session.

ghost use Rattle.std.specs.Prelude.{◌≡◌};
ghost use Rattle.nj_c.specs.Cited.{InMemory, SameAnswer, SameBuffer};

use crate::faults::{nx_fault_file, nx_fault_kind, nx_fault_line, nx_fault_place};
use crate::session::Session;
use std::alloc::Global;

/// `nx_fault_file`. Free: the length where the status is neither done nor short.
pub fn fault_file_twice(
    alloc: Global,
    one: &mut Session,
    other: &mut Session,
    buffer: &mut [u8],
    buffer_other: &mut [u8],
    needed: &mut usize,
    needed_other: &mut usize,
) -> (i32, i32)
    requires kept { one.old.kept ≡ other.old.kept }
    requires buffer { buffer.old ≡ buffer_other.old }
    ensures same { SameBuffer result.0 result.1 buffer.new buffer_other.new needed.new
        needed_other.new }
    ensures kept { one.new.kept ≡ other.new.kept }
{
    (
        nx_fault_file(alloc, one, buffer, needed),
        nx_fault_file(alloc, other, buffer_other, needed_other),
    )
}

/// `nx_fault_kind`. Free: the number where the status is not done.
pub fn fault_kind_twice(
    alloc: Global,
    one: &mut Session,
    other: &mut Session,
    kind: &mut i32,
    kind_other: &mut i32,
) -> (i32, i32)
    requires { one.old.kept ≡ other.old.kept }
    ensures same { SameAnswer result.0 result.1 (kind.new ≡ kind_other.new) }
    ensures kept { one.new.kept ≡ other.new.kept }
{
    (
        nx_fault_kind(alloc, one, kind),
        nx_fault_kind(alloc, other, kind_other),
    )
}

/// `nx_fault_line`. Free: whether memory lacks; the length where the status is neither done nor
/// short.
pub fn fault_line_twice(
    alloc: Global,
    one: &mut Session,
    other: &mut Session,
    buffer: &mut [u8],
    buffer_other: &mut [u8],
    needed: &mut usize,
    needed_other: &mut usize,
) -> (i32, i32)
    requires kept { one.old.kept ≡ other.old.kept }
    requires buffer { buffer.old ≡ buffer_other.old }
    ensures same { InMemory result.0 result.1 (SameBuffer result.0 result.1 buffer.new
        buffer_other.new needed.new needed_other.new) }
    ensures kept { one.new.kept ≡ other.new.kept }
{
    (
        nx_fault_line(alloc, one, buffer, needed),
        nx_fault_line(alloc, other, buffer_other, needed_other),
    )
}

/// `nx_fault_place`. Free: the numbers where the status is not done.
pub fn fault_place_twice(
    alloc: Global,
    one: &mut Session,
    other: &mut Session,
    line: &mut usize,
    line_other: &mut usize,
    column: &mut usize,
    column_other: &mut usize,
) -> (i32, i32)
    requires { one.old.kept ≡ other.old.kept }
    ensures same { SameAnswer result.0 result.1 ((line.new ≡ line_other.new) × (column.new ≡
        column_other.new)) }
    ensures kept { one.new.kept ≡ other.new.kept }
{
    (
        nx_fault_place(alloc, one, line, column),
        nx_fault_place(alloc, other, line_other, column_other),
    )
}
