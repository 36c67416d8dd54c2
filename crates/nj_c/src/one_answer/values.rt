//! The values of variables for edges.

ghost use Rattle.std.specs.Prelude.{◌≡◌};
ghost use Rattle.nj_c.specs.Cited.{IfStated, InMemory, SameBuffer};

use crate::session::Session;
use crate::values::{nx_command, nx_variable};
use std::alloc::Global;

/// `nx_command`. For a graph of statements. Free: whether memory lacks; the length where the status
/// is neither done nor short.
pub fn command_twice(
    alloc: Global,
    one: &mut Session,
    other: &mut Session,
    edge: usize,
    buffer: &mut [u8],
    buffer_other: &mut [u8],
    needed: &mut usize,
    needed_other: &mut usize,
) -> (i32, i32)
    requires kept { one.old.kept ≡ other.old.kept }
    requires buffer { buffer.old ≡ buffer_other.old }
    ensures same { IfStated one.old.kept (InMemory result.0 result.1 (SameBuffer result.0 result.1
        buffer.new buffer_other.new needed.new needed_other.new)) }
    ensures kept { one.new.kept ≡ other.new.kept }
{
    (
        nx_command(alloc, one, edge, buffer, needed),
        nx_command(alloc, other, edge, buffer_other, needed_other),
    )
}

/// `nx_variable`. For a graph of statements. Free: whether memory lacks; the length where the
/// status is neither done nor short.
pub fn variable_twice(
    alloc: Global,
    one: &mut Session,
    other: &mut Session,
    edge: usize,
    name: &[u8],
    buffer: &mut [u8],
    buffer_other: &mut [u8],
    needed: &mut usize,
    needed_other: &mut usize,
) -> (i32, i32)
    requires kept { one.old.kept ≡ other.old.kept }
    requires buffer { buffer.old ≡ buffer_other.old }
    ensures same { IfStated one.old.kept (InMemory result.0 result.1 (SameBuffer result.0 result.1
        buffer.new buffer_other.new needed.new needed_other.new)) }
    ensures kept { one.new.kept ≡ other.new.kept }
{
    (
        nx_variable(alloc, one, edge, name, buffer, needed),
        nx_variable(alloc, other, edge, name, buffer_other, needed_other),
    )
}
