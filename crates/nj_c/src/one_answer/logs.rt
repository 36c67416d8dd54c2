//! Deps logs, and inputs that builds discovered.

ghost use Rattle.std.specs.Prelude.{◌≡◌};
ghost use Rattle.nj_c.specs.Cited.{Equal, IfStated, InMemory, SameAnswer, SameBuffer, SameChange, SameGraph};

use super::graphs::graph_is_sound;
use crate::deps_logs::{nx_join_deps, nx_log_read};
use crate::discovered_inputs::{nx_is_unknown, nx_join_discovered};
use crate::session::Session;
use crate::undeclared_inputs::{EdgeInput, nx_undeclared};
use std::alloc::Global;

/// `nx_is_unknown`. Free: the number where the status is not done.
pub fn is_unknown_twice(
    alloc: Global,
    one: &mut Session,
    other: &mut Session,
    edge: usize,
    unknown: &mut i32,
    unknown_other: &mut i32,
) -> (i32, i32)
    requires { one.old.kept ≡ other.old.kept }
    ensures same { SameAnswer result.0 result.1 (unknown.new ≡ unknown_other.new) }
    ensures kept { one.new.kept ≡ other.new.kept }
{
    (
        nx_is_unknown(alloc, one, edge, unknown),
        nx_is_unknown(alloc, other, edge, unknown_other),
    )
}

/// `nx_join_deps`. For a graph of statements. Free: whether memory lacks; the numbers of files that
/// the log adds.
pub fn join_deps_twice(
    alloc: Global,
    one: &mut Session,
    other: &mut Session,
    log: &[u8],
) -> (i32, i32)
    requires { one.old.kept ≡ other.old.kept }
    ensures { IfStated one.old.kept (SameChange SameGraph Equal result.0 result.1 one.new.kept
        other.new.kept) }
{
    (
        nx_join_deps(alloc, one, log),
        nx_join_deps(alloc, other, log),
    )
}

/// `nx_join_discovered`. For a graph of statements. Free: whether memory lacks; the numbers of files
/// that are discovered; the room of the lists.
pub fn join_discovered_twice(
    alloc: Global,
    one: &mut Session,
    other: &mut Session,
    log: &[u8],
    times: &[u64],
) -> (i32, i32)
    requires { one.old.kept ≡ other.old.kept }
    ensures { IfStated one.old.kept (SameChange SameGraph Equal result.0 result.1 one.new.kept
        other.new.kept) }
{
    graph_is_sound(alloc, one);
    (
        nx_join_discovered(alloc, one, log, times),
        nx_join_discovered(alloc, other, log, times),
    )
}

/// `nx_log_read`. Free: the numbers where the status is not done.
pub fn log_read_twice(
    alloc: Global,
    one: &mut Session,
    other: &mut Session,
    size: &mut usize,
    size_other: &mut usize,
    is_whole: &mut i32,
    is_whole_other: &mut i32,
) -> (i32, i32)
    requires { one.old.kept ≡ other.old.kept }
    ensures same { SameAnswer result.0 result.1 ((size.new ≡ size_other.new) × (is_whole.new ≡
        is_whole_other.new)) }
    ensures kept { one.new.kept ≡ other.new.kept }
{
    (
        nx_log_read(alloc, one, size, is_whole),
        nx_log_read(alloc, other, size_other, is_whole_other),
    )
}

/// `nx_undeclared`. For a graph of statements. Free: whether memory lacks; the number of inputs
/// where the status is not done.
pub fn undeclared_twice(
    alloc: Global,
    one: &mut Session,
    other: &mut Session,
    log: &[u8],
    inputs: &mut [EdgeInput],
    inputs_other: &mut [EdgeInput],
    count: &mut usize,
    count_other: &mut usize,
) -> (i32, i32)
    requires kept { one.old.kept ≡ other.old.kept }
    requires inputs { inputs.old ≡ inputs_other.old }
    ensures same { IfStated one.old.kept (InMemory result.0 result.1 (SameBuffer result.0 result.1
        inputs.new inputs_other.new count.new count_other.new)) }
    ensures kept { one.new.kept ≡ other.new.kept }
{
    graph_is_sound(alloc, one);
    (
        nx_undeclared(alloc, one, log, inputs, count),
        nx_undeclared(alloc, other, log, inputs_other, count_other),
    )
}
