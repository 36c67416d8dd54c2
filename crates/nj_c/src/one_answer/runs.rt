//! Runs of the program.

ghost use Rattle.std.specs.Prelude.{◌≡◌};
ghost use Rattle.nj_c.specs.Cited.{Equal, InMemory, SameAnswer, SameBuffer, SameContents, SameOptions, UnlessReported};

use crate::program_runs::{nx_run, nx_run_errors, nx_run_output};
use crate::session::Session;
use nj_cli::commands_law;
use std::alloc::Global;

/// `nx_run`. Free: whether memory lacks, by the status, or where standard error has just the line
/// that says so; the exit status where the status is not done.
pub fn run_twice(
    alloc: Global,
    one: &mut Session,
    other: &mut Session,
    words: &[u8],
    exit: &mut i32,
    exit_other: &mut i32,
) -> (i32, i32)
    requires { one.old.kept ≡ other.old.kept }
    ensures { InMemory result.0 result.1 (UnlessReported one.new.kept (UnlessReported other.new.kept
        (SameAnswer result.0 result.1 (exit.new ≡ exit_other.new)
        × SameOptions (SameContents Equal Equal) one.new.kept other.new.kept))) }
{
    commands_law();
    (
        nx_run(alloc, one, words, exit),
        nx_run(alloc, other, words, exit_other),
    )
}

/// `nx_run_errors`. Free: the length where the status is neither done nor short.
pub fn run_errors_twice(
    alloc: Global,
    one: &mut Session,
    other: &mut Session,
    buffer: &mut [u8],
    buffer_other: &mut [u8],
    needed: &mut usize,
    needed_other: &mut usize,
) -> (i32, i32)
    requires kept { one.old.kept ≡ other.old.kept }
    requires buffer { buffer.old ≡ buffer_other.old }
    ensures same { SameBuffer result.0 result.1 buffer.new buffer_other.new needed.new
        needed_other.new }
    ensures kept { one.new.kept ≡ other.new.kept }
{
    (
        nx_run_errors(alloc, one, buffer, needed),
        nx_run_errors(alloc, other, buffer_other, needed_other),
    )
}

/// `nx_run_output`. Free: the length where the status is neither done nor short.
pub fn run_output_twice(
    alloc: Global,
    one: &mut Session,
    other: &mut Session,
    buffer: &mut [u8],
    buffer_other: &mut [u8],
    needed: &mut usize,
    needed_other: &mut usize,
) -> (i32, i32)
    requires kept { one.old.kept ≡ other.old.kept }
    requires buffer { buffer.old ≡ buffer_other.old }
    ensures same { SameBuffer result.0 result.1 buffer.new buffer_other.new needed.new
        needed_other.new }
    ensures kept { one.new.kept ≡ other.new.kept }
{
    (
        nx_run_output(alloc, one, buffer, needed),
        nx_run_output(alloc, other, buffer_other, needed_other),
    )
}
