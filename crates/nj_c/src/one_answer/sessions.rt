//! Sessions, the files that are supplied, and the version of the interface.

ghost use Rattle.std.specs.Prelude.{◌≡◌};
ghost use Rattle.nj_c.specs.Cited.{Equal, SameChange};

use crate::session::Session;
use crate::sessions::{nx_add_absent, nx_add_file, nx_close, nx_open, nx_version};
use std::alloc::Global;

/// `nx_add_absent`. Free: whether memory lacks; the order in which the paths are kept.
pub fn add_absent_twice(
    alloc: Global,
    one: &mut Session,
    other: &mut Session,
    path: &[u8],
) -> (i32, i32)
    requires { one.old.kept ≡ other.old.kept }
    ensures { SameChange Equal Equal result.0 result.1 one.new.kept other.new.kept }
{
    (
        nx_add_absent(alloc, one, path),
        nx_add_absent(alloc, other, path),
    )
}

/// `nx_add_file`. Free: whether memory lacks; the order in which the paths are kept.
pub fn add_file_twice(
    alloc: Global,
    one: &mut Session,
    other: &mut Session,
    path: &[u8],
    bytes: &[u8],
) -> (i32, i32)
    requires { one.old.kept ≡ other.old.kept }
    ensures { SameChange Equal Equal result.0 result.1 one.new.kept other.new.kept }
{
    (
        nx_add_file(alloc, one, path, bytes),
        nx_add_file(alloc, other, path, bytes),
    )
}

/// `nx_close`. Nothing is free.
pub fn close_twice(alloc: Global, one: &mut Session, other: &mut Session) -> (i32, i32)
    ensures same { result.0 ≡ result.1 }
    ensures kept { one.new.kept ≡ other.new.kept }
{
    (nx_close(alloc, one), nx_close(alloc, other))
}

/// `nx_open`. With any keys, and whatever the sessions kept before. Free: whether memory lacks; the
/// room of the lists.
pub fn open_twice(
    alloc: Global,
    one: &mut Session,
    other: &mut Session,
    key: u64,
    key_other: u64,
) -> (i32, i32)
    ensures { SameChange Equal Equal result.0 result.1 one.new.kept other.new.kept }
{
    (nx_open(alloc, one, key), nx_open(alloc, other, key_other))
}

/// `nx_version`. Nothing is free.
pub fn version_twice(
    major: &mut usize,
    major_other: &mut usize,
    minor: &mut usize,
    minor_other: &mut usize,
) -> (i32, i32)
    ensures status { result.0 ≡ result.1 }
    ensures same { (major.new ≡ major_other.new) × (minor.new ≡ minor_other.new) }
{
    (
        nx_version(major, minor),
        nx_version(major_other, minor_other),
    )
}
