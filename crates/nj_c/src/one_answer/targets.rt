//! Targets, and the files from which the manifest is made.

ghost use Rattle.std.specs.Prelude.{◌≡◌};
ghost use Rattle.nj_c.specs.Cited.{IfStated, InMemory, SameAnswer};

use super::graphs::graph_is_sound;
use crate::made_from::nx_made_from;
use crate::picked_targets::nx_pick_target;
use crate::session::Session;
use std::alloc::Global;

/// `nx_made_from`. For a graph of statements. Free: whether memory lacks.
pub fn made_from_twice(
    alloc: Global,
    one: &mut Session,
    other: &mut Session,
    files: &[usize],
    flags: &mut [i32],
    flags_other: &mut [i32],
) -> (i32, i32)
    requires kept { one.old.kept ≡ other.old.kept }
    requires flags { flags.old ≡ flags_other.old }
    ensures same { IfStated one.old.kept (InMemory result.0 result.1 ((result.0 ≡ result.1)
        × (flags.new ≡ flags_other.new))) }
    ensures kept { one.new.kept ≡ other.new.kept }
{
    (
        nx_made_from(alloc, one, files, flags),
        nx_made_from(alloc, other, files, flags_other),
    )
}

/// `nx_pick_target`. Free: whether memory lacks; the number where the status is not done.
pub fn pick_target_twice(
    alloc: Global,
    one: &mut Session,
    other: &mut Session,
    word: &[u8],
    file: &mut usize,
    file_other: &mut usize,
) -> (i32, i32)
    requires { one.old.kept ≡ other.old.kept }
    ensures { InMemory result.0 result.1 (SameAnswer result.0 result.1 (file.new ≡ file_other.new)
        × (one.new.kept ≡ other.new.kept)) }
{
    graph_is_sound(alloc, one);
    (
        nx_pick_target(alloc, one, word, file),
        nx_pick_target(alloc, other, word, file_other),
    )
}
