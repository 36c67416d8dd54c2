//! Loads.

ghost use Rattle.std.specs.Prelude.{◌≡◌};
ghost use Rattle.nj_c.specs.Cited.{Equal, SameChange, SameGraph};

use crate::loads::nx_load;
use crate::session::Session;
use std::alloc::Global;

/// `nx_load`. Free: whether memory lacks; the numbers of files; what scopes without a statement lie
/// in; the room of the lists.
pub fn load_twice(
    alloc: Global,
    one: &mut Session,
    other: &mut Session,
    main: &[u8],
    joins_dyndeps: u32,
) -> (i32, i32)
    requires { one.old.kept ≡ other.old.kept }
    ensures { SameChange SameGraph Equal result.0 result.1 one.new.kept other.new.kept }
{
    (
        nx_load(alloc, one, main, joins_dyndeps),
        nx_load(alloc, other, main, joins_dyndeps),
    )
}
