//! Which depths of pools are accepted.

ghost use Rattle.std.specs.Prelude.{◌≡◌};
ghost use Rattle.nj_scope.specs.Cited.{is_depth};

use nj_text::leading_number;

/// Whether an expanded text is the depth of a pool: it begins with a digit, and the number that its
/// first digits make is at most 2147483647. The rest after the digits is ignored ("Pools" in the
/// Ninja manual).
pub fn is_depth(text: &[u8]) -> bool
    ensures { result ≡ is_depth text.now }
{
    match leading_number(text) {
        Some(depth) => depth <= 2_147_483_647,
        None => false,
    }
}
