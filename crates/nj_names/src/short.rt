//! Numbers in 32 bits, as tables keep them.

ghost use Rattle.std.specs.Prelude.{◌≡◌, ◌^◌, is_ok, nat_lt, IfOk};

use std::alloc::AllocError;

/// A number in 32 bits. A number that does not fit is refused as if memory had run out.
pub fn short_number(number: usize) -> Result<u32, AllocError>
    ensures short { IfOk result (λ short. short ≡ number) }
    ensures fits { is_ok result ≡ nat_lt number (2 ^ 32) }
{
    match u32::try_from(number) {
        Ok(short) => Ok(short),
        Err(_) => Err(AllocError),
    }
}
