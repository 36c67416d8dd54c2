//! Large values at the exits of a function.

ghost use Rattle.std.specs.Prelude.{◌≡◌, Ok, Err, IfErr, IfOk};

/// A value with what a call returned. If the call failed, the value is dropped here, where its type is
/// a parameter: the proof that a function may drop a graph takes a minute for each of its exits.
pub(crate) fn keep_if_ok<T: Drop, U, E>(value: T, outcome: Result<U, E>) -> Result<(T, U), E>
    ensures kept { IfOk result (λ kept. (kept.0 ≡ value) × (outcome ≡ Ok kept.1)) }
    ensures failed { IfErr result (λ error. outcome ≡ Err error) }
{
    match outcome {
        Ok(found) => Ok((value, found)),
        Err(error) => Err(error),
    }
}
