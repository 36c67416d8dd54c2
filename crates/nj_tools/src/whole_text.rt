//! Writing a whole text.

ghost use Rattle.nj_tools.specs.Cited.{Writes};

use crate::sinks::{Sink, SinkFault};

/// Writes the whole text to the sink. Stops at the first `put` that accepts nothing; for an empty
/// text `put` is not called.
pub fn write_whole<S: Sink>(sink: &mut S, text: &[u8]) -> Result<(), SinkFault>
    ensures { Writes (S.state sink.old) (S.state sink.new) text.now result }
{
    let mut rest = text;
    'puts: while !rest.is_empty() {
        let count = sink.put(rest)?;
        if count == 0 {
            return Err(SinkFault);
        }
        rest = &rest[count..];
    }
    Ok(())
}
