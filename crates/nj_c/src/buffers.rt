//! Texts, copied into the caller's buffers.

ghost use Rattle.std.specs.Prelude.{◌≡◌};
ghost use Rattle.nj_c.specs.Cited.{GivesText, KeptUnlessDone, code_of};

use crate::status::Status;

/// Copies a text to the front of a buffer if it fits, and stores its length.
pub(crate) fn copy_text(text: &[u8], buffer: &mut [u8], needed: &mut usize) -> Status
    ensures gives { GivesText text.now buffer.old buffer.new needed.new (code_of result) }
    ensures buffer { KeptUnlessDone buffer.old buffer.new (code_of result) }
{
    *needed = text.len();
    if text.len() > buffer.len() {
        return Status::Short;
    }
    buffer[..text.len()].copy_from_slice(text);
    Status::Done
}
