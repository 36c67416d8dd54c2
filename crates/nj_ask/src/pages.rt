//! Pages of keys.

ghost use Rattle.std.specs.Prelude.{◌≡◌, IfOk, option_copied};
ghost use Rattle.nj_ask.specs.Cited.{mark_line};

use nj_needs::Mark;
use std::alloc::{AllocError, Global};

/// The line that names a mark; empty without a mark.
pub(crate) fn mark_line(alloc: Global, mark: Option<&Mark>) -> Result<Vec<u8>, AllocError>
    ensures { IfOk result (λ line. line.items ≡ mark_line (option_copied mark.entry)) }
{
    let mut line = Vec::new(alloc);
    if let Some(mark) = mark {
        line.extend_from_slice(b"mark ")?;
        line.extend_from_slice(mark.to_text(alloc)?.as_bytes())?;
        line.push(b'\n')?;
    }
    Ok(line)
}
