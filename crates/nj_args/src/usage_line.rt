//! The line that reports why arguments are not a valid request.

ghost use Rattle.std.specs.Prelude.{◌≡◌, IfOk};
ghost use Rattle.nj_args.specs.Cited.{fault_line};

use crate::usage_fault::UsageFault;
use std::alloc::{AllocError, Global};

impl UsageFault {
    /// The line that reports the fault, without a line end: `ninja-explain: TEXT`. Arguments are
    /// written verbatim.
    ///
    /// # Errors
    ///
    /// An allocation failed.
    pub fn line(&self, alloc: Global) -> Result<Vec<u8>, AllocError>
        ensures { IfOk result (λ line. line.items ≡ fault_line self.now) }
    {
        let line = format!(in alloc; "ninja-explain: {self}")?;
        Ok(line.into_bytes())
    }
}
