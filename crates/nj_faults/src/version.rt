//! The version of Ninja whose files are read.

ghost use Rattle.std.specs.Prelude.{◌≡◌};
ghost use Rattle.nj_faults.specs.Cited.{is_newer};

use nj_text::version_of;

// Its major and its minor number.
const READER_VERSION: (u64, u64) = (1, 12);

/// The text of a fault for a newer version.
pub(crate) const IS_NEWER: &str = " is newer than 1.12";

/// Whether a file that requires the given version of Ninja is for a version newer than 1.12, by
/// major and minor number ("Version requirements" in the Ninja manual).
pub fn is_newer(text: &[u8]) -> bool
    ensures { result ≡ is_newer text.now }
{
    let (major, minor) = version_of(text);
    let (reader_major, reader_minor) = READER_VERSION;
    major > reader_major || (major == reader_major && minor > reader_minor)
}
