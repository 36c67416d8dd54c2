//! The hash of a command.

ghost use Rattle.std.specs.Prelude.{◌≡◌};
ghost use Rattle.nj_build_log.specs.Cited.{command_hash};

use crate::hashed_text::HashedText;
use crate::log_version::LogVersion;
use crate::murmur64::murmur;
use crate::rapidhash::rapid;

/// Returns the hash that a build log of the given version has for a command and the contents of its
/// response file, which are empty without a response file. Both texts are expanded.
pub fn command_hash(version: LogVersion, command: &[u8], rspfile_content: &[u8]) -> u64
    ensures { result ≡ command_hash version command.now rspfile_content.now }
{
    let text = HashedText::new(command, rspfile_content);
    match version {
        LogVersion::Five | LogVersion::Six => murmur(&text),
        LogVersion::Seven => rapid(&text),
    }
}
