//! The first line of a build log.

ghost use Rattle.std.specs.Prelude.{◌≡◌, Ok, Err, IfOk, IfErr};
ghost use Rattle.nj_build_log.specs.Cited.{build_log_of, is_decimal_digit, is_number, known_version, list_all, logged_lines, version_number};

use crate::build_log_fault::BuildLogFault;
use crate::lines::split_first_line;
use crate::log_version::LogVersion;
use crate::numbers::leading_value;

/// The first line, up to its number.
const OPENING: &[u8] = b"# ninja log v";

/// Returns the version of a log, or `None` if the log is empty, and the lines after the first.
pub(crate) fn split_version(bytes: &[u8]) -> Result<(Option<LogVersion>, &[u8]), BuildLogFault>
    ensures log { IfOk result (λ p. build_log_of bytes.now
        ≡ Ok (record { version = p.0; lines = logged_lines p.1.now })) }
    ensures fault { IfErr result (λ fault. build_log_of bytes.now ≡ Err fault) }
{
    if bytes.is_empty() {
        return Ok((None, bytes));
    }
    let (line, lines) = split_first_line(bytes);
    let Some(number) = version_number(line) else {
        return Err(BuildLogFault::NoBuildLog);
    };
    match known_version(number) {
        Some(version) => Ok((Some(version), lines)),
        None => Err(BuildLogFault::OtherVersion(number)),
    }
}

// The number of the version that a first line states.
fn version_number(line: &[u8]) -> Option<u64>
    ensures { result ≡ version_number line.now }
{
    if !line.starts_with(OPENING) {
        return None;
    }
    let digits = &line[OPENING.len()..];
    if !is_number(digits) {
        return None;
    }
    Some(leading_value(10, digits).min(u64::MAX as u128) as u64)
}

fn is_number(text: &[u8]) -> bool
    ensures { result ≡ is_number text.now }
{
    !text.is_empty() && has_digits_alone(text)
}

fn has_digits_alone(text: &[u8]) -> bool
    ensures { result ≡ list_all is_decimal_digit text.now }
{
    text.iter().all(|byte| b'0' <= *byte && *byte <= b'9')
}

fn known_version(number: u64) -> Option<LogVersion>
    ensures { result ≡ known_version number }
{
    match number {
        5 => Some(LogVersion::Five),
        6 => Some(LogVersion::Six),
        7 => Some(LogVersion::Seven),
        _ => None,
    }
}
