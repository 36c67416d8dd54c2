//! Whether an output makes its edge stale, and why.

ghost use Rattle.std.specs.Prelude.{◌≡◌, pos};
ghost use Rattle.nj_stale.specs.Cited.{is_before, by_log, by_output, lent_by};

use crate::evidence::EdgeFacts;
use crate::reason::Reason;
use nj_build_log::Entry;

/// Returns why an edge is stale because of the output at a place, given its time on the disk and
/// its entry in the log.
pub(crate) fn by_output(
    facts: EdgeFacts,
    newest: Option<u64>,
    time: u64,
    entry: Option<Entry>,
    place: usize,
) -> Option<Reason>
    ensures { result ≡ by_output facts newest time entry place }
{
    if time == 0 {
        return Some(Reason::MissingOutput(place));
    }
    if is_older(time, newest) && !(facts.restat && entry.is_some()) {
        return Some(Reason::OlderOutput(place));
    }
    by_log(facts, newest, entry, place)
}

// Returns why the edge is stale according to the log's entry for the output.
fn by_log(
    facts: EdgeFacts,
    newest: Option<u64>,
    entry: Option<Entry>,
    place: usize,
) -> Option<Reason>
    ensures { result ≡ by_log facts newest entry place }
{
    match entry {
        None if facts.generator => None,
        None => Some(Reason::NotLogged(place)),
        Some(entry) if !facts.generator && entry.hash != facts.command_hash => {
            Some(Reason::OtherCommand(place))
        }
        Some(entry) if is_before(entry.time, newest) => Some(Reason::EarlierBuild(place)),
        Some(_) => None,
    }
}

// Whether a time on the disk is before the newest time.
fn is_older(time: u64, newest: Option<u64>) -> bool
    ensures { result ≡ is_before (pos time) newest }
{
    match newest {
        Some(newest) => time < newest,
        None => false,
    }
}

// Whether a time in the log is before the newest time.
fn is_before(time: i64, newest: Option<u64>) -> bool
    ensures { result ≡ is_before time newest }
{
    match newest {
        Some(newest) => time < 0 || (time as u64) < newest,
        None => false,
    }
}

/// Returns the time that an edge with the given reason lends to its outputs.
pub(crate) fn lent_by(is_phony: bool, reason: Option<Reason>, newest: Option<u64>) -> u64
    ensures { result ≡ lent_by is_phony reason newest }
{
    if is_phony && reason.is_none() {
        newest.unwrap_or(0)
    } else {
        0
    }
}
