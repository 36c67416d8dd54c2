//! Why a test is chosen, in words.

ghost use Rattle.std.specs.Prelude.{◌≡◌, option_map};
ghost use Rattle.nj_test_texts.specs.Cited.{choice_model, link_word, own_path, own_word, reason_path, reason_word, why_of};

use nj_chosen::{Choice, Link, Reason};

/// Returns the word of the reason of a test. Without a reason, the test is written since all are.
pub(crate) fn reason_word(choice: Option<Choice<'_>>) -> &'static str
    ensures { result.now ≡ reason_word (option_map choice_model choice.entry) }
{
    match choice {
        Some(Choice::Own(reason)) => own_word(reason),
        Some(Choice::Follows) => "follows",
        Some(Choice::Needed) => "needed",
        None => "uncertain",
    }
}

/// Returns the word of a test's own reason.
fn own_word(reason: &Reason) -> &'static str
    ensures { result.now ≡ own_word (why_of reason.now) }
{
    match reason {
        Reason::Named(link, _) => link_word(*link),
        Reason::UnknownCommand => "unknown-command",
        Reason::Unnamed => "unnamed",
    }
}

/// Returns the word of a link to a change.
fn link_word(link: Link) -> &'static str
    ensures { result.now ≡ link_word link }
{
    match link {
        Link::AffectedOutput => "affected-output",
        Link::ChangedFile => "changed-file",
        Link::Directory => "directory",
        Link::NeedsAffected => "needs-affected",
    }
}

/// Returns the path of the reason of a test; it is empty if the reason has no path.
pub(crate) fn reason_path<'c>(choice: Option<Choice<'c>>) -> &'c [u8]
    ensures { result.now ≡ reason_path (option_map choice_model choice.entry) }
{
    match choice {
        Some(Choice::Own(reason)) => own_path(reason),
        _ => b"",
    }
}

/// Returns the path of a test's own reason.
fn own_path(reason: &Reason) -> &[u8]
    ensures { result.now ≡ own_path (why_of reason.now) }
{
    match reason {
        Reason::Named(_, path) => path,
        _ => b"",
    }
}
