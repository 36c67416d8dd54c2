//! How the parts of a glob fit the rest of a path, which grows from its end.

ghost use Rattle.std.specs.Prelude.{◌≡◌, ◌+◌, ◌∷◌, ℕ, List, [], length};
ghost use Rattle.nj_globs.specs.Cited.{AreFits, fit_with, after_slash_with, part_model, parts_model};

use crate::parts::Part;

/// How the parts from a given one on fit the rest of a path.
#[derive(Clone, Copy, Debug)]
pub(crate) struct Fit {
    /// They match it.
    pub(crate) whole: bool,
    /// They match the rest after one of its slashes.
    pub(crate) after_slash: bool,
}

impl Fit {
    /// The fit of no parts with a path of no bytes.
    pub(crate) const END: Fit = Fit {
        whole: true,
        after_slash: false,
    };
}

/// Sets the fits to those of a path of no bytes. There is a fit from each part on, and a fit of no
/// parts.
pub(crate) fn set_empty(parts: &[Part], fits: &mut [Fit])
    requires { length fits.old ≡ length parts.now + 1 }
    ensures { AreFits (parts_model parts.now) [] fits.new }
{
    fits[parts.len()] = Fit::END;
    'parts: for index in (0..parts.len()).rev() {
        fits[index] = Fit {
            whole: parts[index].may_be_empty() && fits[index + 1].whole,
            after_slash: false,
        };
    }
}

/// Turns the fits of a path into those of the path with the given byte in front.
pub(crate) fn put_in_front(parts: &[Part], fits: &mut [Fit], byte: u8)
    requires { length fits.old ≡ length parts.now + 1 }
    ensures { (path : List ℕ) → AreFits (parts_model parts.now) path fits.old
        → AreFits (parts_model parts.now) (byte ∷ path) fits.new }
{
    let mut old_next = fits[parts.len()];
    fits[parts.len()] = Fit {
        whole: false,
        after_slash: after_slash_with(byte, old_next),
    };
    'parts: for index in (0..parts.len()).rev() {
        let old = fits[index];
        fits[index] = fit_with(&parts[index], byte, old, old_next, fits[index + 1]);
        old_next = old;
    }
}

// The fit from the given part on. `old` is the fit before, and the others are of the next part.
fn fit_with(part: &Part, byte: u8, old: Fit, old_next: Fit, next: Fit) -> Fit
    ensures { result ≡ fit_with (part_model part.now) byte old old_next next }
{
    let whole = match part {
        Part::Star => next.whole || (byte != b'/' && old.whole),
        Part::DoubleStar => next.whole || old.whole,
        Part::Directories => next.whole || next.after_slash,
        _ => part.takes(byte) && old_next.whole,
    };
    Fit {
        whole,
        after_slash: after_slash_with(byte, old),
    }
}

// Whether parts match after a slash of a path with the given byte in front.
fn after_slash_with(byte: u8, old: Fit) -> bool
    ensures { result ≡ after_slash_with byte old }
{
    old.after_slash || (byte == b'/' && old.whole)
}
