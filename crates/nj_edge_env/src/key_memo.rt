//! Strings of a rule's keys that were appended already.

ghost use Rattle.std.specs.Prelude.{◌≡◌, ◌<◌, IfSome};
ghost use Rattle.nj_edge_env.specs.Cited.{text_known, taller, with_text};

/// How many keys of a rule have their texts kept: as many as Ninja knows. If a rule had more keys,
/// the others would be expanded at each reference.
pub(crate) const KEYS: usize = 11;

// Where the text of a key is, and its height: how many lines of the rule are nested below the key's
// own.
#[derive(Clone, Copy)]
pub(crate) struct KeyText {
    pub(crate) start: usize,
    pub(crate) end: usize,
    pub(crate) height: usize,
}

// The text of the key with the given number, if it is known and its height is at most `depth`.
pub(crate) fn text_known(known: &[Option<KeyText>], number: usize, depth: usize) -> Option<KeyText>
    ensures { result ≡ text_known known.now number depth }
{
    if number >= known.len() {
        return None;
    }
    match known[number] {
        Some(text) if text.height <= depth => Some(text),
        _ => None,
    }
}

// The height of a line with one more reference, below which `below` lines are nested. `None` if a
// reference was cut off.
pub(crate) fn taller(height: Option<usize>, below: Option<usize>, depth: usize) -> Option<usize>
    requires { IfSome below (λ b. b < depth) }
    ensures { result ≡ taller height below }
{
    let (height, below) = (height?, below?);
    Some(height.max(below + 1))
}

// Keeps where the text of the key with the given number is, unless a reference in it was cut off.
pub(crate) fn keep_text(
    known: &mut [Option<KeyText>],
    number: usize,
    start: usize,
    end: usize,
    height: Option<usize>,
)
    ensures { known.new ≡ with_text known.old number start end height }
{
    if let Some(height) = height {
        if number < known.len() {
            known[number] = Some(KeyText { start, end, height });
        }
    }
}
