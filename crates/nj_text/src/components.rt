//! The components between the slashes of a path.

ghost use Rattle.std.specs.Option.{IfSome};
ghost use Rattle.std.specs.Prelude.{◌≡◌, ◌∷◌, false};
ghost use Rattle.nj_text.specs.Cited.{option_copied, list_any, slice_split, is_slash, component_of, components_left, all_stay, is_here};

use crate::path_lanes::are_names;

/// The meaning of a component between two slashes.
#[derive(Clone, Copy)]
pub enum Component {
    /// Nothing, or `.`: stay where you are.
    Nowhere,
    /// `..`: the parent directory.
    Up,
    /// The name of a directory or a file.
    Name,
}

pub fn component_of(component: &[u8]) -> Component
    ensures { result ≡ component_of component.now }
{
    match component {
        [] | [b'.'] => Component::Nowhere,
        [b'.', b'.'] => Component::Up,
        _ => Component::Name,
    }
}

/// The component before the first slash, and the text after that slash; the whole text and `None`
/// if it has no slash.
pub fn first_component(text: &[u8]) -> (&[u8], Option<&[u8]>)
    ensures components { slice_split is_slash text.now
        ≡ result.0.now ∷ components_left (option_copied result.1) }
    ensures whole { list_any is_slash result.0.now ≡ false }
{
    for (end, byte) in text.iter().enumerate() {
        if *byte == b'/' {
            return (&text[..end], Some(&text[end + 1..]));
        }
    }
    (text, None)
}

/// The text after the `../` at its front.
#[inline]
fn after_up(text: &[u8]) -> Option<&[u8]>
    ensures { IfSome result (λ after. text.now ≡ 46 ∷ 46 ∷ 47 ∷ after.now) }
{
    match text {
        [b'.', b'.', b'/', after @ ..] => Some(after),
        _ => None,
    }
}

/// The text after each `../` at its front.
#[inline]
pub fn after_ups(text: &[u8]) -> &[u8]
    ensures { all_stay false (slice_split is_slash text.now)
        ≡ all_stay false (slice_split is_slash result.now) }
{
    let mut left = text;
    'ups: while let Some(after) = after_up(left) {
        left = after;
    }
    left
}

/// Whether each component of the text is in its clean path unchanged; `named` is whether a name
/// came before.
pub fn all_stay(text: &[u8], named: bool) -> bool
    ensures { result ≡ all_stay named (slice_split is_slash text.now) }
{
    are_names(text) || each_stays(text, named)
}

/// Whether each component of the text stays unchanged, checked one by one.
fn each_stays(text: &[u8], mut named: bool) -> bool
    ensures { result ≡ all_stay named (slice_split is_slash text.now) }
{
    let mut rest = Some(text);
    'components: while let Some(left) = rest {
        let (component, after) = first_component(left);
        match component_of(component) {
            Component::Nowhere => return false,
            Component::Up => {
                if named {
                    return false;
                }
            }
            Component::Name => named = true,
        }
        rest = after;
    }
    true
}

/// Whether the path is `.`.
pub fn is_here(path: &[u8]) -> bool
    ensures { result ≡ is_here path.now }
{
    matches!(path, [b'.'])
}
