//! The clean path of a path, one component after another.

ghost use Rattle.std.specs.Prelude.{◌≡◌, ◌++◌, ◌≤◌, List, ℕ, false, length, IfOk, OnOk, OnErr};
ghost use Rattle.nj_text.specs.Cited.{list_any, slice_split, is_slash, is_absolute, clean_path_of, Kept, component_of, with_component, text_with_component, nothing_kept, kept_after, text_kept, IsWritten, BeginsWith, DropsName};

use crate::components::{Component, component_of, first_component};
use std::alloc::AllocError;

/// Appends a component, after a slash unless it is the first from `front` on.
fn push_component(out: &mut Vec<u8>, front: usize, component: &[u8]) -> Result<(), AllocError>
    ensures ok { OnOk result (out.new.items
        ≡ text_with_component front out.old.items component.now) }
    ensures err { OnErr result (BeginsWith out.old.items out.new.items) }
{
    if front < out.len() {
        out.push(b'/')?;
    }
    out.extend_from_slice(component)
}

/// Removes the last name, and the slash before it.
fn drop_name(out: &mut Vec<u8>, floor: usize)
    requires { floor ≤ length out.old.items }
    ensures { DropsName floor out.old.items out.new.items }
{
    'bytes: while floor < out.len() {
        if let Some(b'/') = out.pop() {
            return;
        }
    }
}

/// Adds a component to those from `front` on, whose names begin at `floor`; returns the new floor.
fn add_component(
    out: &mut Vec<u8>,
    absolute: bool,
    front: usize,
    floor: usize,
    component: &[u8],
) -> Result<usize, AllocError>
    requires { list_any is_slash component.now ≡ false }
    ensures ok { (base : List ℕ) (kept : Kept)
        → IsWritten absolute base kept front floor out.old.items
        → IfOk result (λ floor. IsWritten absolute base
        (with_component (component_of component.now) component.now kept)
        front floor out.new.items) }
    ensures err { OnErr result (BeginsWith out.old.items out.new.items) }
{
    match component_of(component) {
        Component::Nowhere => Ok(floor),
        Component::Name => {
            push_component(out, front, component)?;
            Ok(floor)
        }
        Component::Up => {
            if floor < out.len() {
                drop_name(out, floor);
                Ok(floor)
            } else if absolute {
                Ok(floor)
            } else {
                push_component(out, front, component)?;
                Ok(out.len())
            }
        }
    }
}

/// Appends the components of the clean path, joined by slashes.
pub fn push_components(out: &mut Vec<u8>, absolute: bool, path: &[u8]) -> Result<(), AllocError>
    ensures ok { OnOk result (out.new.items ≡ out.old.items
        ++ text_kept absolute (kept_after nothing_kept (slice_split is_slash path.now))) }
    ensures err { OnErr result (BeginsWith out.old.items out.new.items) }
{
    let front = out.len();
    let mut floor = front;
    let mut rest = Some(path);
    'components: while let Some(text) = rest {
        let (component, after) = first_component(text);
        floor = add_component(out, absolute, front, floor, component)?;
        rest = after;
    }
    Ok(())
}

/// Whether the path begins at the root.
pub fn is_absolute(path: &[u8]) -> bool
    ensures { result ≡ is_absolute path.now }
{
    matches!(path, [b'/', ..])
}

/// Appends the clean path.
pub fn push_clean(out: &mut Vec<u8>, path: &[u8]) -> Result<(), AllocError>
    ensures ok { OnOk result (out.new.items ≡ out.old.items ++ clean_path_of path.now) }
    ensures err { OnErr result (BeginsWith out.old.items out.new.items) }
{
    if is_absolute(path) {
        out.push(b'/')?;
        push_components(out, true, path)?;
        return Ok(());
    }
    let front = out.len();
    push_components(out, false, path)?;
    if out.len() == front {
        out.push(b'.')?;
    }
    Ok(())
}
