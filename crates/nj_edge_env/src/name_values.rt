//! The values of one name, by edge: parts of one text.

ghost use Rattle.std.specs.Prelude.{◌≡◌, ℕ, ◌+◌, ◌≤◌, ◌<◌, ◌==◌, ◌&&◌, not, if◌then◌else◌, Some, [], ◌∷◌, ◌++◌, length, slice_range, is_some, IfOk, OnOk, OnErr};
ghost use Rattle.nj_edge_env.specs.Cited.{AllByRecursion, lookup, values_of, AreRising, IsPart, BoundsAreHeld, IsBoundTo, BeginsWith, with_bound, ends_at, bound_of, list_at};

use crate::number_lists::NumberLists;
use nj_names::short_number;
use std::alloc::AllocError;

// The value of a name in the block of an edge: a part of the text of all values. There are many
// bounds, so their numbers have 32 bits.
#[derive(Clone, Copy)]
pub(crate) struct Bound {
    pub(crate) edge: u32,
    pub(crate) start: u32,
    pub(crate) end: u32,
}

// The value in the text.
pub(crate) fn value_at(text: &[u8], bound: Bound) -> &[u8]
    requires rises { bound.start ≤ bound.end }
    requires ends { bound.end ≤ length text.now }
    ensures { result.now ≡ slice_range text.now bound.start bound.end }
{
    &text[bound.start as usize..bound.end as usize]
}

// The bound of the edge, if any. While an edge is read, its bounds come last.
pub(crate) fn bound_of(bounds: &[Bound], edge: usize) -> Option<Bound>
    requires { AreRising bounds.now }
    ensures { result ≡ bound_of bounds.now edge }
{
    let last = match bounds.last() {
        Some(last) => *last,
        None => return None,
    };
    if last.edge as usize == edge {
        return Some(last);
    }
    if (last.edge as usize) < edge {
        return None;
    }
    searched(bounds, edge)
}

// The bound of the edge, by a binary search.
fn searched(bounds: &[Bound], edge: usize) -> Option<Bound>
    requires { AreRising bounds.now }
    ensures { result ≡ bound_of bounds.now edge }
{
    let index = bounds.partition_point(|bound| (bound.edge as usize) < edge);
    match bounds.get(index) {
        Some(bound) if bound.edge as usize == edge => Some(*bound),
        Some(_) => None,
        None => None,
    }
}

// Binds the name with the given number in the block of the edge, replacing any earlier value there;
// a name that the block did not bind yet is listed.
pub(crate) fn bind_value(
    bounds: &mut Vec<Bound>,
    text: &mut Vec<u8>,
    lists: &mut NumberLists,
    edge: usize,
    number: usize,
    value: &[u8],
) -> Result<(), AllocError>
    requires held { BoundsAreHeld (length text.old.items) edge bounds.old.items }
    requires lists { length lists.old ≤ edge + 1 }
    ensures bound { OnOk result ((e : ℕ)
        → lookup (λ x. e == x) (values_of text.new.items bounds.new.items)
        ≡ (if e == edge then Some value.now
        else lookup (λ x. e == x) (values_of text.old.items bounds.old.items))) }
    ensures refused { OnErr result (values_of text.new.items bounds.new.items
        ≡ values_of text.old.items bounds.old.items) }
    ensures held { BoundsAreHeld (length text.new.items) edge bounds.new.items }
    ensures text { BeginsWith text.old.items text.new.items }
    ensures listed { OnOk result ((e : ℕ) → list_at lists.new e
        ≡ (if e == edge && not (is_some (bound_of bounds.old.items edge))
        then list_at lists.old e ++ number ∷ [] else list_at lists.old e)) }
    ensures unlisted { OnErr result ((e : ℕ) → list_at lists.new e ≡ list_at lists.old e) }
    ensures lists_end { length lists.new ≤ edge + 1 }
{
    let bound = bound_to(bounds.as_slice(), text, edge, value)?;
    set_bound(bounds, lists, number, bound)
}

// The bound of the value in the text: it shares the text of the last bound if that has the same
// value; otherwise the value is appended.
fn bound_to(
    bounds: &[Bound],
    text: &mut Vec<u8>,
    edge: usize,
    value: &[u8],
) -> Result<Bound, AllocError>
    requires { AllByRecursion (IsPart (length text.old.items) edge) bounds.now }
    ensures bound { IfOk result (λ b. IsBoundTo text.new.items edge value.now b) }
    ensures text { BeginsWith text.old.items text.new.items }
{
    if let Some(last) = bounds.last() {
        if value_at(text.as_slice(), *last) == value {
            let edge = short_number(edge)?;
            return Ok(Bound { edge, ..*last });
        }
    }
    push_value(text, edge, value)
}

// Appends the value to the text.
fn push_value(text: &mut Vec<u8>, edge: usize, value: &[u8]) -> Result<Bound, AllocError>
    ensures bound { IfOk result (λ b. IsBoundTo text.new.items edge value.now b) }
    ensures text { BeginsWith text.old.items text.new.items }
{
    let edge = short_number(edge)?;
    let start = short_number(text.as_slice().len())?;
    text.extend_from_slice(value)?;
    let end = short_number(text.as_slice().len())?;
    Ok(Bound { edge, start, end })
}

// Appends the bound, and lists the name with the given number for its edge; or replaces the last
// bound if it belongs to the same edge, which then has the name in its list.
fn set_bound(
    bounds: &mut Vec<Bound>,
    lists: &mut NumberLists,
    number: usize,
    bound: Bound,
) -> Result<(), AllocError>
    requires { length lists.old ≤ bound.edge + 1 }
    ensures set { OnOk result (bounds.new.items ≡ with_bound bounds.old.items bound) }
    ensures refused { OnErr result (bounds.new.items ≡ bounds.old.items) }
    ensures listed { OnOk result ((e : ℕ) → list_at lists.new e
        ≡ (if e == bound.edge && not (ends_at bounds.old.items bound.edge)
        then list_at lists.old e ++ number ∷ [] else list_at lists.old e)) }
    ensures unlisted { OnErr result ((e : ℕ) → list_at lists.new e ≡ list_at lists.old e) }
    ensures lists_end { length lists.new ≤ bound.edge + 1 }
{
    if let Some(last) = bounds.last_mut() {
        if last.edge == bound.edge {
            *last = bound;
            return Ok(());
        }
    }
    bounds.reserve(1)?;
    lists.push(bound.edge, number)?;
    bounds.push_reserved(bound);
    Ok(())
}
