//! The values that the blocks of edges bind.

ghost use Rattle.std.specs.Prelude.{◌≡◌, ℕ, ◌≤◌, ◌==◌, ◌&&◌, not, if◌then◌else◌, true, List, [], ◌∷◌, ◌++◌, Some, None, length, slice_get, is_some, option_copied, bytes_eq, IfOk, OnOk, OnErr};
ghost use Rattle.nj_edge_env.specs.Cited.{bound_in, names_in, blocks_of, bounds_of, BlocksAreHeld, IsFirstAt, IsNumberOf, is_pool_or_dyndep};

use crate::binding_order::NameOrder;
use crate::name_values::{Bound, bind_value, bound_of, value_at};
use crate::number_lists::NumberLists;
use nj_names::{HashKeys, Names};
use nj_scope::is_pool_or_dyndep;
use std::alloc::{AllocError, Global};
use std::marker::Model;

/// The values that the blocks of edges bind, by edge and name ("Build statements" and "Variables"
/// in the Ninja manual).
#[derive(Drop)]
pub struct Blocks {
    alloc: Global,
    // the names that blocks bind
    names: Names,
    order: NameOrder,
    // the values of each name
    values: Vec<Vec<Bound>>,
    text: Vec<u8>,
    // the numbers of the names that each block binds
    lists: NumberLists,
    last: usize,
    // Blocks of edges after this number do not bind `pool` or `dyndep`. Few blocks do, and both
    // names are looked up for every edge.
    assigning: usize,
}

impl Model for Blocks {
    ghost use Rattle.std.specs.Prelude.{length};
    ghost use Rattle.nj_edge_env.specs.Blocks.{BlocksModel};
    ghost use Rattle.nj_edge_env.specs.Inside.BlocksHeld.{blocks_of, bounds_of, BindNeitherAfter, BlocksAreHeld};

    ghost Value = { BlocksModel };

    ghost view = { λ b. blocks_of b.text.items b.names (bounds_of b.values.items) b.lists b.last };

    ghost invariant = { λ b. BlocksAreHeld (length b.text.items) b.last b.names
        (bounds_of b.values.items) b.lists × BindNeitherAfter b.assigning (blocks_of b.text.items
        b.names (bounds_of b.values.items) b.lists b.last) };
}

impl Blocks {
    /// Blocks that bind nothing. It allocates nothing.
    pub fn new(alloc: Global, keys: HashKeys) -> Blocks
        ensures nothing { (edge : ℕ) (name : List ℕ) → bound_in result edge name ≡ None }
        ensures no_names { (edge : ℕ) → names_in result edge ≡ [] }
        ensures last { result.last ≡ 0 }
    {
        Blocks {
            alloc,
            names: Names::new(alloc, keys),
            order: NameOrder::new(alloc),
            values: Vec::new(alloc),
            text: Vec::new(alloc),
            lists: NumberLists::new(alloc),
            last: 0,
            assigning: 0,
        }
    }

    /// Binds the name to the value in the block of the edge, replacing any earlier value there.
    /// Edges must come in order.
    ///
    /// # Errors
    ///
    /// If an allocation failed; the bindings are then unchanged.
    pub fn bind(&mut self, edge: usize, name: &[u8], value: &[u8]) -> Result<(), AllocError>
        requires { self.old.last ≤ edge }
        ensures bound { OnOk result ((e : ℕ) (x : List ℕ) → bound_in self.new e x
            ≡ (if e == edge && bytes_eq x name.now
            then Some value.now else bound_in self.old e x)) }
        ensures refused { OnErr result ((e : ℕ) (x : List ℕ)
            → bound_in self.new e x ≡ bound_in self.old e x) }
        ensures names { OnOk result ((e : ℕ) → names_in self.new e
            ≡ (if e == edge && not (is_some (bound_in self.old edge name.now))
            then names_in self.old e ++ name.now ∷ [] else names_in self.old e)) }
        ensures same_names { OnErr result ((e : ℕ)
            → names_in self.new e ≡ names_in self.old e) }
        ensures last { self.new.last ≡ edge }
    {
        self.last = edge;
        self.assigning = last_assigning(self.assigning, edge, name);
        let number = name_number(
            self.alloc,
            &mut self.names,
            &mut self.order,
            &mut self.values,
            name,
        )?;
        bind_value(
            &mut self.values[number],
            &mut self.text,
            &mut self.lists,
            edge,
            number,
            value,
        )
    }

    /// Returns the value that the block of the edge binds to the name, or `None`.
    pub fn value(&self, edge: usize, name: &[u8]) -> Option<&[u8]>
        ensures { option_copied result ≡ bound_in self.now edge name.now }
    {
        if edge > self.assigning && is_pool_or_dyndep(name) {
            return None;
        }
        let bounds = match self.names.number(name) {
            Some(number) => self.values[number].as_slice(),
            None => return None,
        };
        match bound_of(bounds, edge) {
            Some(bound) => Some(value_at(self.text.as_slice(), bound)),
            None => None,
        }
    }

    /// How many names the block of the edge binds.
    pub fn name_count(&self, edge: usize) -> usize
        ensures { result ≡ length (names_in self.now edge) }
    {
        self.lists.list(edge).len()
    }

    /// Returns the name at the given index among the names that the block of the edge binds,
    /// without duplicates, in the order in which they were first bound; `None` past the last name.
    pub fn name(&self, edge: usize, index: usize) -> Option<&[u8]>
        ensures { option_copied result ≡ slice_get (names_in self.now edge) index }
    {
        match self.lists.list(edge).get(index) {
            Some(number) => Some(self.names.name(*number as usize)),
            None => None,
        }
    }
}

// The last edge whose block may bind `pool` or `dyndep`, once the block of the given edge, the last
// so far, binds the name.
fn last_assigning(assigning: usize, edge: usize, name: &[u8]) -> usize
    ensures { result ≡ (if is_pool_or_dyndep name.now then edge else assigning) }
{
    if is_pool_or_dyndep(name) {
        edge
    } else {
        assigning
    }
}

// The number of the name, which is guessed by the order in which names were bound before.
fn name_number(
    alloc: Global,
    names: &mut Names,
    order: &mut NameOrder,
    values: &mut Vec<Vec<Bound>>,
    name: &[u8],
) -> Result<usize, AllocError>
    requires { length values.old.items ≡ length names.old }
    ensures number { IfOk result (λ number. IsNumberOf name.now names.old
        (bounds_of values.old.items) names.new (bounds_of values.new.items) number) }
    ensures names { OnErr result (names.new ≡ names.old) }
    ensures values { OnErr result (values.new.items ≡ values.old.items) }
{
    let guess = order.guess();
    if is_name(names, guess, name) {
        order.note(guess);
        return Ok(guess);
    }
    order.grow(values.as_slice().len() + 1)?;
    let number = sought_number(alloc, names, values, name)?;
    order.note(number);
    Ok(number)
}

// Whether the name with the given number exists and is the given name.
#[inline(always)]
fn is_name(names: &Names, number: usize, name: &[u8]) -> bool
    ensures { result ≡ true → IsFirstAt name.now names.now number }
{
    if number >= names.count() {
        return false;
    }
    names.name(number) == name
}

// The number of the name. A name that no block has bound yet gets a new number, and has no values.
fn sought_number(
    alloc: Global,
    names: &mut Names,
    values: &mut Vec<Vec<Bound>>,
    name: &[u8],
) -> Result<usize, AllocError>
    requires { length values.old.items ≡ length names.old }
    ensures number { IfOk result (λ number. IsNumberOf name.now names.old
        (bounds_of values.old.items) names.new (bounds_of values.new.items) number) }
    ensures names { OnErr result (names.new ≡ names.old) }
    ensures values { OnErr result (values.new.items ≡ values.old.items) }
{
    if let Some(number) = names.number(name) {
        return Ok(number);
    }
    let number = values.as_slice().len();
    values.reserve(1)?;
    names.add(name)?;
    values.push_reserved(Vec::new(alloc));
    Ok(number)
}
