//! Numbers under names.

ghost use Rattle.std.specs.Prelude.{◌≡◌, ◌<◌, ◌++◌, ◌∷◌, [], List, ℕ, false, if◌then◌else◌, bytes_eq, length, map, OnOk};
ghost use Rattle.nj_chosen.specs.Cited.{is_among, row_at, set_row};

use nj_names::{HashKeys, Names};
use std::alloc::{AllocError, Global};
use std::marker::Model;
use std::mem;

/// Numbers under names, in the order in which they were added.
#[derive(Drop)]
pub(crate) struct NumbersByName {
    names: Names,
    // the numbers under each name
    rows: Vec<Vec<usize>>,
}

impl Model for NumbersByName {
    ghost use Rattle.std.specs.Prelude.{◌≡◌, length, map};
    ghost use Rattle.nj_chosen.specs.Inside.Numbers.{NumbersModel};

    ghost Value = { NumbersModel };

    ghost view = { λ n. record { names = n.names; rows = map (λ row. row.items) n.rows.items } };

    ghost invariant = { λ n. length n.names ≡ length n.rows.items };
}

impl NumbersByName {
    ghost use Rattle.nj_chosen.specs.Inside.Numbers.{numbers_at};

    /// Returns an empty table, without allocating.
    pub(crate) fn new(alloc: Global, keys: HashKeys) -> NumbersByName
        ensures { (name : List ℕ) → numbers_at result name ≡ [] }
    {
        NumbersByName {
            names: Names::new(alloc, keys),
            rows: Vec::new(alloc),
        }
    }

    /// Adds a number under a name.
    pub(crate) fn add(
        &mut self,
        alloc: Global,
        name: &[u8],
        number: usize,
    ) -> Result<(), AllocError>
        ensures { OnOk result ((other : List ℕ) → numbers_at self.new other
            ≡ (if bytes_eq other name.now then numbers_at self.old other ++ number ∷ []
            else numbers_at self.old other)) }
    {
        // so that the names are known to be distinct
        let _count = self.names.count();
        if let Some(place) = self.names.number(name) {
            push_at(&mut self.rows, place, number)?;
            return Ok(());
        }
        self.add_new(alloc, name, number)
    }

    // Adds a number under a name that is new.
    fn add_new(&mut self, alloc: Global, name: &[u8], number: usize) -> Result<(), AllocError>
        requires { is_among self.old.names name.now ≡ false }
        ensures { OnOk result ((other : List ℕ) → numbers_at self.new other
            ≡ (if bytes_eq other name.now then numbers_at self.old other ++ number ∷ []
            else numbers_at self.old other)) }
    {
        let row = Vec::from_slice(alloc, &[number])?;
        self.rows.reserve(1)?;
        self.names.add(name)?;
        self.rows.push_reserved(row);
        Ok(())
    }

    /// Removes the numbers under a name, and returns them.
    #[tactic(auto, using(crate::proofs::RowLemmas::none_taken, crate::proofs::RowLemmas::none_left))]
    pub(crate) fn take(&mut self, alloc: Global, name: &[u8]) -> Vec<usize>
        ensures taken { result.items ≡ numbers_at self.old name.now }
        ensures left { (other : List ℕ) → numbers_at self.new other
            ≡ (if bytes_eq other name.now then [] else numbers_at self.old other) }
    {
        // so that the names are known to be distinct
        let _count = self.names.count();
        if let Some(place) = self.names.number(name) {
            return take_at(alloc, &mut self.rows, place);
        }
        Vec::new(alloc)
    }
}

// Appends a number to the row at a place.
fn push_at(rows: &mut Vec<Vec<usize>>, place: usize, number: usize) -> Result<(), AllocError>
    requires { place < length rows.old.items }
    ensures rows { OnOk result (map (λ row. row.items) rows.new.items
        ≡ set_row (map (λ row. row.items) rows.old.items) place
        (row_at (map (λ row. row.items) rows.old.items) place ++ number ∷ [])) }
    ensures count { length rows.new.items ≡ length rows.old.items }
{
    rows[place].push(number)?;
    Ok(())
}

// Empties the row at a place, and returns its numbers.
fn take_at(alloc: Global, rows: &mut Vec<Vec<usize>>, place: usize) -> Vec<usize>
    requires { place < length rows.old.items }
    ensures taken { result.items ≡ row_at (map (λ row. row.items) rows.old.items) place }
    ensures rows { map (λ row. row.items) rows.new.items
        ≡ set_row (map (λ row. row.items) rows.old.items) place [] }
    ensures count { length rows.new.items ≡ length rows.old.items }
{
    mem::replace(&mut rows[place], Vec::new(alloc))
}
