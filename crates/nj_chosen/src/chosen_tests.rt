//! The tests of a list that are chosen.

ghost use Rattle.std.specs.Prelude.{◌≡◌, ◌<◌, ◌↔◌, ◌++◌, ◌∷◌, [], if◌then◌else◌, ℕ, All, Contains, IfOk, OnOk, length, map, option_map};
ghost use Rattle.nj_tests.specs.Tests.{test_model};
ghost use Rattle.nj_chosen.specs.Choices.{AreChosen, HasReason};
ghost use Rattle.nj_chosen.specs.Inside.Chosen.{AreChosenBy};
ghost use Rattle.nj_chosen.specs.ChangedPaths.{change_by};
ghost use Rattle.nj_chosen.specs.Inside.Tables.{kinds_in};
ghost use Rattle.nj_chosen.specs.Reasons.{reason_by, why_of};

use crate::brought::{Way, brought};
use crate::reason::Reason;
use crate::tables::{ChangedPaths, PathTables};
use crate::test_reasons::reason_of;
use nj_names::{HashKeys, NumberSet};
use nj_tests::Test;
use std::alloc::{AllocError, Global};
use std::marker::Model;

/// Why a test is chosen.
#[derive(Clone, Copy)]
pub enum Choice<'c> {
    /// It has a reason of its own.
    Own(&'c Reason),
    /// It requires a fixture that an affected test sets up, or comes after an affected test.
    Follows,
    /// A chosen test needs it: it sets up or cleans up a fixture that the chosen test requires, or
    /// comes before the chosen test.
    Needed,
}

/// The tests of a list that are chosen, by their numbers.
#[derive(Drop)]
pub struct ChosenTests {
    reasons: Vec<Option<Reason>>,
    affected: NumberSet,
    chosen: NumberSet,
}

impl Model for ChosenTests {
    ghost use Rattle.std.specs.Prelude.{◌≡◌, length, map, option_map};
    ghost use Rattle.nj_chosen.specs.Choices.{ChosenModel};
    ghost use Rattle.nj_chosen.specs.Inside.Chosen.{AreOfAll};
    ghost use Rattle.nj_chosen.specs.Reasons.{why_of};

    ghost Value = { ChosenModel };

    ghost view = { λ c. record {
      reasons = map (λ reason. option_map why_of reason) c.reasons.items;
      affected = c.affected.numbers;
      chosen = c.chosen.numbers;
    } };

    ghost invariant = { λ c. AreOfAll (length c.reasons.items) c.affected c.chosen };
}

impl ChosenTests {
    ghost use Rattle.nj_chosen.specs.Choices.{choice_model, why_chosen};

    /// Returns the number of tests in the list.
    pub fn count(&self) -> usize
        ensures { result ≡ length self.now.reasons }
    {
        self.reasons.len()
    }

    /// Returns why the test with the given number is chosen, or `None` if it is not.
    pub fn choice(&self, number: usize) -> Option<Choice<'_>>
        requires { number < length self.now.reasons }
        ensures { option_map choice_model result ≡ why_chosen self.now number }
    {
        if let Some(reason) = &self.reasons[number] {
            return Some(Choice::Own(reason));
        }
        if self.affected.contains(number) {
            return Some(Choice::Follows);
        }
        if self.chosen.contains(number) {
            return Some(Choice::Needed);
        }
        None
    }
}

/// Returns the tests of a list that a change of files reaches: tests with a reason of their own,
/// tests that follow them, and tests that any of them needs to run. Tests of which too little is
/// known have a reason, unless they are skipped. Programs of tests do not count in a directory.
/// `build` is the absolute path of the build directory. The tables of paths that are made have the
/// given keys.
///
/// Takes time in proportion to the paths of the change, and to the tests with their words and names.
/// Fails only if an allocation fails.
pub fn choose(
    alloc: Global,
    keys: HashKeys,
    build: &[u8],
    paths: ChangedPaths,
    skips_unnamed: bool,
    tests: &[Test],
) -> Result<ChosenTests, AllocError>
    ensures { IfOk result (AreChosen (change_by build.now paths) skips_unnamed
        (map test_model tests.now)) }
{
    let tables = PathTables::new(alloc, keys, build, paths, tests)?;
    chosen_by(alloc, keys, &tables, build, skips_unnamed, tests)
}

/// Returns the chosen tests of a list, given the tables of a change.
fn chosen_by(
    alloc: Global,
    keys: HashKeys,
    tables: &PathTables,
    build: &[u8],
    skips_unnamed: bool,
    tests: &[Test],
) -> Result<ChosenTests, AllocError>
    ensures { IfOk result (AreChosenBy (kinds_in tables.now) build.now skips_unnamed
        (map test_model tests.now)) }
{
    let reasons = reasons_of(alloc, tables, build, skips_unnamed, tests)?;
    let first = with_reason(alloc, &reasons)?;
    let affected = brought(alloc, keys, Way::Later, tests, &first)?;
    let chosen = brought(alloc, keys, Way::Needed, tests, affected.numbers())?;
    Ok(ChosenTests {
        reasons,
        affected,
        chosen,
    })
}

/// Returns for each of the given tests its own reason, if any, by the tables of a change.
fn reasons_of(
    alloc: Global,
    tables: &PathTables,
    build: &[u8],
    skips_unnamed: bool,
    tests: &[Test],
) -> Result<Vec<Option<Reason>>, AllocError>
    ensures { IfOk result (λ reasons. map (λ reason. option_map why_of reason) reasons.items
        ≡ map (reason_by (kinds_in tables.now) build.now skips_unnamed)
        (map test_model tests.now)) }
{
    let mut reasons = Vec::new(alloc);
    'tests: for test in tests {
        reasons.push(reason_of(alloc, tables, build, skips_unnamed, test)?)?;
    }
    Ok(reasons)
}

/// Returns the numbers of the tests with a reason.
fn with_reason(alloc: Global, reasons: &[Option<Reason>]) -> Result<Vec<usize>, AllocError>
    ensures numbers { IfOk result (λ numbers. (n : ℕ) → Contains numbers.items n
        ↔ HasReason (map (λ reason. option_map why_of reason) reasons.now) n) }
    ensures known { IfOk result (λ numbers. All (λ n. n < length reasons.now) numbers.items) }
{
    let mut numbers = Vec::new(alloc);
    'reasons: for number in 0..reasons.len() {
        push_if(&mut numbers, number, reasons[number].is_some())?;
    }
    Ok(numbers)
}

/// Appends a number if `is_so`.
fn push_if(numbers: &mut Vec<usize>, number: usize, is_so: bool) -> Result<(), AllocError>
    ensures { OnOk result (numbers.new.items
        ≡ numbers.old.items ++ (if is_so then number ∷ [] else [])) }
{
    if !is_so {
        return Ok(());
    }
    numbers.push(number)?;
    Ok(())
}
