//! The tests that others bring, by fixtures and by their order.

ghost use Rattle.std.specs.Prelude.{◌≡◌, ◌↔◌, ◌<◌, ◌++◌, ℕ, List, [], if◌then◌else◌, bytes_eq, All, Contains, IfOk, OnOk, length, map, slice_index, string_bytes};
ghost use Rattle.nj_tests.specs.Tests.{TestModel, test_model};
ghost use Rattle.nj_chosen.specs.Chosen.{IsBrought, answered_fixtures, answered_tests, called_fixtures, called_tests};
ghost use Rattle.nj_chosen.specs.Inside.Bringing.{AnswersOne, AreAllAnswers, AreAnswers, Brings, FindsMore, HasAll, fixture_rows, test_rows};
ghost use Rattle.nj_chosen.specs.Inside.Numbers.{AddsNumber, AreBelow, HasNumber, numbers_at};

use crate::numbers::NumbersByName;
use nj_names::{HashKeys, NumberSet};
use nj_tests::Test;
use std::alloc::{AllocError, Global};
use std::slice;

/// How a test brings others.
#[derive(Clone, Copy)]
pub(crate) enum Way {
    /// The tests that come after it: they require a fixture that it sets up, or name it as a
    /// predecessor.
    Later,
    /// The tests that it needs: they set up or clean up a fixture that it requires, or are its
    /// predecessors.
    Needed,
}

/// Tests by the names to which they answer.
#[derive(Drop)]
pub(crate) struct Answers {
    pub(crate) fixtures: NumbersByName,
    pub(crate) tests: NumbersByName,
}

/// Returns the given tests and all tests that they bring, directly or through others.
///
/// Takes time in proportion to the tests and their names.
pub(crate) fn brought(
    alloc: Global,
    keys: HashKeys,
    way: Way,
    tests: &[Test],
    first: &[usize],
) -> Result<NumberSet, AllocError>
    requires { All (λ n. n < length tests.now) first.now }
    ensures limit { IfOk result (λ found. found.limit ≡ length tests.now) }
    ensures brought { IfOk result (λ found. (number : ℕ) → Contains found.numbers number
        ↔ IsBrought way (map test_model tests.now) (Contains first.now) number) }
{
    let mut answers = answers_of(alloc, keys, way, tests)?;
    let mut found = NumberSet::none_below(alloc, tests.len())?;
    add_all(&mut found, first)?;
    let mut place = 0;
    'tests: while place < found.numbers().len() {
        let number = number_at(&found, place);
        add_brought(alloc, way, &tests[number], &mut answers, &mut found)?;
        place += 1;
    }
    Ok(found)
}

/// Returns the number at a place in the order in which numbers were found.
fn number_at(found: &NumberSet, place: usize) -> usize
    requires { place < length found.now.numbers }
    ensures number { result ≡ slice_index found.now.numbers place }
    ensures known { result < found.now.limit }
{
    found.numbers()[place]
}

/// Adds the given numbers.
fn add_all(found: &mut NumberSet, numbers: &[usize]) -> Result<(), AllocError>
    requires { All (λ n. n < found.old.limit) numbers.now }
    ensures { OnOk result (FindsMore (Contains numbers.now) found.old found.new) }
{
    'numbers: for number in numbers {
        found.insert(*number)?;
    }
    Ok(())
}

/// Moves the tests that a test brings from the answers to the tests found.
fn add_brought(
    alloc: Global,
    way: Way,
    test: &Test,
    answers: &mut Answers,
    found: &mut NumberSet,
) -> Result<(), AllocError>
    requires { AreBelow found.old.limit answers.old.fixtures
        × AreBelow found.old.limit answers.old.tests }
    ensures found { OnOk result ((tests : List TestModel)
        → AreAllAnswers way tests answers.old found.old.numbers
        → FindsMore (Brings way tests (test_model test.now)) found.old found.new) }
    ensures answers { OnOk result ((tests : List TestModel)
        → AreAllAnswers way tests answers.old found.old.numbers
        → AreAllAnswers way tests answers.new found.new.numbers) }
{
    let fixtures = called_fixtures(way, test);
    take_each(alloc, &mut answers.fixtures, fixtures, found)?;
    let names = called_tests(way, test);
    take_each(alloc, &mut answers.tests, names, found)?;
    Ok(())
}

/// Returns the fixtures by which a test calls.
fn called_fixtures(way: Way, test: &Test) -> &[String]
    ensures { map string_bytes result.now ≡ called_fixtures way (test_model test.now) }
{
    match way {
        Way::Later => &test.set_up_fixtures,
        Way::Needed => &test.required_fixtures,
    }
}

/// Returns the names of tests by which a test calls.
fn called_tests(way: Way, test: &Test) -> &[String]
    ensures { map string_bytes result.now ≡ called_tests way (test_model test.now) }
{
    match way {
        Way::Later => slice::from_ref(&test.name),
        Way::Needed => &test.predecessors,
    }
}

/// Moves the numbers under each of the given names to the numbers found.
fn take_each(
    alloc: Global,
    numbers: &mut NumbersByName,
    names: &[String],
    found: &mut NumberSet,
) -> Result<(), AllocError>
    requires { AreBelow found.old.limit numbers.old }
    ensures found { OnOk result ((rows : List (List (List ℕ)))
        → AreAnswers rows numbers.old found.old.numbers
        → FindsMore (AnswersOne rows (map string_bytes names.now)) found.old found.new) }
    ensures answers { OnOk result ((rows : List (List (List ℕ)))
        → AreAnswers rows numbers.old found.old.numbers
        → AreAnswers rows numbers.new found.new.numbers) }
    ensures below { OnOk result (AreBelow found.old.limit numbers.new) }
    ensures limit { OnOk result (found.new.limit ≡ found.old.limit) }
{
    'names: for name in names {
        take_all(alloc, numbers, name.as_bytes(), found)?;
    }
    Ok(())
}

/// Moves the numbers under a name to the numbers found.
fn take_all(
    alloc: Global,
    numbers: &mut NumbersByName,
    name: &[u8],
    found: &mut NumberSet,
) -> Result<(), AllocError>
    requires { AreBelow found.old.limit numbers.old }
    ensures found { OnOk result (FindsMore (HasNumber numbers.old name.now) found.old found.new) }
    ensures left { (other : List ℕ) → numbers_at numbers.new other
        ≡ (if bytes_eq other name.now then [] else numbers_at numbers.old other) }
{
    let taken = numbers.take(alloc, name);
    add_all(found, taken.as_slice())
}

/// Returns the given tests by the names to which they answer.
fn answers_of(
    alloc: Global,
    keys: HashKeys,
    way: Way,
    tests: &[Test],
) -> Result<Answers, AllocError>
    ensures fixtures { IfOk result (λ answers.
        HasAll (fixture_rows way (map test_model tests.now)) answers.fixtures) }
    ensures tests { IfOk result (λ answers.
        HasAll (test_rows way (map test_model tests.now)) answers.tests) }
{
    let mut answers = Answers {
        fixtures: NumbersByName::new(alloc, keys),
        tests: NumbersByName::new(alloc, keys),
    };
    'tests: for (number, test) in tests.iter().enumerate() {
        add_answers(alloc, way, number, test, &mut answers)?;
    }
    Ok(answers)
}

/// Adds the test with the given number under the names to which it answers.
fn add_answers(
    alloc: Global,
    way: Way,
    number: usize,
    test: &Test,
    answers: &mut Answers,
) -> Result<(), AllocError>
    ensures fixtures { OnOk result (AddsNumber (answered_fixtures way (test_model test.now)) number
        answers.old.fixtures answers.new.fixtures) }
    ensures tests { OnOk result (AddsNumber (answered_tests way (test_model test.now)) number
        answers.old.tests answers.new.tests) }
{
    match way {
        Way::Later => {
            add_under(
                alloc,
                &mut answers.fixtures,
                &test.required_fixtures,
                number,
            )?;
            add_under(alloc, &mut answers.tests, &test.predecessors, number)
        }
        Way::Needed => {
            add_needed_fixtures(alloc, &mut answers.fixtures, test, number)?;
            add_under(
                alloc,
                &mut answers.tests,
                slice::from_ref(&test.name),
                number,
            )
        }
    }
}

/// Adds a number under the fixtures that its test sets up or cleans up.
fn add_needed_fixtures(
    alloc: Global,
    numbers: &mut NumbersByName,
    test: &Test,
    number: usize,
) -> Result<(), AllocError>
    ensures { OnOk result (AddsNumber
        ((test_model test.now).set_up_fixtures ++ (test_model test.now).cleaned_fixtures) number
        numbers.old numbers.new) }
{
    add_under(alloc, numbers, test.set_up_fixtures.as_slice(), number)?;
    add_under(alloc, numbers, test.cleaned_fixtures.as_slice(), number)?;
    Ok(())
}

/// Adds a number under each of the given names.
fn add_under(
    alloc: Global,
    numbers: &mut NumbersByName,
    names: &[String],
    number: usize,
) -> Result<(), AllocError>
    ensures { OnOk result (AddsNumber (map string_bytes names.now) number
        numbers.old numbers.new) }
{
    'names: for name in names {
        numbers.add(alloc, name.as_bytes(), number)?;
    }
    Ok(())
}
