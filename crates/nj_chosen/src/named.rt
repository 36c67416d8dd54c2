//! The paths that words of tests name.

ghost use Rattle.std.specs.Prelude.{map, IfOk, OnOk};
ghost use Rattle.nj_chosen.specs.Cited.{filter, is_among, HasMore, SameNames, test_model, named_by_tests};

use crate::programs::add_if_among;
use crate::test_names::names_of_test;
use nj_names::{HashKeys, Names};
use nj_tests::Test;
use std::alloc::{AllocError, Global};

/// Returns a table of those of the given full paths that words of tests may name, with the given
/// keys. `build` is the absolute path of the build directory.
///
/// Takes time in proportion to the tests with their words. Fails only if an allocation fails.
pub fn named_by_tests(
    alloc: Global,
    keys: HashKeys,
    build: &[u8],
    paths: &Names,
    tests: &[Test],
) -> Result<Names, AllocError>
    ensures { IfOk result (λ named. SameNames named
        (named_by_tests build.now paths.now (map test_model tests.now))) }
{
    let mut named = Names::new(alloc, keys);
    'tests: for test in tests {
        let names = names_of_test(alloc, build, test)?;
        add_among(paths, &names, &mut named)?;
    }
    Ok(named)
}

/// Adds those of some names that are among the given paths.
fn add_among(paths: &Names, names: &[Vec<u8>], named: &mut Names) -> Result<(), AllocError>
    ensures { OnOk result (HasMore named.old
        (filter (is_among paths.now) (map (λ name. name.items) names.now)) named.new) }
{
    'names: for name in names {
        add_if_among(paths, name, named)?;
    }
    Ok(())
}
