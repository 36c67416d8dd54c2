//! Why a test is chosen by itself.

ghost use Rattle.std.specs.Prelude.{◌≡◌, Some, map, option_map, IfOk};
ghost use Rattle.nj_chosen.specs.Cited.{list_any, test_model, kinds_in, first_named, is_of_outputs, reason_by, why_of, without_link};

use crate::reason::Reason;
use crate::tables::PathTables;
use crate::test_names::{is_unknown, names_of_test};
use nj_tests::Test;
use std::alloc::{AllocError, Global};

/// Returns why a test is chosen by itself, if it is. Tests of which too little is known always run,
/// unless they are skipped.
pub(crate) fn reason_of(
    alloc: Global,
    tables: &PathTables,
    build: &[u8],
    skips_unnamed: bool,
    test: &Test,
) -> Result<Option<Reason>, AllocError>
    ensures { IfOk result (λ reason. option_map why_of reason
        ≡ reason_by (kinds_in tables.now) build.now skips_unnamed (test_model test.now)) }
{
    let names = names_of_test(alloc, build, test)?;
    if let Some(reason) = first_named(alloc, tables, &names)? {
        return Ok(Some(reason));
    }
    if skips_unnamed {
        return Ok(None);
    }
    Ok(without_link(tables, test, &names))
}

/// Returns the reason of the first of the given paths that has a link, if any.
fn first_named(
    alloc: Global,
    tables: &PathTables,
    paths: &[Vec<u8>],
) -> Result<Option<Reason>, AllocError>
    ensures { IfOk result (λ reason. option_map why_of reason
        ≡ first_named (kinds_in tables.now) (map (λ path. path.items) paths.now)) }
{
    'paths: for path in paths {
        if let Some(link) = tables.link_of(path) {
            let path = Vec::from_slice(alloc, path)?;
            return Ok(Some(Reason::Named(link, path)));
        }
    }
    Ok(None)
}

/// Returns why a test is chosen although none of its names has a link.
fn without_link(tables: &PathTables, test: &Test, names: &[Vec<u8>]) -> Option<Reason>
    ensures { option_map why_of result ≡ without_link (kinds_in tables.now)
        (test_model test.now) (map (λ name. name.items) names.now) }
{
    if is_unknown(test) {
        return Some(Reason::UnknownCommand);
    }
    if has_outputs(tables, names) {
        return None;
    }
    Some(Reason::Unnamed)
}

/// Whether any of the given paths is an output, or a directory with an output.
fn has_outputs(tables: &PathTables, names: &[Vec<u8>]) -> bool
    ensures { result ≡ list_any (is_of_outputs (kinds_in tables.now))
        (map (λ name. name.items) names.now) }
{
    names.iter().any(|name| tables.is_of_outputs(name))
}
