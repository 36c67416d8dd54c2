//! The blocks of build statements.

ghost use Rattle.std.specs.Prelude.{◌≡◌, ℕ, ◌<◌, ◌≤◌, ◌==◌, if◌then◌else◌, false, List, [], ◌∷◌, None, length, IfOk, OnOk};
ghost use Rattle.nj_statements.specs.Cited.{option_or, lines_model, word_model, IsScope, expanded, parent_at, DeclaredBy, ReadStatement, value_after, bound_in, names_in, block_of, names_bound};

use crate::scratch::only_bytes;
use nj_edge_env::Blocks;
use nj_manifest::Line;
use nj_scope::{Declarations, ScopeNo};
use nj_text::Word;
use std::alloc::AllocError;

/// Binds the lines of an edge's block; `text` is a buffer for their values.
pub(crate) fn bind_block(
    blocks: &mut Blocks,
    text: &mut Vec<u8>,
    declarations: &Declarations,
    scope: ScopeNo,
    edge: usize,
    lines: &[Line<'_>],
) -> Result<(), AllocError>
    requires scope { scope.0 < length declarations.now.scopes }
    requires last { blocks.old.last ≤ edge }
    ensures bound { (entries : List ReadStatement) (around : List ℕ)
        → DeclaredBy declarations.now entries
        → IsScope (parent_at declarations.now.scopes) scope.0 (scope.0 ∷ around)
        → OnOk result ((e : ℕ) (name : List ℕ) → bound_in blocks.new e name
        ≡ (if e == edge then option_or (block_of (value_after entries (scope.0 ∷ around))
        (lines_model lines.now) name) (bound_in blocks.old e name)
        else bound_in blocks.old e name)) }
    ensures others { (e : ℕ) (name : List ℕ) → e < edge
        → bound_in blocks.new e name ≡ bound_in blocks.old e name }
    ensures names { ((name : List ℕ) → bound_in blocks.old edge name ≡ None)
        → names_in blocks.old edge ≡ []
        → OnOk result (names_in blocks.new edge ≡ names_bound (lines_model lines.now)) }
    ensures other_names { (e : ℕ) → (e == edge) ≡ false
        → names_in blocks.new e ≡ names_in blocks.old e }
    ensures last { blocks.new.last ≤ edge }
{
    'lines: for line in lines {
        let value = value_of(declarations, scope, &line.value, text)?;
        blocks.bind(edge, line.name, value)?;
    }
    Ok(())
}

// The value of a word in the given scope: a slice of its file if it has no reference and no escape.
// Any other value is put into the text.
fn value_of<'w>(
    declarations: &Declarations,
    scope: ScopeNo,
    word: &'w Word<'_>,
    text: &'w mut Vec<u8>,
) -> Result<&'w [u8], AllocError>
    requires { scope.0 < length declarations.now.scopes }
    ensures { (entries : List ReadStatement) (around : List ℕ)
        → DeclaredBy declarations.now entries
        → IsScope (parent_at declarations.now.scopes) scope.0 (scope.0 ∷ around)
        → IfOk result (λ value. value.now
        ≡ expanded (value_after entries (scope.0 ∷ around)) (word_model word.now).parts) }
{
    if let Some(bytes) = only_bytes(word) {
        return Ok(bytes);
    }
    text.clear();
    declarations.append_expanded(scope, word, text)?;
    Ok(text.as_slice())
}
