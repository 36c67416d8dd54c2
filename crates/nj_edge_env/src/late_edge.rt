//! Edges, for their late strings.

ghost use Rattle.std.specs.Prelude.{◌<◌, length, All};

use crate::block_values::Blocks;
use nj_names::{FileNo, Files};
use nj_scope::{Declarations, Rule, ScopeNo};

/// An edge, for the values of its names: the files of its explicit inputs and outputs, its number
/// in the blocks, its rule, and the scope that has it.
#[derive(Clone, Copy)]
pub struct LateEdge<'a> {
    /// The files that edges name.
    pub files: &'a Files,
    /// The explicit inputs.
    pub inputs: &'a [FileNo],
    /// The explicit outputs.
    pub outputs: &'a [FileNo],
    /// The values that the blocks of edges bind.
    pub blocks: &'a Blocks,
    /// The number of the edge.
    pub edge: usize,
    /// Its rule.
    pub rule: &'a Rule,
    /// The declarations of the files.
    pub declarations: &'a Declarations,
    /// The number of the scope that has the edge.
    pub scope: ScopeNo,
    ghost inputs_known: { All (λ file. file.0 < length files.now) inputs.now },
    ghost outputs_known: { All (λ file. file.0 < length files.now) outputs.now },
    ghost scope_known: { scope.0 < length declarations.now.scopes },
}
