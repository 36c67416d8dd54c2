//! Questions of the kind whether an edge needs another.

ghost use Rattle.std.specs.Prelude.{◌≡◌, ◌↔◌, ◌<◌, length, IfOk, IfSome, IsTrue};
ghost use Rattle.nj_edges.specs.Cited.{IsOrNeeds, IsSearch};

use crate::edges::EdgeNo;
use crate::graph::EdgeGraph;
use crate::search_state::SearchState;
use std::alloc::{AllocError, Global};
use std::marker::Model;

/// Answers whether an edge needs another through any chain of inputs, for a series of questions
/// about a graph. All kinds of inputs count equally; validations are not inputs.
///
/// An answer costs a search of the edges that the first edge needs, which stops as soon as the
/// other edge is found. The next question resumes the search if it is about the same edge, or about
/// an edge whose inputs the same edges make. So ask all questions about an edge in a row. A search
/// uses memory for one number per edge of the graph.
#[derive(Drop)]
pub struct NeedsSearch<'a> {
    alloc: Global,
    graph: &'a EdgeGraph,
    // `None` before the first question, and after a question that was not answered
    state: Option<SearchState>,
}

impl<'a> Model for NeedsSearch<'a> {
    ghost use Rattle.std.specs.Prelude.{List, IfSome};
    ghost use Rattle.nj_edges.specs.Edges.{EdgePaths};
    ghost use Rattle.nj_edges.specs.Inside.NeedsSearched.{IsSearch};

    ghost Value = { List EdgePaths };

    ghost view = { λ s. s.graph.now.edges };

    ghost invariant = { λ s. IfSome s.state (IsSearch s.graph.now.edges) };
}

impl<'a> NeedsSearch<'a> {
    /// Asks about the edges of a graph. Allocates nothing.
    pub fn new(alloc: Global, graph: &'a EdgeGraph) -> NeedsSearch<'a>
        ensures { result ≡ graph.entry.now.edges }
    {
        NeedsSearch {
            alloc,
            graph,
            state: None,
        }
    }

    /// Whether an edge is another, or needs it through a chain of inputs. Fails only if an
    /// allocation fails; the next question then starts over.
    pub fn is_or_needs(&mut self, edge: EdgeNo, other: EdgeNo) -> Result<bool, AllocError>
        requires edge { edge.0 < length self.old }
        requires other { other.0 < length self.old }
        ensures needs { IfOk result (λ needs. IsTrue needs ↔ IsOrNeeds self.old edge.0 other.0) }
        ensures edges { self.new ≡ self.old }
    {
        let mut state = state_or_new(self.alloc, self.graph, self.state.take())?;
        let needs = state.is_or_needs(self.graph, edge, other)?;
        self.state = Some(state);
        Ok(needs)
    }
}

// The state that was kept, or the state before the first question.
fn state_or_new(
    alloc: Global,
    graph: &EdgeGraph,
    kept: Option<SearchState>,
) -> Result<SearchState, AllocError>
    requires { IfSome kept (IsSearch graph.now.edges) }
    ensures { IfOk result (IsSearch graph.now.edges) }
{
    match kept {
        Some(state) => Ok(state),
        None => SearchState::among(alloc, graph.edge_count()),
    }
}
