//! The undeclared inputs that were found so far.

ghost use Rattle.std.specs.Prelude.{◌≡◌, ◌<◌, ◌∷◌, ◌++◌, ℕ, List, Some, [], length, map, All, IfOk, OnOk, bytes_eq};
ghost use Rattle.nj_graph.specs.Cited.{clean_path_of, name_at, EdgeGraph, each_once, AreThose, InputOfEdge, IsUndeclared, input_of_edge, inputs_of_edge, AddsFile, AreMade, FindsAt, IsFound, IsKnownIfAny, MadeIs, numbers_of};

use crate::made_files::MadeFile;
use crate::undeclared::UndeclaredInput;
use nj_deps::PathNo;
use nj_edges::{EdgeGraph, EdgeNo, NeedsSearch};
use nj_names::RoundSet;
use std::alloc::{AllocError, Global};

/// Undeclared inputs that were found, and the search for further inputs.
#[derive(Drop)]
pub(crate) struct FoundInputs<'a> {
    pub(crate) inputs: Vec<UndeclaredInput>,
    // the files of the inputs that were found for one edge
    files: RoundSet,
    search: NeedsSearch<'a>,
}

impl<'a> FoundInputs<'a> {
    /// Nothing found yet among the edges and files of a graph.
    pub(crate) fn none_in(
        alloc: Global,
        graph: &'a EdgeGraph,
    ) -> Result<FoundInputs<'a>, AllocError>
        ensures found { IfOk result (IsFound graph.now) }
        ensures none { IfOk result (λ found. found.inputs.items ≡ []) }
    {
        Ok(FoundInputs {
            inputs: Vec::new(alloc),
            files: RoundSet::none_below(alloc, graph.file_count())?,
            search: NeedsSearch::new(alloc, graph),
        })
    }

    /// Adds the undeclared inputs among those that a log names for an edge by the given numbers of
    /// the log's paths.
    pub(crate) fn add_edge(
        &mut self,
        graph: &EdgeGraph,
        edge: EdgeNo,
        made: &[Option<MadeFile>],
        numbers: &[PathNo],
    ) -> Result<(), AllocError>
        requires found { IsFound graph.now self.old }
        requires edge { edge.0 < length graph.now.edges }
        requires made { All (IsKnownIfAny graph.now) made.now }
        requires numbers { All (λ number. number.0 < length made.now) numbers.now }
        ensures found { OnOk result (IsFound graph.now self.new) }
        ensures added { (paths : List (List ℕ)) (before : List InputOfEdge)
            → AreMade graph.now paths made.now
            → AreThose (IsUndeclared graph.now.edges) before
            (map (input_of_edge graph.now.files) self.old.inputs.items)
            → OnOk result (AreThose (IsUndeclared graph.now.edges)
            (before ++ inputs_of_edge edge.0
            (each_once bytes_eq
            (map clean_path_of (map (name_at paths) (numbers_of numbers.now)))))
            (map (input_of_edge graph.now.files) self.new.inputs.items)) }
    {
        self.files.clear();
        'numbers: for number in numbers {
            self.add_input(graph, edge, made[number.0 as usize])?;
        }
        Ok(())
    }

    // Adds a file that is named for an edge, if it is an undeclared input and was not added.
    fn add_input(
        &mut self,
        graph: &EdgeGraph,
        edge: EdgeNo,
        made: Option<MadeFile>,
    ) -> Result<(), AllocError>
        requires found { IsFound graph.now self.old }
        requires edge { edge.0 < length graph.now.edges }
        requires made { IsKnownIfAny graph.now made }
        ensures found { OnOk result (IsFound graph.now self.new) }
        ensures added { (before : List InputOfEdge) (paths : List (List ℕ)) (path : List ℕ)
            → MadeIs graph.now path made → FindsAt graph.now edge.0 before paths self.old
            → OnOk result (FindsAt graph.now edge.0 before (paths ++ path ∷ []) self.new) }
    {
        match made {
            Some(made) => self.add_made(graph, edge, made),
            None => Ok(()),
        }
    }

    // The same for a file that an edge makes.
    fn add_made(
        &mut self,
        graph: &EdgeGraph,
        edge: EdgeNo,
        made: MadeFile,
    ) -> Result<(), AllocError>
        requires found { IsFound graph.now self.old }
        requires edge { edge.0 < length graph.now.edges }
        requires made { IsKnownIfAny graph.now (Some made) }
        ensures found { OnOk result (IsFound graph.now self.new) }
        ensures added { (before : List InputOfEdge) (paths : List (List ℕ)) (path : List ℕ)
            → MadeIs graph.now path (Some made) → FindsAt graph.now edge.0 before paths self.old
            → OnOk result (FindsAt graph.now edge.0 before (paths ++ path ∷ []) self.new) }
    {
        let is_declared = self.search.is_or_needs(edge, made.maker)?;
        if is_declared {
            return Ok(());
        }
        let file = made.file;
        self.add_undeclared(UndeclaredInput { edge, file })?;
        Ok(())
    }

    // Adds an undeclared input, unless it was added for its edge.
    fn add_undeclared(&mut self, input: UndeclaredInput) -> Result<(), AllocError>
        requires { input.file.0 < self.old.files.limit }
        ensures { OnOk result (AddsFile input self.old self.new) }
    {
        if self.files.insert(input.file.0)? {
            self.inputs.push(input)?;
        }
        Ok(())
    }
}
