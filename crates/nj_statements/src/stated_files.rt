//! The files that a build statement names.

ghost use Rattle.std.specs.Prelude.{◌≡◌, ℕ, List, ◌==◌, ◌<◌, ◌≤◌, ◌+◌, ◌++◌, false, Some, length, slice_get, codes, IfOk, IfSome, OnOk, OnErr};
ghost use Rattle.nj_statements.specs.Cited.{expanded, first_given, is_empty, clean_path_of, word_model, words_model, outputs_model, inputs_model, IsPrefix, no_files, EndWithin, edge_read, late_names, asked_text, TellsCycles, Values, path_given, paths_given, stated_paths, loses_own, edge_paths, file_given, empty_path, target_fault, outputs_fault, inputs_fault, paths_fault, Checks, AreNumbersOf, AreClean, KeepsClean, SeesNames, IsFileGiven, assigned_by, bound_by, Grows, AddsInputs, AddsEdge, names_read, with_outputs, with_input_unless, with_inputs, with_validations, edge_fault, names_meant, paths_meant};

use crate::context::Context;
use crate::edge_record::Assigned;
use crate::rule_references::UsedRule;
use crate::scratch::{Capacity, only_bytes};
use nj_edge_env::{KeyReferences, LateEdge};
use nj_edges::{Edges, FileNo, KindEnds};
use nj_faults::{Cause, GraphFault, Name};
use nj_manifest::{Build, Word};
use nj_names::Names;
use nj_scope::PHONY;
use std::alloc::AllocError;

impl Context<'_> {
    /// The file that a word names, which an earlier edge has to name.
    pub(crate) fn named_file(
        self,
        capacity: &mut Capacity,
        edges: &Edges,
        word: &Word<'_>,
    ) -> Result<FileNo, GraphFault>
        ensures fault { (values : Values) → SeesNames self.entry values
            → edges.now.«open» ≡ no_files
            → Checks (target_fault self.entry.place.file.now values edges.now.edges
            (word_model word.now)) result }
        ensures file { (values : Values) → SeesNames self.entry values
            → IfOk result (λ file. slice_get edges.now.files file.0
            ≡ Some (path_given values (word_model word.now))) }
    {
        let path = self.path(capacity, word)?;
        match edges.file_named(path) {
            Some(file) => Ok(file),
            None => {
                let cause = Cause::UnknownTarget(Name::new(self.alloc, path)?);
                Err(self.fault(word.spot, cause))
            }
        }
    }

    /// Appends outputs to the edge that is being read.
    #[tactic(auto, using(crate::proofs::Keeps::keeps_all, crate::proofs::Keeps::keeps_same, crate::proofs::Keeps::keeps_output))]
    pub(crate) fn add_outputs(
        self,
        capacity: &mut Capacity,
        edges: &mut Edges,
        words: &[Word<'_>],
    ) -> Result<(), GraphFault>
        ensures fault { (values : Values) → SeesNames self.entry values
            → Checks (outputs_fault self.entry.place.file.now values edges.old.edges
            edges.old.«open».outputs (words_model words.now)) result }
        ensures added { (values : Values) → SeesNames self.entry values
            → OnOk result (edges.new
            ≡ with_outputs edges.old (paths_given values (words_model words.now))) }
        ensures grows { OnOk result (Grows (length words.now) edges.old edges.new) }
        ensures keeps { KeepsClean edges.old edges.new }
    {
        'words: for word in words {
            let path = self.path(capacity, word)?;
            if !edges.add_output(path)? {
                let cause = Cause::TwoMakers(Name::new(self.alloc, path)?);
                return Err(self.fault(word.spot, cause));
            }
        }
        Ok(())
    }

    /// Appends inputs to the edge that is being read, without its own outputs if it loses them.
    #[tactic(auto, using(crate::proofs::Keeps::keeps_all, crate::proofs::Keeps::keeps_same))]
    pub(crate) fn add_inputs(
        self,
        capacity: &mut Capacity,
        edges: &mut Edges,
        words: &[Word<'_>],
        loses_own: bool,
    ) -> Result<(), GraphFault>
        requires { AreClean edges.old.files }
        ensures fault { (values : Values) → SeesNames self.entry values
            → Checks (first_given (empty_path self.entry.place.file.now values)
            (words_model words.now)) result }
        ensures added { (values : Values) → SeesNames self.entry values
            → OnOk result (edges.new
            ≡ with_inputs loses_own edges.old (paths_given values (words_model words.now))) }
        ensures grows { OnOk result (Grows 0 edges.old edges.new) }
        ensures keeps { KeepsClean edges.old edges.new }
    {
        'words: for word in words {
            self.add_input(capacity, edges, word, loses_own)?;
        }
        Ok(())
    }

    // Appends the input that a word names. A file that an edge names already is found by the word
    // itself, so that its path is not cleaned again.
    fn add_input(
        self,
        capacity: &mut Capacity,
        edges: &mut Edges,
        word: &Word<'_>,
        loses_own: bool,
    ) -> Result<(), GraphFault>
        requires { AreClean edges.old.files }
        ensures fault { (values : Values) → SeesNames self.entry values
            → Checks (empty_path self.entry.place.file.now values (word_model word.now)) result }
        ensures added { (values : Values) → SeesNames self.entry values
            → OnOk result (edges.new ≡ with_input_unless loses_own edges.old
            (path_given values (word_model word.now))) }
        ensures named { OnOk result ((path : List ℕ) × (clean_path_of path ≡ path)
            × (edges.new ≡ with_input_unless loses_own edges.old path)) }
        ensures refused { OnErr result (edges.new ≡ edges.old) }
    {
        if let Some(file) = known_file(edges, word) {
            add_known_input(edges, file, loses_own)?;
            return Ok(());
        }
        let path = self.path(capacity, word)?;
        add_input(edges, path, loses_own)?;
        Ok(())
    }

    /// Appends validations to the edge that is being read.
    #[tactic(auto, using(crate::proofs::Keeps::keeps_all, crate::proofs::Keeps::keeps_same, crate::proofs::Keeps::keeps_validation))]
    pub(crate) fn add_validations(
        self,
        capacity: &mut Capacity,
        edges: &mut Edges,
        words: &[Word<'_>],
    ) -> Result<(), GraphFault>
        ensures fault { (values : Values) → SeesNames self.entry values
            → Checks (first_given (empty_path self.entry.place.file.now values)
            (words_model words.now)) result }
        ensures added { (values : Values) → SeesNames self.entry values
            → OnOk result (edges.new
            ≡ with_validations edges.old (paths_given values (words_model words.now))) }
        ensures grows { OnOk result (Grows 0 edges.old edges.new) }
        ensures keeps { KeepsClean edges.old edges.new }
    {
        'words: for word in words {
            let path = self.path(capacity, word)?;
            edges.add_validation(path)?;
        }
        Ok(())
    }
}

// The file of a word that is the path of a file already. The word is then clean, since the paths of
// all files are.
fn known_file(edges: &Edges, word: &Word<'_>) -> Option<FileNo>
    requires { AreClean edges.now.files }
    ensures file { (values : Values) → IfSome result (λ file. slice_get edges.now.files file.0
        ≡ Some (path_given values (word_model word.now))) }
    ensures meant { (values : Values) → IfSome result (λ _.
        is_empty (expanded values (word_model word.now).parts) ≡ false) }
{
    let path = only_bytes(word)?;
    edges.file_named(path)
}

// Appends an input to the edge that is being read, by the number of its file, unless the edge makes
// the file and loses its own outputs.
fn add_known_input(edges: &mut Edges, file: FileNo, loses_own: bool) -> Result<(), AllocError>
    requires { file.0 < length edges.old.files }
    ensures added { (path : List ℕ) → slice_get edges.old.files file.0 ≡ Some path
        → OnOk result (edges.new ≡ with_input_unless loses_own edges.old path) }
    ensures refused { OnErr result (edges.new ≡ edges.old) }
{
    if loses_own {
        edges.add_known_input_of_another(file)
    } else {
        edges.add_known_input(file)
    }
}

// Appends an input to the edge that is being read, unless the edge makes the file and loses its own
// outputs.
fn add_input(edges: &mut Edges, path: &[u8], loses_own: bool) -> Result<(), AllocError>
    ensures added { OnOk result (edges.new ≡ with_input_unless loses_own edges.old path.now) }
    ensures refused { OnErr result (edges.new ≡ edges.old) }
{
    if loses_own {
        edges.add_input_of_another(path)
    } else {
        edges.add_input(path)
    }
}

// Appends all outputs of a build statement to the edge that is being read.
#[tactic(auto, using(crate::proofs::Keeps::keeps_then))]
fn add_all_outputs(
    context: Context<'_>,
    capacity: &mut Capacity,
    edges: &mut Edges,
    build: &Build<'_>,
) -> Result<(), GraphFault>
    ensures fault { (values : Values) → SeesNames context.entry values
        → Checks (outputs_fault context.entry.place.file.now values edges.old.edges
        edges.old.«open».outputs ((outputs_model build.now).explicit
        ++ (outputs_model build.now).implicit)) result }
    ensures added { (values : Values) → SeesNames context.entry values
        → OnOk result (edges.new ≡ with_outputs (with_outputs edges.old
        (paths_given values (outputs_model build.now).explicit))
        (paths_given values (outputs_model build.now).implicit)) }
    ensures grows { OnOk result (Grows (length build.now.explicit_outs.items
        + length build.now.implicit_outs.items) edges.old edges.new) }
    ensures keeps { KeepsClean edges.old edges.new }
{
    context.add_outputs(capacity, edges, build.explicit_outs.as_slice())?;
    context.add_outputs(capacity, edges, build.implicit_outs.as_slice())
}

// Appends all inputs and validations of a build statement to the edge that is being read. Returns
// where its explicit and its implicit inputs end.
#[tactic(auto, using(crate::proofs::Keeps::keeps_then))]
fn add_all_inputs(
    context: Context<'_>,
    capacity: &mut Capacity,
    edges: &mut Edges,
    build: &Build<'_>,
    loses_own: bool,
) -> Result<(usize, usize), GraphFault>
    requires { AreClean edges.old.files }
    ensures fault { (values : Values) → SeesNames context.entry values
        → Checks (inputs_fault context.entry.place.file.now values (inputs_model build.now)) result }
    ensures added { (values : Values) → SeesNames context.entry values
        → IfOk result (λ ends. AddsInputs loses_own values (inputs_model build.now)
        edges.old edges.new ends) }
    ensures within { IfOk result (λ ends. (ends.0 ≤ ends.1)
        × (ends.1 ≤ length edges.new.«open».inputs)) }
    ensures grows { OnOk result (Grows 0 edges.old edges.new) }
    ensures keeps { KeepsClean edges.old edges.new }
{
    context.add_inputs(capacity, edges, build.explicit.as_slice(), loses_own)?;
    let explicit = edges.open_inputs();
    context.add_inputs(capacity, edges, build.implicit.as_slice(), loses_own)?;
    let implicit = edges.open_inputs();
    context.add_inputs(capacity, edges, build.order_only.as_slice(), loses_own)?;
    context.add_validations(capacity, edges, build.validations.as_slice())?;
    Ok((explicit, implicit))
}

// Reads the files of a build statement into the edge that is being read. Returns where its kinds
// end.
#[tactic(auto, using(crate::proofs::Keeps::keeps_then))]
fn add_files(
    context: Context<'_>,
    capacity: &mut Capacity,
    edges: &mut Edges,
    build: &Build<'_>,
    is_phony: bool,
) -> Result<KindEnds, GraphFault>
    requires { AreClean edges.old.files }
    ensures fault { (values : Values) → SeesNames context.entry values
        → edges.old.«open» ≡ no_files
        → Checks (paths_fault context.entry.place.file.now values edges.old.edges
        (outputs_model build.now) (inputs_model build.now)) result }
    ensures named { (values : Values) → SeesNames context.entry values
        → edges.old.«open» ≡ no_files
        → IfOk result (λ kinds. edge_read edges.new.«open» kinds is_phony ≡ edge_paths
        (stated_paths values (outputs_model build.now) (inputs_model build.now)
        is_phony)) }
    ensures within { IfOk result (λ kinds. EndWithin kinds (length edges.new.«open».outputs)
        (length edges.new.«open».inputs)) }
    ensures keeps { KeepsClean edges.old edges.new }
{
    add_all_outputs(context, capacity, edges, build)?;
    let loses_own = loses_own(build, is_phony);
    let (explicit_inputs, implicit_inputs) = add_all_inputs(
        context, capacity, edges, build, loses_own,
    )?;
    Ok(KindEnds {
        explicit_outputs: build.explicit_outs.as_slice().len(),
        explicit_inputs,
        implicit_inputs,
    })
}

// The edge that is being read, with the given ends of its kinds, for its late strings.
fn late_edge<'a>(
    context: Context<'a>,
    edges: &'a Edges,
    kinds: KindEnds,
    rule: UsedRule<'a>,
) -> LateEdge<'a>
    requires { EndWithin kinds (length edges.now.«open».outputs)
        (length edges.now.«open».inputs) }
    ensures declarations { result.declarations.now ≡ context.entry.declarations.now }
    ensures scope { result.scope.0 ≡ context.entry.scope.0 }
    ensures names { (file : Values) → late_names result file
        ≡ names_read (edge_read edges.now.«open» kinds (rule.entry.number.0 == 0))
        (bound_by context.entry) rule.entry.rule.now file }
{
    LateEdge {
        files: edges.files(),
        inputs: &edges.open_input_files()[..kinds.explicit_inputs],
        outputs: &edges.open_output_files()[..kinds.explicit_outputs],
        blocks: context.blocks,
        edge: context.edge,
        rule: rule.rule,
        declarations: context.declarations,
        scope: context.scope,
    }
}

/// Reads a build statement as an edge, which is then the last edge. Returns its assignment.
#[tactic(auto, using(crate::proofs::Keeps::keeps_same))]
pub(crate) fn add_edge(
    context: Context<'_>,
    capacity: &mut Capacity,
    edges: &mut Edges,
    strings: &mut Names,
    build: &Build<'_>,
    rule: UsedRule<'_>,
    references: &KeyReferences,
) -> Result<Assigned, GraphFault>
    requires { AreClean edges.old.files }
    ensures fault { (values : Values) (sees : SeesNames context.entry values)
        → edges.old.«open» ≡ no_files
        → TellsCycles rule.entry.rule.now.lines references.now
        → Checks (edge_fault context.entry build.now rule.entry values sees edges.old.edges)
        result }
    ensures added { (values : Values) → SeesNames context.entry values
        → edges.old.«open» ≡ no_files
        → OnOk result (AddsEdge edges.old edges.new (paths_meant build.now rule.entry values)) }
    ensures dyndep { (values : Values) (sees : SeesNames context.entry values)
        → edges.old.«open» ≡ no_files
        → IfOk result (λ a. IsFileGiven edges.new.files a.file (file_given (asked_text
        (names_meant context.entry build.now rule.entry values sees) (codes "dyndep")))) }
    ensures assigned { (values : Values) (sees : SeesNames context.entry values)
        → edges.old.«open» ≡ no_files
        → IfOk result (λ a. AreNumbersOf strings.new a
        (assigned_by (names_meant context.entry build.now rule.entry values sees))) }
    ensures grows { IsPrefix strings.old strings.new }
    ensures clean { OnOk result (AreClean edges.new.files) }
    ensures refused { OnErr result (KeepsClean edges.old edges.new) }
{
    let is_phony = rule.number.0 == PHONY.0;
    let kinds = add_files(context, capacity, edges, build, is_phony)?;
    let edge = late_edge(context, edges, kinds, rule);
    let assigned = context.check_late(edge, capacity, edges, strings, references)?;
    edges.end_edge(kinds, is_phony)?;
    Ok(assigned)
}

// Whether the edge of a build statement loses the inputs that are its own output.
fn loses_own(build: &Build<'_>, is_phony: bool) -> bool
    ensures { (values : Values) → result ≡ loses_own (stated_paths values
        (outputs_model build.now) (inputs_model build.now) is_phony) }
{
    is_phony
        && build.explicit_outs.len() == 1
        && build.implicit_outs.is_empty()
        && build.implicit.is_empty()
}
