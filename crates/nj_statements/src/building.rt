//! The edges that were read so far, and the defaults.

ghost use Rattle.std.specs.Prelude.{◌≡◌, ℕ, ◌<◌, List, [], ◌∷◌, Some, option_map, length, slice_get, vec_len, vec_capacity, OnOk, OnErr, IfSome};
ghost use Rattle.nj_statements.specs.Cited.{option_or, words_model, outputs_model, used_rule, inputs_model, lines_model, build_model, DefaultModel, IsPrefix, IsScope, parent_at, first_given, DeclaredBy, ReadStatement, rule_in_force, rules_read, no_files, Values, paths_given, line_values, edge_of_build, edges_read, paths_of_edges, paths_fault, late_fault, target_fault, build_fault, default_fault, Checks, HasEdges, ComesTo, AddsNothing, ReadsStatement, entry_at_place, SeesNames, AddsTargets, with_dyndep};

use crate::built::Built;
use crate::context::Context;
use crate::edge_record::Detail;
use crate::records::{DyndepEdge, EdgeRecords};
use crate::rule_references::{UsedRule, keep_references, rule_references};
use crate::scratch::Capacity;
use crate::stated_block::bind_block;
use crate::stated_files::add_edge;
use crate::string_numbers::file_number;
use nj_edge_env::{Blocks, KeyReferences};
use nj_edges::{EdgeNo, Edges, FileNo};
use nj_faults::{Cause, GraphFault, Name, PlaceRef};
use nj_manifest::Build;
use nj_names::Names;
use nj_scope::{Declarations, HashKeys, ScopeNo};
use nj_text::Word;
use std::alloc::Global;
use std::marker::Model;
use std::mem::drop;

/// The edges of the build statements that were read so far, and the defaults ("Build statements"
/// and "Default target statements" in the Ninja manual).
#[derive(Drop)]
pub struct Building {
    edges: Edges,
    records: EdgeRecords,
    // for each rule by number, which of its variables refer to which, once an edge has used it
    references: Vec<Option<KeyReferences>>,
    capacity: Capacity,
}

impl Model for Building {
    ghost use Rattle.std.specs.Prelude.{◌≤◌, length};
    ghost use Rattle.nj_statements.specs.Answers.{BuildingModel};
    ghost use Rattle.nj_statements.specs.Inside.EdgeSteps.{AreClean};

    ghost Value = { BuildingModel };

    ghost use Rattle.nj_statements.specs.Inside.BuildingFields.{building_of};

    ghost view = { building_of };

    ghost invariant = { λ b. (b.records.blocks.last ≤ length b.records.details)
        × AreClean b.edges.files };
}

impl Building {
    /// Returns a `Building` without edges. Does not allocate. Names and paths are hashed with the
    /// given keys.
    pub fn new(alloc: Global, keys: HashKeys) -> Building
        ensures { HasEdges result [] }
    {
        Building {
            edges: Edges::new(alloc, keys),
            records: EdgeRecords {
                blocks: Blocks::new(alloc, keys),
                names: Names::new(alloc, keys),
                details: Vec::new(alloc),
                defaults: Vec::new(alloc),
                dyndeps: Vec::new(alloc),
            },
            references: Vec::new(alloc),
            capacity: Capacity::new(alloc),
        }
    }

    /// Reads a build statement as an edge.
    ///
    /// # Errors
    ///
    /// The first fault of the statement: an unknown rule, then its outputs from left to right, each
    /// an empty path or a file with a maker already, then an empty path among its inputs and
    /// validations, and then a cycle of the rule's variables, a pool that is not declared, or a
    /// dyndep file that is not an input ("Rule variables", "Pools" and "Dynamic Dependencies" in
    /// the manual). After a fault the edges and defaults are those that were read before, but the
    /// faulty edge may be read in part, and nothing more may be read.
    pub fn read_build(
        &mut self,
        alloc: Global,
        declarations: &Declarations,
        place: PlaceRef<'_>,
        scope: ScopeNo,
        build: &Build<'_>,
    ) -> Result<(), GraphFault>
        requires { scope.0 < length declarations.now.scopes }
        ensures reads { (entries : List ReadStatement) (around : List ℕ) (depth : ℕ)
            → DeclaredBy declarations.now entries
            → IsScope (parent_at declarations.now.scopes) scope.0 (scope.0 ∷ around)
            → HasEdges self.old entries
            → let e = entry_at_place place.entry scope.0 around depth (build_model build.now) in
            ReadsStatement self.new (build_fault e entries (outputs_model build.now)
            (used_rule build.now) (inputs_model build.now)
            (lines_model build.now.lines.items)) e entries result }
        ensures refused { OnErr result (AddsNothing self.old self.new) }
    {
        let rule = match rule_named(declarations, scope, build.rule) {
            Some(rule) => rule,
            None => {
                let cause = Cause::UnknownRule(Name::new(alloc, build.rule)?);
                let file = place.file;
                let place = PlaceRef {
                    file,
                    spot: build.rule_spot,
                };
                return Err(place.fault(alloc, cause));
            }
        };
        self.read_edge(alloc, declarations, place, scope, build, rule)
    }

    // Reads a build statement that has the given rule.
    fn read_edge(
        &mut self,
        alloc: Global,
        declarations: &Declarations,
        place: PlaceRef<'_>,
        scope: ScopeNo,
        build: &Build<'_>,
        rule: UsedRule<'_>,
    ) -> Result<(), GraphFault>
        requires { scope.0 < length declarations.now.scopes }
        ensures reads { (entries : List ReadStatement) (around : List ℕ) (depth : ℕ)
            → DeclaredBy declarations.now entries
            → IsScope (parent_at declarations.now.scopes) scope.0 (scope.0 ∷ around)
            → rule_in_force entries (scope.0 ∷ around) build.now.rule.now
            ≡ Some rule.entry.number.0
            → slice_get (rules_read entries) rule.entry.number.0 ≡ Some rule.entry.rule.now
            → HasEdges self.old entries
            → let e = entry_at_place place.entry scope.0 around depth (build_model build.now) in
            let outputs = outputs_model build.now in
            let inputs = inputs_model build.now in
            let lines = lines_model build.now.lines.items in
            ReadsStatement self.new (option_or (paths_fault e.file (line_values e entries lines)
            (paths_of_edges (edges_read entries)) outputs inputs) (late_fault entries
            (edge_of_build e entries outputs (used_rule build.now) inputs lines)))
            e entries result }
        ensures refused { OnErr result (AddsNothing self.old self.new) }
    {
        let records = &mut self.records;
        let number = records.details.as_slice().len();
        // Capacity is reserved first, so that nothing can fail once the edge is added.
        records.details.reserve(1)?;
        records.dyndeps.reserve(1)?;
        let file = file_number(&mut records.names, records.details.last(), place.file)?;
        let detail = Detail::new(file, place.spot, scope, rule.number)?;
        keep_references(alloc, &mut self.references, rule)?;
        bind_block(
            &mut records.blocks,
            &mut self.capacity.text,
            declarations,
            scope,
            number,
            build.lines.as_slice(),
        )?;
        let context = Context {
            alloc,
            place,
            scope,
            declarations,
            blocks: &records.blocks,
            edge: number,
        };
        let references = rule_references(&self.references, rule.number);
        let edge = self.edges.open_edge();
        let assigned = add_edge(
            context,
            &mut self.capacity,
            &mut self.edges,
            &mut records.names,
            build,
            rule,
            references,
        )?;
        push_dyndep(&mut records.dyndeps, edge, assigned.file);
        records.details.push_reserved(detail.with(assigned));
        Ok(())
    }

    /// Reads a `default` statement.
    ///
    /// # Errors
    ///
    /// The fault of the first faulty word: an empty path, or a file that no earlier build statement
    /// names. Nothing changes then.
    pub fn read_default(
        &mut self,
        alloc: Global,
        declarations: &Declarations,
        place: PlaceRef<'_>,
        scope: ScopeNo,
        words: &[Word<'_>],
    ) -> Result<(), GraphFault>
        requires { scope.0 < length declarations.now.scopes }
        ensures reads { (entries : List ReadStatement) (around : List ℕ) (depth : ℕ)
            → DeclaredBy declarations.now entries
            → IsScope (parent_at declarations.now.scopes) scope.0 (scope.0 ∷ around)
            → HasEdges self.old entries
            → let item = DefaultModel (words_model words.now) in
            let e = entry_at_place place.entry scope.0 around depth item in
            ReadsStatement self.new (default_fault e entries (words_model words.now))
            e entries result }
        ensures refused { OnErr result (self.new ≡ self.old) }
    {
        let records = &mut self.records;
        let context = Context {
            alloc,
            place,
            scope,
            declarations,
            blocks: &records.blocks,
            edge: records.details.as_slice().len(),
        };
        let count = records.defaults.as_slice().len();
        match add_targets(
            context,
            &mut self.capacity,
            &self.edges,
            &mut records.defaults,
            words,
        ) {
            Ok(()) => Ok(()),
            Err(fault) => {
                records.defaults.truncate(count);
                Err(fault)
            }
        }
    }

    /// Returns the result of the statements, which must have no faults. Takes time in proportion to
    /// the edges and their inputs.
    ///
    /// # Errors
    ///
    /// A dependency cycle: at the statement of the lowest-numbered edge that lies on a cycle
    /// itself, with the first output of that edge. An edge that only leads into a cycle is not
    /// named.
    pub fn finish(self, alloc: Global) -> Result<Built, GraphFault>
        requires { (entries : List ReadStatement) × HasEdges self entries }
        ensures { (entries : List ReadStatement) → HasEdges self entries
            → ComesTo entries result }
    {
        let Building { edges, records, .. } = self;
        match edges.finish(alloc) {
            Ok(finished) => records.finish(alloc, finished),
            Err(error) => {
                drop(records);
                Err(GraphFault::from(error))
            }
        }
    }
}

// Appends the given edge, if it is bound to a dyndep file.
fn push_dyndep(dyndeps: &mut Vec<DyndepEdge>, edge: EdgeNo, file: Option<FileNo>)
    requires { vec_len dyndeps.old < vec_capacity dyndeps.old }
    ensures { dyndeps.new.items ≡ with_dyndep edge file dyndeps.old.items }
{
    if let Some(file) = file {
        dyndeps.push_reserved(DyndepEdge { edge, file });
    }
}

// Appends the files that words name; an earlier edge has to name each of them.
fn add_targets(
    context: Context<'_>,
    capacity: &mut Capacity,
    edges: &Edges,
    targets: &mut Vec<FileNo>,
    words: &[Word<'_>],
) -> Result<(), GraphFault>
    ensures fault { (values : Values) → SeesNames context.entry values
        → edges.now.«open» ≡ no_files
        → Checks (first_given (target_fault context.entry.place.file.now values edges.now.edges)
        (words_model words.now)) result }
    ensures added { (values : Values) → SeesNames context.entry values
        → OnOk result (AddsTargets edges.now.files targets.old.items targets.new.items
        (paths_given values (words_model words.now))) }
    ensures kept { IsPrefix targets.old.items targets.new.items }
{
    'words: for word in words {
        let file = context.named_file(capacity, edges, word)?;
        targets.push(file)?;
    }
    Ok(())
}

// The rule that is in force under the name in the given scope.
fn rule_named<'a>(
    declarations: &'a Declarations,
    scope: ScopeNo,
    name: &[u8],
) -> Option<UsedRule<'a>>
    requires { scope.0 < length declarations.now.scopes }
    ensures number { (entries : List ReadStatement) (around : List ℕ)
        → DeclaredBy declarations.now entries
        → IsScope (parent_at declarations.now.scopes) scope.0 (scope.0 ∷ around)
        → option_map (λ r. r.number.0) result ≡ rule_in_force entries (scope.0 ∷ around) name.now }
    ensures rule { (entries : List ReadStatement) → DeclaredBy declarations.now entries
        → IfSome result (λ r. slice_get (rules_read entries) r.number.0 ≡ Some r.rule.now) }
{
    let number = declarations.rule(scope, name)?;
    let rule = declarations.rules().get(number.0)?;
    Some(UsedRule { number, rule })
}
