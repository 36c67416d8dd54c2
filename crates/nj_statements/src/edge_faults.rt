//! The faults of the rule variables of the edge that is being read.

ghost use Rattle.std.specs.Prelude.{◌≡◌, ◌<◌, List, Some, codes, length, slice_get, IfOk, IfSome, OnOk};
ghost use Rattle.nj_statements.specs.Cited.{LateNames, asked_text, TellsCycles, ReadStatement, pools, variable_cycle_fault, unknown_pool, dyndep_not_input, IsPrefix, file_given, name_given, Checks, numbered, AreNumbersOf, SeesLate, IsFileGiven, assigned_by, names_fault};

use crate::context::Context;
use crate::edge_record::Assigned;
use crate::scratch::Capacity;
use crate::string_numbers::{path_number, string_number};
use nj_edge_env::{KeyReferences, LateEdge};
use nj_edges::{Edges, FileNo};
use nj_faults::{Cause, GraphFault, Name};
use nj_names::Names;
use nj_text::TextFault;
use std::alloc::AllocError;

impl Context<'_> {
    /// Checks the variables of the rule, then the pool, then the dyndep file. Returns the
    /// assignment of the edge.
    pub(crate) fn check_late(
        self,
        edge: LateEdge<'_>,
        capacity: &mut Capacity,
        edges: &Edges,
        strings: &mut Names,
        references: &KeyReferences,
    ) -> Result<Assigned, GraphFault>
        ensures fault { (entries : List ReadStatement) (n : LateNames)
            → SeesLate edge.entry entries n
            → TellsCycles n.lines references.now
            → Checks (names_fault self.entry.place.file.now self.entry.place.spot (pools entries)
            edges.now.«open».inputs n) result }
        ensures file { (entries : List ReadStatement) (n : LateNames)
            → SeesLate edge.entry entries n
            → IfOk result (λ a. IsFileGiven edges.now.files a.file
            (file_given (asked_text n (codes "dyndep")))) }
        ensures assigned { (entries : List ReadStatement) (n : LateNames)
            → SeesLate edge.entry entries n
            → IfOk result (λ a. AreNumbersOf strings.new a (assigned_by n)) }
        ensures grows { IsPrefix strings.old strings.new }
    {
        self.check_cycle(edge, references)?;
        let pool = self.check_pool(edge, &mut capacity.text, strings)?;
        let file = self.check_dyndep(edge, capacity, edges)?;
        let dyndep = path_number(strings, edges.files(), file)?;
        Ok(Assigned { pool, dyndep, file })
    }

    // Refuses a variable of the rule that refers back to itself.
    fn check_cycle(self, edge: LateEdge<'_>, references: &KeyReferences) -> Result<(), GraphFault>
        ensures { (entries : List ReadStatement) (n : LateNames)
            → SeesLate edge.entry entries n
            → TellsCycles n.lines references.now
            → Checks (variable_cycle_fault self.entry.place.file.now
            self.entry.place.spot n) result }
    {
        match references.variable_cycle(self.alloc, edge.blocks, edge.edge)? {
            Some(key) => {
                let cause = Cause::RuleVariableCycle(Name::new(self.alloc, key)?);
                Err(self.place.fault(self.alloc, cause))
            }
            None => Ok(()),
        }
    }

    // Refuses a pool that no earlier statement declares; `text` is a buffer for its name. Returns
    // its number.
    #[tactic(auto, using(crate::proofs::AssignedLemmas::prefix_same))]
    fn check_pool(
        self,
        edge: LateEdge<'_>,
        text: &mut Vec<u8>,
        strings: &mut Names,
    ) -> Result<u32, GraphFault>
        ensures fault { (entries : List ReadStatement) (n : LateNames)
            → SeesLate edge.entry entries n
            → Checks (unknown_pool self.entry.place.file.now self.entry.place.spot (pools entries)
            (asked_text n (codes "pool"))) result }
        ensures number { (entries : List ReadStatement) (n : LateNames)
            → SeesLate edge.entry entries n
            → IfOk result (λ number. slice_get (numbered strings.new) number
            ≡ Some (name_given (asked_text n (codes "pool")))) }
        ensures grows { IsPrefix strings.old strings.new }
    {
        give(edge, text, b"pool")?;
        let pool = text.as_slice();
        if pool.is_empty() {
            return Ok(0);
        }
        if edge.declarations.has_pool(pool) {
            let number = string_number(strings, pool)?;
            return Ok(number);
        }
        let cause = Cause::UnknownPool(Name::new(self.alloc, pool)?);
        Err(self.place.fault(self.alloc, cause))
    }

    // The dyndep file of the edge, if any. Refuses a dyndep file that is not an input of the edge.
    fn check_dyndep(
        self,
        edge: LateEdge<'_>,
        capacity: &mut Capacity,
        edges: &Edges,
    ) -> Result<Option<FileNo>, GraphFault>
        ensures fault { (entries : List ReadStatement) (n : LateNames)
            → SeesLate edge.entry entries n
            → Checks (dyndep_not_input self.entry.place.file.now self.entry.place.spot
            edges.now.«open».inputs (asked_text n (codes "dyndep"))) result }
        ensures file { (entries : List ReadStatement) (n : LateNames)
            → SeesLate edge.entry entries n
            → IfOk result (λ file. IsFileGiven edges.now.files file
            (file_given (asked_text n (codes "dyndep")))) }
        ensures known { IfOk result (λ file. IfSome file (λ f. f.0 < length edges.now.files)) }
    {
        give(edge, &mut capacity.text, b"dyndep")?;
        let path = match capacity.clean_path() {
            Ok(path) => path,
            Err(TextFault::EmptyPath) => return Ok(None),
            Err(TextFault::OutOfMemory) => return Err(GraphFault::out_of_memory()),
        };
        if let Some(file) = edges.open_input(path) {
            return Ok(Some(file));
        }
        let cause = Cause::DyndepNotInput(Name::new(self.alloc, path)?);
        Err(self.place.fault(self.alloc, cause))
    }
}

// Sets a text to the value of a name.
fn give(edge: LateEdge<'_>, text: &mut Vec<u8>, name: &[u8]) -> Result<(), AllocError>
    ensures { (entries : List ReadStatement) (n : LateNames) → SeesLate edge.entry entries n
        → OnOk result (text.new.items ≡ asked_text n name.now) }
{
    text.clear();
    edge.append_late_text(text, name)
}
