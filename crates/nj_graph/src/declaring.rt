//! The statements that declare something: bindings, rules and pools.

ghost use Rattle.std.specs.Prelude.{◌≡◌, ◌<◌, length, IfOk, OnOk};
ghost use Rattle.nj_graph.specs.Cited.{word_model, BindingModel, rule_model, pool_model, lines_model, entry_at, depth_fault, depth_of, InFile, InScope, ScopesGrow, Checks, Declares};

use crate::reader::{OpenFile, Reader};
use nj_faults::{Cause, GraphFault, Name, is_newer};
use nj_manifest::{Line, Pool, Rule, Spot, Word};
use nj_scope::is_depth;
use nj_text::leading_number;
use std::alloc::Global;

impl Reader {
    /// Reads a binding.
    pub(crate) fn bind(
        &mut self,
        alloc: Global,
        file: OpenFile<'_>,
        spot: Spot,
        name: &[u8],
        value: &Word<'_>,
    ) -> Result<(), GraphFault>
        requires { file.scope.0 < length self.old.declarations.scopes }
        ensures declares { InFile self.old file.entry (λ main site entries.
            let item = BindingModel name.now (word_model value.now) in
            let e = entry_at site (record { spot = spot; item = item }) in
            Declares main self.new e entries result) }
        ensures files { self.new.files ≡ self.old.files }
        ensures grows { OnOk result (ScopesGrow self.old self.new) }
    {
        self.declarations.bind(alloc, file.scope, name, value)?;
        if name == b"ninja_required_version".as_slice() {
            let version = self.declarations.value(file.scope, name);
            if is_newer(version) {
                let cause = Cause::VersionTooNew(Name::new(alloc, version)?);
                return Err(file.fault(alloc, spot, cause));
            }
        }
        Ok(())
    }

    /// Reads a rule, whose statement is at the given place.
    pub(crate) fn declare_rule(
        &mut self,
        alloc: Global,
        file: OpenFile<'_>,
        spot: Spot,
        rule: &Rule<'_>,
    ) -> Result<(), GraphFault>
        requires { file.scope.0 < length self.old.declarations.scopes }
        ensures declares { InFile self.old file.entry (λ main site entries.
            let e = entry_at site (record { spot = spot; item = rule_model rule.now }) in
            Declares main self.new e entries result) }
        ensures files { self.new.files ≡ self.old.files }
        ensures grows { OnOk result (ScopesGrow self.old self.new) }
    {
        if self
            .declarations
            .declare_rule(alloc, file.scope, rule.name, &rule.lines)?
        {
            self.origins.add_rule(file.place(spot))?;
            return Ok(());
        }
        let cause = Cause::DuplicateRule(Name::new(alloc, rule.name)?);
        Err(file.fault(alloc, rule.name_spot, cause))
    }

    /// Reads a pool, whose statement is at the given place.
    pub(crate) fn declare_pool(
        &mut self,
        alloc: Global,
        file: OpenFile<'_>,
        spot: Spot,
        pool: &Pool<'_>,
    ) -> Result<(), GraphFault>
        requires { file.scope.0 < length self.old.declarations.scopes }
        ensures declares { InFile self.old file.entry (λ main site entries.
            let e = entry_at site (record { spot = spot; item = pool_model pool.now }) in
            Declares main self.new e entries result) }
        ensures files { self.new.files ≡ self.old.files }
        ensures grows { OnOk result (ScopesGrow self.old self.new) }
    {
        if !self.declarations.declare_pool(pool.name)? {
            let cause = Cause::DuplicatePool(Name::new(alloc, pool.name)?);
            return Err(file.fault(alloc, pool.name_spot, cause));
        }
        let depth = self.depth(alloc, file, &pool.lines)?;
        self.origins.add_pool(file.place(spot), depth)?;
        Ok(())
    }

    // The depth of a pool: the number of the last line of its block. Each line must have a number.
    fn depth(
        &self,
        alloc: Global,
        file: OpenFile<'_>,
        lines: &[Line<'_>],
    ) -> Result<u64, GraphFault>
        requires { file.scope.0 < length self.now.declarations.scopes }
        ensures fault { InScope self.now file.entry (λ scope entries.
            Checks (depth_fault file.entry.name.now scope entries (lines_model lines.now)) result) }
        ensures depth { InScope self.now file.entry (λ scope entries.
            IfOk result (λ depth. depth ≡ depth_of scope entries (lines_model lines.now))) }
    {
        let mut depth = 0;
        'lines: for line in lines {
            let text = self.declarations.expand(alloc, file.scope, &line.value)?;
            if !is_depth(&text) {
                return Err(file.fault(alloc, line.spot, Cause::BadDepth));
            }
            depth = leading_number(&text).unwrap_or(0);
        }
        Ok(depth)
    }
}
