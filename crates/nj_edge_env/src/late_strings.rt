//! Late strings.

ghost use Rattle.std.specs.Prelude.{◌≡◌, ◌<◌, ◌++◌, ◌∷◌, [], true, ℕ, suc, List, IfOk, IfSome, OnOk, OnErr, is_some};
ghost use Rattle.nj_edge_env.specs.Cited.{DeclaredBy, ReadStatement, value_after, IsPrefix, IsNumber, IsScope, parent_at, value_given, file_value, asked_text, late_names, AreKeyStrings, AppendsLate, AppendsParts, AppendsPlain};

use crate::edge_paths::append_paths;
use crate::key_memo::{KEYS, KeyText, keep_text, taller, text_known};
use crate::late_edge::LateEdge;
use crate::path_names::{is_of_command, is_quoted, names_paths};
use nj_scope::{LateValue, Rule};
use nj_text::Part;
use std::alloc::AllocError;

impl<'a> LateEdge<'a> {
    /// Appends the late string of a name: its value when its rule is used ("Rule variables" in the
    /// Ninja manual). An edge with a cycle of its rule's variables has no late strings: call
    /// `variable_cycle` first. For any other edge each line of the rule is expanded once, and its
    /// text is copied at each further reference. So the time grows with the text and the lines, and
    /// calls nest no deeper than the rule has keys, which are few.
    ///
    /// # Errors
    ///
    /// If an allocation failed; `out` is then unchanged.
    pub fn append_late_text(&self, out: &mut Vec<u8>, asked: &[u8]) -> Result<(), AllocError>
        ensures appended { (entries : List ReadStatement) (around : List ℕ)
            → DeclaredBy self.now.declarations.now entries
            → IsScope (parent_at self.now.declarations.now.scopes) self.now.scope.0
            (self.now.scope.0 ∷ around)
            → OnOk result (out.new.items ≡ out.old.items ++ asked_text
            (late_names self.now (value_after entries (self.now.scope.0 ∷ around))) asked.now) }
        ensures refused { OnErr result (out.new.items ≡ out.old.items) }
    {
        if self.gives_nothing(asked) {
            return Ok(());
        }
        let start = out.len();
        let mut known = [None; KEYS];
        let depth = self.rule.line_count();
        match self.append_within(out, &mut known, asked, is_quoted(asked), depth) {
            Ok(_) => Ok(()),
            Err(refused) => {
                out.truncate(start);
                Err(refused)
            }
        }
    }

    // Whether the value of the name is known to be empty. If this is `false`, it may still be
    // empty.
    fn gives_nothing(&self, name: &[u8]) -> bool
        ensures { (entries : List ReadStatement) (around : List ℕ)
            → DeclaredBy self.now.declarations.now entries
            → IsScope (parent_at self.now.declarations.now.scopes) self.now.scope.0
            (self.now.scope.0 ∷ around)
            → result ≡ true → asked_text
            (late_names self.now (value_after entries (self.now.scope.0 ∷ around))) name.now ≡ [] }
    {
        if names_paths(name) || self.rule.key_number(name).is_some() {
            return false;
        }
        if self.blocks.value(self.edge, name).is_some() {
            return false;
        }
        self.file_value(name).is_empty()
    }

    // Appends the value of the name, through at most `depth` lines of the rule after its own.
    // Returns its height, or `None` if a reference was cut off.
    #[cycle(appending)]
    fn append_within(
        &self,
        out: &mut Vec<u8>,
        known: &mut [Option<KeyText>],
        name: &[u8],
        quoting: bool,
        depth: usize,
    ) -> Result<Option<usize>, AllocError>
        requires { AreKeyStrings quoting self.now known.old out.old.items }
        ensures appended { IfOk result (AppendsLate quoting self.now (suc depth) name.now
            out.old.items known.new out.new.items) }
        ensures refused { OnErr result (IsPrefix out.old.items out.new.items) }
    {
        let Some(number) = self.append_plain(out, name, quoting)? else {
            return Ok(Some(0));
        };
        if let Some(text) = text_known(known, number, depth) {
            out.extend_from_within(text.start..text.end)?;
            return Ok(Some(text.height));
        }
        let start = out.len();
        let value = self.rule.key_value(number);
        let height = self.append_parts(out, known, value, quoting, depth)?;
        keep_text(known, number, start, out.len(), height);
        Ok(height)
    }

    // Appends the value of a line of the rule, through at most `depth` lines after it. Returns the
    // height of the line, or `None` if a reference was cut off.
    #[cycle(appending)]
    fn append_parts(
        &self,
        out: &mut Vec<u8>,
        known: &mut [Option<KeyText>],
        value: &LateValue,
        quoting: bool,
        depth: usize,
    ) -> Result<Option<usize>, AllocError>
        requires { AreKeyStrings quoting self.now known.old out.old.items }
        ensures appended { IfOk result (AppendsParts quoting self.now depth value.now
            out.old.items known.new out.new.items) }
        ensures refused { OnErr result (IsPrefix out.old.items out.new.items) }
    {
        let mut height = Some(0);
        'parts: for index in 0..value.len() {
            match value.part(index) {
                Part::Bytes(bytes) => out.extend_from_slice(bytes)?,
                Part::Name(name) => {
                    let below = self.append_below(out, known, name, quoting, depth)?;
                    height = taller(height, below, depth);
                }
            }
        }
        Ok(height)
    }

    // Appends the value of a name to which a line of the rule refers, through at most `depth`
    // lines, including its own. Returns its height, or `None` if it or a reference in it was cut
    // off.
    #[cycle(appending)]
    fn append_below(
        &self,
        out: &mut Vec<u8>,
        known: &mut [Option<KeyText>],
        name: &[u8],
        quoting: bool,
        depth: usize,
    ) -> Result<Option<usize>, AllocError>
        requires { AreKeyStrings quoting self.now known.old out.old.items }
        ensures appended { IfOk result (AppendsLate quoting self.now depth name.now
            out.old.items known.new out.new.items) }
        ensures refused { OnErr result (IsPrefix out.old.items out.new.items) }
    {
        if depth == 0 {
            return Ok(None);
        }
        self.append_within(out, known, name, quoting, depth - 1)
    }

    // Appends the value of the name, unless a line of the rule binds it; in that case returns the
    // number of the line's key.
    fn append_plain(
        &self,
        out: &mut Vec<u8>,
        name: &[u8],
        quoting: bool,
    ) -> Result<Option<usize>, AllocError>
        ensures appended { IfOk result (AppendsPlain quoting self.now name.now out.old.items
            out.new.items) }
        ensures refused { OnErr result (IsPrefix out.old.items out.new.items) }
    {
        if name == b"in".as_slice() {
            append_paths(out, self.files, self.inputs, b' ', quoting)?;
            return Ok(None);
        }
        if name == b"in_newline".as_slice() {
            append_paths(out, self.files, self.inputs, b'\n', quoting)?;
            return Ok(None);
        }
        if name == b"out".as_slice() {
            append_paths(out, self.files, self.outputs, b' ', quoting)?;
            return Ok(None);
        }
        if let Some(value) = self.blocks.value(self.edge, name) {
            out.extend_from_slice(value)?;
            return Ok(None);
        }
        if let Some(number) = given_key(self.rule, name) {
            return Ok(Some(number));
        }
        out.extend_from_slice(self.file_value(name))?;
        Ok(None)
    }

    // The value of the name in the file; phony edges are never run.
    fn file_value(&self, name: &[u8]) -> &[u8]
        ensures { (entries : List ReadStatement) (around : List ℕ)
            → DeclaredBy self.now.declarations.now entries
            → IsScope (parent_at self.now.declarations.now.scopes) self.now.scope.0
            (self.now.scope.0 ∷ around)
            → result.now ≡ file_value
            (late_names self.now (value_after entries (self.now.scope.0 ∷ around))) name.now }
    {
        if self.rule.name() == b"phony".as_slice() && is_of_command(name) {
            return &[];
        }
        self.declarations.value(self.scope, name)
    }
}

// The number of a key to which the rule gives a value. For a name that determines an edge's
// command, a value without parts does not count.
fn given_key(rule: &Rule, key: &[u8]) -> Option<usize>
    ensures number { IfSome result (IsNumber rule.now.lines key.now) }
    ensures given { is_some result ≡ is_some (value_given rule.now.lines key.now) }
{
    let number = rule.key_number(key)?;
    if is_of_command(key) && rule.key_value(number).len() == 0 {
        return None;
    }
    Some(number)
}
