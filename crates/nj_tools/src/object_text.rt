//! An object of JSON, member by member.

ghost use Rattle.std.specs.Prelude.{◌≡◌, ◌∷◌, [], IfOk, OnOk, map, option_map};
ghost use Rattle.nj_tools.specs.Cited.{decimal, array, boolean, number, string, print, begin_array, begin_object, end_array, end_object, key, place_object, strings, and_member, and_string, and_token, no_members_yet};

use json::Writer;
use nj_graph::{Files, PlaceRef};
use std::alloc::{AllocError, Global};
use std::marker::Model;

// The bytes reserved for an object at first.
const ROOM: usize = 1024;

/// An object of JSON that is being written.
#[derive(Drop)]
pub(crate) struct ObjectText {
    writer: Writer,
    // Whether all strings were UTF-8 so far.
    is_utf8: bool,
}

impl Model for ObjectText {
    ghost use Rattle.std.specs.Prelude.{◌≡◌, List, [], Option};
    ghost use Rattle.json.specs.Token.{Token};
    ghost use Rattle.nj_tools.specs.Inside.ObjectTexts.{held_tokens};

    ghost Value = { Option (List Token) };

    ghost view = { λ o. held_tokens o.is_utf8 o.writer.tokens };

    ghost invariant = { λ o. o.writer.before ≡ [] };
}

impl ObjectText {
    /// An object without members.
    pub(crate) fn new(alloc: Global) -> Result<ObjectText, AllocError>
        ensures { IfOk result (λ object. object ≡ no_members_yet) }
    {
        let mut writer = Writer::new(Vec::with_capacity(alloc, ROOM)?);
        writer.begin_object()?;
        Ok(ObjectText {
            writer,
            is_utf8: true,
        })
    }

    /// Adds a number.
    pub(crate) fn add_number(&mut self, name: &str, value: usize) -> Result<(), AllocError>
        ensures { OnOk result (self.new
            ≡ and_member self.old (name.now, number (decimal value))) }
    {
        self.writer.key(name)?;
        self.writer.u64(value as u64)
    }

    /// Adds a truth value.
    pub(crate) fn add_bool(&mut self, name: &str, value: bool) -> Result<(), AllocError>
        ensures { OnOk result (self.new ≡ and_member self.old (name.now, boolean value)) }
    {
        self.writer.key(name)?;
        self.writer.boolean(value)
    }

    /// Adds a string.
    pub(crate) fn add_string(&mut self, name: &str, text: &[u8]) -> Result<(), AllocError>
        ensures { OnOk result (self.new ≡ and_member self.old (name.now, string text.now)) }
    {
        self.writer.key(name)?;
        self.put_string(text)
    }

    /// Adds the paths of files, as an array.
    pub(crate) fn add_paths(&mut self, name: &str, files: Files<'_>) -> Result<(), AllocError>
        ensures { OnOk result (self.new ≡ and_member self.old (
          name.now,
          array (strings (map (λ file. file.path) files.entry)),
        )) }
    {
        self.begin_array(name)?;
        'files: for file in files {
            self.put_string(file.path())?;
        }
        self.end_array()
    }

    /// Adds a place, as an object.
    pub(crate) fn add_place(&mut self, name: &str, place: PlaceRef<'_>) -> Result<(), AllocError>
        ensures { OnOk result (self.new ≡ and_member self.old (
          name.now,
          place_object place.entry.file.now place.entry.spot,
        )) }
    {
        self.begin_object(name)?;
        self.add_string("file", place.file)?;
        self.add_number("line", place.spot.line)?;
        self.add_number("column", place.spot.column)?;
        self.end_object()
    }

    /// The text of the whole object; `None` if a string was not UTF-8.
    pub(crate) fn into_text(self) -> Result<Option<Vec<u8>>, AllocError>
        ensures { IfOk result (λ text. option_map (λ text. text.items) text
            ≡ option_map print (and_token self end_object)) }
    {
        let ObjectText {
            mut writer,
            is_utf8,
        } = self;
        if !is_utf8 {
            return Ok(None);
        }
        writer.end_object()?;
        Ok(Some(writer.into_inner()))
    }

    // Writes a string as the next value.
    fn put_string(&mut self, text: &[u8]) -> Result<(), AllocError>
        ensures { OnOk result (self.new ≡ and_string self.old text.now) }
    {
        match str::from_utf8(text) {
            Ok(text) => self.writer.string(text),
            Err(_not_utf8) => {
                self.is_utf8 = false;
                Ok(())
            }
        }
    }

    // Begins a member that is an array.
    fn begin_array(&mut self, name: &str) -> Result<(), AllocError>
        ensures { OnOk result (self.new
            ≡ and_token (and_token self.old (key name.now)) begin_array) }
    {
        self.writer.key(name)?;
        self.writer.begin_array()
    }

    // Begins a member that is an object.
    fn begin_object(&mut self, name: &str) -> Result<(), AllocError>
        ensures { OnOk result (self.new
            ≡ and_token (and_token self.old (key name.now)) begin_object) }
    {
        self.writer.key(name)?;
        self.writer.begin_object()
    }

    // Ends an array.
    fn end_array(&mut self) -> Result<(), AllocError>
        ensures { OnOk result (self.new ≡ and_token self.old end_array) }
    {
        self.writer.end_array()
    }

    // Ends an object that is a member.
    fn end_object(&mut self) -> Result<(), AllocError>
        ensures { OnOk result (self.new ≡ and_token self.old end_object) }
    {
        self.writer.end_object()
    }
}
