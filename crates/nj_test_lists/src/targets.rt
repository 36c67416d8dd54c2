//! The targets that Meson lists.

ghost use Rattle.std.specs.Prelude.{◌≡◌, Some, None, false, codes, bytes_eq, map, string_bytes, option_map, IfOk, IfErr};
ghost use Rattle.nj_test_lists.specs.Cited.{view, list_any, AreTargets, AreTargetsFault, IsWrongId, Refuses, files_made, files_of, path_in, is_absolute, string_at, strings_at};

use crate::list_fault::{ListFault, TargetKey};
use crate::values::{read_strings_at, string_at};
use nj_names::{HashKeys, Names};
use serde_json::Value;
use std::alloc::{AllocError, Global};
use std::marker::Model;

/// The targets of a build.
#[derive(Drop)]
pub(crate) struct Targets {
    ids: Names,
    // for each target the files that it makes
    files: Vec<Vec<String>>,
}

impl Model for Targets {
    ghost use Rattle.std.specs.Prelude.{map, string_bytes};
    ghost use Rattle.nj_test_lists.specs.Meson.{TargetsModel};

    ghost Value = { TargetsModel };

    ghost view = { λ t. record {
      ids = t.ids;
      files = map (λ strings. map string_bytes strings.items) t.files.items;
    } };
}

impl Targets {
    /// Reads the targets of the given values. Their files are relative to the build directory.
    pub(crate) fn read(alloc: Global, build: &str, values: &[Value]) -> Result<Targets, ListFault>
        ensures targets { IfOk result (λ targets.
            AreTargets build.now (map view values.now) targets) }
        ensures fault { IfErr result (λ fault. AreTargetsFault (map view values.now) fault) }
    {
        let mut ids = Names::new(alloc, HashKeys::default());
        let mut files = Vec::new(alloc);
        'values: for (number, value) in values.iter().enumerate() {
            let id = new_id(&ids, number, value)?;
            let key = TargetKey::Filename;
            let wrong = ListFault::WrongTarget { number, key };
            files.push(read_files(alloc, build, value, wrong)?)?;
            ids.add(id.as_bytes())?;
        }
        Ok(Targets { ids, files })
    }

    /// Returns the files of the target whose id a value is, if any.
    pub(crate) fn files_of(&self, id: &Value) -> Option<&[String]>
        ensures { option_map (λ files. map string_bytes files.now) result
            ≡ files_of self.now (view id.now) }
    {
        let id = id.as_str()?;
        let number = self.ids.number(id.as_bytes())?;
        self.files.get(number).map(Vec::as_slice)
    }
}

// Reads the files that a target makes, relative to the build directory. If they are not strings,
// the fault is `wrong`.
fn read_files(
    alloc: Global,
    build: &str,
    target: &Value,
    wrong: ListFault,
) -> Result<Vec<String>, ListFault>
    ensures files { IfOk result (λ v. files_made build.now (view target.now)
        ≡ Some (map string_bytes v.items)) }
    ensures fault { IfErr result (λ fault.
        Refuses wrong (strings_at (codes "filename") (view target.now) ≡ None) fault) }
{
    let files = read_strings_at(alloc, target, "filename", wrong)?;
    Ok(all_in(alloc, build, &files)?)
}

// Returns the given paths, each read in a directory.
fn all_in(alloc: Global, folder: &str, paths: &[String]) -> Result<Vec<String>, AllocError>
    ensures { IfOk result (λ v. map string_bytes v.items
        ≡ map (path_in folder.now) (map string_bytes paths.now)) }
{
    let mut read = Vec::new(alloc);
    'paths: for path in paths {
        read.push(path_in(alloc, folder, path.as_str())?)?;
    }
    Ok(read)
}

// Returns a path, read in a directory.
fn path_in(alloc: Global, folder: &str, path: &str) -> Result<String, AllocError>
    ensures { IfOk result (λ s. string_bytes s ≡ path_in folder.now path.now) }
{
    if is_absolute(path.as_bytes()) {
        return String::from_str(alloc, path);
    }
    format!(in alloc; "{folder}/{path}")
}

// Whether a path begins with a slash.
fn is_absolute(path: &[u8]) -> bool
    ensures { result ≡ is_absolute path.now }
{
    match path {
        [b'/', ..] => true,
        _ => false,
    }
}

// Returns the id of the target with the given number, unless an earlier target has the same id.
fn new_id<'v>(ids: &Names, number: usize, value: &'v Value) -> Result<&'v str, ListFault>
    ensures id { IfOk result (λ id. string_at (codes "id") (view value.now) ≡ Some id.now) }
    ensures is_new { IfOk result (λ id. list_any (bytes_eq id.now) ids.now ≡ false) }
    ensures fault { IfErr result (λ fault. IsWrongId number ids.now (view value.now) fault) }
{
    match string_at(value, "id") {
        Some(id) => {
            if ids.number(id.as_bytes()).is_some() {
                let key = TargetKey::RepeatedId;
                return Err(ListFault::WrongTarget { number, key });
            }
            Ok(id)
        }
        None => {
            let key = TargetKey::Id;
            Err(ListFault::WrongTarget { number, key })
        }
    }
}
