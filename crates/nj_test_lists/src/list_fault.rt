//! Why a list of tests is not read.

ghost use Rattle.std.specs.Prelude.{◌≡◌, Some};
ghost use Rattle.nj_test_lists.specs.Cited.{OutOfMemory, fault_text, ctest_key_text, meson_key_text, target_key_text};

use crate::list_property::ListProperty;
use std::alloc::{AllocError, AllocFailed};
use std::error::Error;
use std::fmt;

/// What is wrong with a test in a list by CTest.
#[derive(Clone, Copy, Debug, PartialEq, Eq)]
pub enum CTestKey {
    /// `name` is not a string.
    Name,
    /// `command` is not an array of strings.
    Command,
    /// `properties` is not an array of objects with a `name` and a `value`.
    Properties,
    /// The property `WORKING_DIRECTORY` is not a string, or is repeated.
    WorkingDirectory,
    /// This property is not an array of strings.
    Strings(ListProperty),
}

impl fmt::Display for CTestKey {
    ghost output = { λ key. Some (ctest_key_text key) };

    fn fmt<W: fmt::Write>(&self, f: &mut fmt::Formatter<W>) -> fmt::Result {
        match self {
            CTestKey::Name => f.write_str("'name' is not a string"),
            CTestKey::Command => f.write_str("'command' is not an array of strings"),
            CTestKey::Properties => {
                f.write_str("'properties' is not an array of names and values")
            }
            CTestKey::WorkingDirectory => f.write_str("'WORKING_DIRECTORY' is not one string"),
            CTestKey::Strings(property) => {
                let name = property.name();
                write!(f, "'{name}' is not an array of strings")
            }
        }
    }
}

/// What is wrong with a test in a list by Meson.
#[derive(Clone, Copy, Debug, PartialEq, Eq)]
pub enum MesonKey {
    /// `name` is not a string.
    Name,
    /// `cmd` is not an array of strings.
    Command,
    /// `env` is not an object of strings.
    Environment,
    /// `extra_paths` is not an array of strings.
    ExtraPaths,
    /// `depends` is not an array of ids of targets.
    Depends,
    /// `workdir` is not a string.
    Folder,
}

impl fmt::Display for MesonKey {
    ghost output = { λ key. Some (meson_key_text key) };

    fn fmt<W: fmt::Write>(&self, f: &mut fmt::Formatter<W>) -> fmt::Result {
        match self {
            MesonKey::Name => f.write_str("'name' is not a string"),
            MesonKey::Command => f.write_str("'cmd' is not an array of strings"),
            MesonKey::Environment => f.write_str("'env' is not an object of strings"),
            MesonKey::ExtraPaths => f.write_str("'extra_paths' is not an array of strings"),
            MesonKey::Depends => f.write_str("'depends' is not an array of ids of targets"),
            MesonKey::Folder => f.write_str("'workdir' is not a string"),
        }
    }
}

/// What is wrong with a target in a list by Meson.
#[derive(Clone, Copy, Debug, PartialEq, Eq)]
pub enum TargetKey {
    /// `id` is not a string.
    Id,
    /// `filename` is not an array of strings.
    Filename,
    /// A target before it has the same `id`.
    RepeatedId,
}

impl fmt::Display for TargetKey {
    ghost output = { λ key. Some (target_key_text key) };

    fn fmt<W: fmt::Write>(&self, f: &mut fmt::Formatter<W>) -> fmt::Result {
        match self {
            TargetKey::Id => f.write_str("'id' is not a string"),
            TargetKey::Filename => f.write_str("'filename' is not an array of strings"),
            TargetKey::RepeatedId => f.write_str("'id' is repeated"),
        }
    }
}

/// Why a list of tests is not read. Tests and targets are numbered from 0, lines and columns from 1.
#[derive(Clone, Copy, Debug, PartialEq, Eq)]
pub enum ListFault {
    /// The list of tests is not JSON; the fault is near this place.
    NotJson { line: usize, column: usize },
    /// The list of targets is not JSON; the fault is near this place.
    TargetsNotJson { line: usize, column: usize },
    /// `kind` is not `ctestInfo`: CTest did not write the list.
    WrongKind,
    /// `version` has a `major` number other than 1.
    WrongVersion,
    /// The list has no array of tests.
    NoTests,
    /// The list has no array of targets.
    NoTargets,
    /// The CTest test with this number is wrong at this key.
    WrongCTest { number: usize, key: CTestKey },
    /// The Meson test with this number is wrong at this key.
    WrongMesonTest { number: usize, key: MesonKey },
    /// The Meson target with this number is wrong at this key.
    WrongTarget { number: usize, key: TargetKey },
    /// An allocation failed.
    OutOfMemory,
}

impl fmt::Display for ListFault {
    ghost output = { λ fault. Some (fault_text fault) };

    fn fmt<W: fmt::Write>(&self, f: &mut fmt::Formatter<W>) -> fmt::Result {
        match self {
            ListFault::NotJson { line, column } => {
                write!(f, "no JSON at line {line}, column {column}")
            }
            ListFault::TargetsNotJson { line, column } => {
                write!(f, "targets: no JSON at line {line}, column {column}")
            }
            ListFault::WrongKind => f.write_str("'kind' is not 'ctestInfo'"),
            ListFault::WrongVersion => f.write_str("the major version is not 1"),
            ListFault::NoTests => f.write_str("no array of tests"),
            ListFault::NoTargets => f.write_str("no array of targets"),
            ListFault::WrongCTest { number, key } => write!(f, "tests[{number}]: {key}"),
            ListFault::WrongMesonTest { number, key } => write!(f, "tests[{number}]: {key}"),
            ListFault::WrongTarget { number, key } => write!(f, "targets[{number}]: {key}"),
            ListFault::OutOfMemory => f.write_str("out of memory"),
        }
    }
}

impl Error for ListFault {}

impl From<AllocError> for ListFault {
    ghost from_gives = { λ _ e. e ≡ OutOfMemory };

    fn from(_e: AllocError) -> ListFault {
        ListFault::OutOfMemory
    }
}

impl<T: Drop> From<AllocFailed<T>> for ListFault {
    ghost from_gives = { λ _ e. e ≡ OutOfMemory };

    fn from(_e: AllocFailed<T>) -> ListFault {
        ListFault::OutOfMemory
    }
}
