//! Why test cases can't be read or run.

use std::alloc::{AllocError, AllocFailed, Global};
use std::{fmt, io};

/// Why the arguments, the files of an argument or the test cases of a file can't be read.
#[derive(Drop)]
pub enum Failure {
    NoArguments(io::Error),
    CannotRead(io::Error),
    NoFiles,
    NotJson(serde_json::Error),
    NoArray,
    /// The number of the test case in its file, from 1.
    NoTestCase(usize, TestCaseFailure),
    CannotWrite(io::Error),
    OutOfMemory,
}

impl fmt::Display for Failure {
    fn fmt<W: fmt::Write>(&self, f: &mut fmt::Formatter<W>) -> fmt::Result {
        match self {
            Failure::NoArguments(cause) => write!(f, "no words: {cause}"),
            Failure::CannotRead(cause) => write!(f, "cannot be read: {cause}"),
            Failure::NoFiles => write!(f, "has no .json file"),
            Failure::NotJson(cause) => write!(f, "not JSON: {cause}"),
            Failure::NoArray => write!(f, "no array of test cases"),
            Failure::NoTestCase(number, cause) => write!(f, "test case {number}: {cause}"),
            Failure::CannotWrite(cause) => write!(f, "cannot write: {cause}"),
            Failure::OutOfMemory => write!(f, "out of memory"),
        }
    }
}

impl From<AllocError> for Failure {
    fn from(_e: AllocError) -> Self {
        Failure::OutOfMemory
    }
}

impl<T: Drop> From<AllocFailed<T>> for Failure {
    fn from(_e: AllocFailed<T>) -> Self {
        Failure::OutOfMemory
    }
}

/// Why a value is not a test case.
#[derive(Drop)]
pub enum TestCaseFailure {
    /// The name of a field, and what is wrong with it.
    Field(String, &'static str),
    /// What is wrong with the fields together.
    Fields(&'static str),
}

impl TestCaseFailure {
    /// Returns the failure of the field of this name.
    pub fn of_field(alloc: Global, name: &str, what: &'static str) -> TestCaseFailure {
        match String::from_str(alloc, name) {
            Ok(name) => TestCaseFailure::Field(name, what),
            Err(AllocError) => TestCaseFailure::Fields("out of memory"),
        }
    }
}

impl fmt::Display for TestCaseFailure {
    fn fmt<W: fmt::Write>(&self, f: &mut fmt::Formatter<W>) -> fmt::Result {
        match self {
            TestCaseFailure::Field(name, what) => write!(f, "{name:?} {what}"),
            TestCaseFailure::Fields(what) => write!(f, "{what}"),
        }
    }
}

impl From<AllocError> for TestCaseFailure {
    fn from(_e: AllocError) -> Self {
        TestCaseFailure::Fields("out of memory")
    }
}

impl<T: Drop> From<AllocFailed<T>> for TestCaseFailure {
    fn from(_e: AllocFailed<T>) -> Self {
        TestCaseFailure::Fields("out of memory")
    }
}
