ghost use Rattle.std.specs.Prelude.{◌≡◌, [], None, Some, IfOk, find};
ghost use Rattle.std.specs.Option.{option_copied};
ghost use Rattle.av_collected.specs.Libraries.{IsLibrary};
ghost use Rattle.av_collected.specs.Sources.{IsFit, Says, TellsPassed};
ghost use Rattle.tests_collect.specs.Files.{is_named};

use crate::asked_names::AskedNames;
use av_collected::{ShapeFound, ShapeSource};
use av_tables::ReadFile;
use jv_host::HostFault;
use jv_types::{Copied, Name, Quantity};
use std::alloc::{AllocError, Global};

/// A library in memory, and a source of its shapes, which tells all its meanings. Calls are counted from 1.
#[derive(Drop)]
pub struct MemSource {
    files: Vec<ReadFile>,
    fail: u64,
    limit: Quantity,
    limit_from: u64,
    asked: AskedNames,
    answered: Vec<Name>,
    failed: Option<Name>,
    passed: Option<Quantity>,
    calls: u64,
    faults: u64,
    ghost library: { IsLibrary files.items },
}

/// The file of this name.
fn file_under<'a>(files: &'a [ReadFile], name: &Name) -> Option<&'a ReadFile>
    ensures { option_copied result ≡ find (is_named name.now) files.now }
{
    files.iter().find(|file| *file.name() == *name)
}

/// What files have under a name.
fn found_under(files: &[ReadFile], name: &Name) -> Result<ShapeFound, AllocError>
    requires { IsLibrary files.now }
    ensures says { IfOk result (Says files.now name.now) }
    ensures fit { IfOk result (IsFit (λ _. Unit {0}) name.now) }
    ensures looked { IfOk result (λ found. TellsPassed found None) }
{
    match file_under(files, name) {
        None => Ok(ShapeFound::Absent),
        Some(file) => match file.shape() {
            None => Ok(ShapeFound::Malformed),
            Some(shape) => Ok(ShapeFound::Shape(shape.copy()?)),
        },
    }
}

/// What is answered of a name: the quantity that has passed, if there is one, and else what the files have.
fn answer(
    files: &[ReadFile],
    passed: Option<Quantity>,
    name: &Name,
) -> Result<ShapeFound, AllocError>
    requires { IsLibrary files.now }
    ensures passed { IfOk result (λ found. TellsPassed found passed) }
    ensures says { IfOk result (Says files.now name.now) }
    ensures fit { IfOk result (IsFit (λ _. Unit {0}) name.now) }
{
    match passed {
        Some(quantity) => Ok(ShapeFound::TooMuch(quantity)),
        None => found_under(files, name),
    }
}

impl MemSource {
    /// A source of these files, of which nothing was asked yet. The call of the number `fail` fails, and from the call
    /// of the number `limit_from` on a quantity passes. It takes no memory.
    pub fn new(alloc: Global, files: Vec<ReadFile>, fail: u64, limit_from: u64) -> MemSource
        requires { IsLibrary files.items }
        ensures files { result.files ≡ files }
        ensures none_asked { result.asked.names ≡ [] }
        ensures none_answered { result.answered.items ≡ [] }
    {
        MemSource {
            files,
            fail,
            limit: Quantity::LibraryBytes,
            limit_from,
            asked: AskedNames::new(),
            answered: Vec::new(alloc),
            failed: None,
            passed: None,
            calls: 0,
            faults: 0,
        }
    }

    /// The names that were answered, in order.
    pub fn answered(&self) -> &[Name]
        ensures { result.now ≡ self.now.answered.items }
    {
        self.answered.as_slice()
    }

    /// The name at which the last call failed that did.
    pub fn failed(&self) -> Option<&Name> {
        self.failed.as_ref()
    }
}

impl ShapeSource for MemSource {
    ghost use Rattle.av_collected.specs.Sources.{Kept};

    ghost shapes = { λ s. Some s.files.items };

    ghost stated = { λ _. Unit {0} };

    ghost asked = { λ s. s.asked.names };

    ghost answered = { λ s. s.answered.items };

    ghost passed = { λ s. s.passed };

    ghost failed = { λ s. s.failed };

    ghost kept = { λ _. record { write_faults = 0; root = []; files = None; written = None } };

    ghost faults = { λ s. s.faults };

    fn shape(&mut self, alloc: Global, name: &Name) -> Result<ShapeFound, HostFault> {
        self.asked = self.asked.with(name);
        self.calls = self.calls.saturating_add(1);
        let noted = name.copy()?;
        if self.calls == self.fail {
            self.failed = Some(noted);
            self.faults = self.faults.saturating_add(1);
            return Err(HostFault::Failed);
        }
        if self.passed.is_none() && self.calls >= self.limit_from {
            self.passed = Some(self.limit);
        }
        let found = answer(self.files.as_slice(), self.passed, name)?;
        self.answered.push(noted)?;
        Ok(found)
    }
}
