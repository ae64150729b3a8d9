ghost use Rattle.std.specs.Prelude.{◌≡◌, ◌↔◌, ◌++◌, ◌∷◌, [], ◌<◌, ℕ, List, Contains, IfErr, IfOk, IsTrue, OnOk, length};
ghost use Rattle.jv_types.specs.declared.shapes.Shape.{Shape as ShapeValue};
ghost use Rattle.av_collected.specs.Libraries.{LibraryFile};
ghost use Rattle.av_round.specs.declared.class_items.ClassItems.{ClassItems as ClassValue};
ghost use Rattle.av_reading.specs.Progress.{Goes, IsOneOf};
ghost use Rattle.av_asked.specs.Read.{HasRead, files_with};
ghost use Rattle.av_asked.specs.Sources.{StopsAmong};

use av_asked::{Look, NameList, ask};
use av_collected::{CollectStop, ShapeSource};
use av_round::{ClassItems, ReadFile};
use jv_types::{Copied, Name};
use std::alloc::{AllocError, Global};

/// The files that were read so far, and the names that were asked for.
#[derive(Drop)]
pub struct Reading {
    pub files: Vec<ReadFile>,
    pub asked: NameList,
}

/// Keeps the file that was found under a name, if there is one. Only memory can be wanting.
fn keep(files: &mut Vec<ReadFile>, name: &Name, look: Look) -> Result<(), AllocError>
    ensures { OnOk result (files.new.items ≡ files_with files.old.items name.now look) }
{
    match look {
        Look::Absent => Ok(()),
        Look::File(shape) => {
            files.push(ReadFile::new(name.copy()?, shape))?;
            Ok(())
        }
    }
}

impl Reading {
    /// Nothing was read. It takes no memory.
    pub fn new(alloc: Global) -> Reading
        ensures files { result.files.items ≡ [] }
        ensures asked { result.asked ≡ [] }
    {
        Reading {
            files: Vec::new(alloc),
            asked: NameList::new(alloc),
        }
    }

    /// Reads what is under a name, unless it was asked for before.
    fn read_class<S: ShapeSource>(
        &mut self,
        alloc: Global,
        name: &Name,
        source: &mut S,
    ) -> Result<(), CollectStop>
        requires { HasRead (S.shapes source.old) S.stated self.old.files.items self.old.asked }
        ensures goes { OnOk result (Goes (λ other. other ≡ name.now) S.stated
            (record { shapes = S.shapes source.old; kept = S.kept source.old; asked = S.asked source.old; answered = S.answered source.old; passed = S.passed source.old; failed = S.failed source.old; faults = S.faults source.old })
            (record { shapes = S.shapes source.new; kept = S.kept source.new; asked = S.asked source.new; answered = S.answered source.new; passed = S.passed source.new; failed = S.failed source.new; faults = S.faults source.new })
            self.old self.new) }
        ensures asked { OnOk result (Contains self.new.asked name.now) }
        ensures stops { IfErr result (StopsAmong (λ other. other ≡ name.now) self.old.asked
            (record { shapes = S.shapes source.old; kept = S.kept source.old; asked = S.asked source.old; answered = S.answered source.old; passed = S.passed source.old; failed = S.failed source.old; faults = S.faults source.old })
            (record { shapes = S.shapes source.new; kept = S.kept source.new; asked = S.asked source.new; answered = S.answered source.new; passed = S.passed source.new; failed = S.failed source.new; faults = S.faults source.new })) }
    {
        if self.asked.has(name) {
            return Ok(());
        }
        let look = ask(alloc, name, source)?;
        keep(&mut self.files, name, look)?;
        self.asked.add(name)?;
        Ok(())
    }

    /// Reads those of the classes that weren't asked for before, in their order.
    pub fn read_all<S: ShapeSource>(
        &mut self,
        alloc: Global,
        classes: &[ClassItems],
        source: &mut S,
    ) -> Result<(), CollectStop>
        requires { HasRead (S.shapes source.old) S.stated self.old.files.items self.old.asked }
        ensures goes { OnOk result (Goes (IsOneOf classes.now) S.stated
            (record { shapes = S.shapes source.old; kept = S.kept source.old; asked = S.asked source.old; answered = S.answered source.old; passed = S.passed source.old; failed = S.failed source.old; faults = S.faults source.old })
            (record { shapes = S.shapes source.new; kept = S.kept source.new; asked = S.asked source.new; answered = S.answered source.new; passed = S.passed source.new; failed = S.failed source.new; faults = S.faults source.new })
            self.old self.new) }
        ensures all { OnOk result ((class : ClassValue) → Contains classes.now class → Contains self.new.asked class.name) }
        ensures stops { IfErr result (StopsAmong (IsOneOf classes.now) self.old.asked
            (record { shapes = S.shapes source.old; kept = S.kept source.old; asked = S.asked source.old; answered = S.answered source.old; passed = S.passed source.old; failed = S.failed source.old; faults = S.faults source.old })
            (record { shapes = S.shapes source.new; kept = S.kept source.new; asked = S.asked source.new; answered = S.answered source.new; passed = S.passed source.new; failed = S.failed source.new; faults = S.faults source.new })) }
    {
        for class in classes {
            self.read_class(alloc, &class.name, source)?;
        }
        Ok(())
    }
}
