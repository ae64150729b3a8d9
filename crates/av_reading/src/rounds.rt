ghost use Rattle.std.specs.Prelude.{IfErr, IfOk};
ghost use Rattle.av_collected.specs.Conditions.{AreGiven};
ghost use Rattle.av_reading.specs.Progress.{IsWhole, StopsFor};

use crate::reading::Reading;
use av_collected::{CollectStop, MethodBody, ShapeSource, collected_by_rounds};
use av_round::{ClassItems, ReadFile, collected_over};
use jv_types::{Name, Quantity, Seq, Shape};
use std::alloc::Global;

/// How many library classes may be collected.
const MOST_CLASSES: usize = 8000;

/// The files of all classes that are collected over them, and these classes, in rising order of their names, with
/// their collected members. A class that has no file is among the classes alone.
#[derive(Drop)]
pub struct Whole {
    pub files: Vec<ReadFile>,
    pub classes: Seq<ClassItems>,
}

/// Reads round after round: what is collected over the files that were read, and then the classes of it that weren't
/// asked for before, in order of name, until there is none. It answers `Limit` before it reads more than 8,000 classes.
pub fn read_whole<S: ShapeSource>(
    alloc: Global,
    app: &[Shape],
    maps: &[Name],
    bodies: &[MethodBody],
    source: &mut S,
) -> Result<Whole, CollectStop>
    requires { AreGiven (record { shapes = app.now; maps = maps.now; bodies = bodies.now }) }
    ensures whole { IfOk result (λ whole. IsWhole (record { shapes = app.now; maps = maps.now; bodies = bodies.now }) S.stated
        (record { shapes = S.shapes source.old; kept = S.kept source.old; asked = S.asked source.old; answered = S.answered source.old; passed = S.passed source.old; failed = S.failed source.old; faults = S.faults source.old })
        (record { shapes = S.shapes source.new; kept = S.kept source.new; asked = S.asked source.new; answered = S.answered source.new; passed = S.passed source.new; failed = S.failed source.new; faults = S.faults source.new })
        whole.files.items whole.classes) }
    ensures stops { IfErr result (StopsFor (record { shapes = app.now; maps = maps.now; bodies = bodies.now })
        (record { shapes = S.shapes source.old; kept = S.kept source.old; asked = S.asked source.old; answered = S.answered source.old; passed = S.passed source.old; failed = S.failed source.old; faults = S.faults source.old })
        (record { shapes = S.shapes source.new; kept = S.kept source.new; asked = S.asked source.new; answered = S.answered source.new; passed = S.passed source.new; failed = S.failed source.new; faults = S.faults source.new })) }
{
    collected_by_rounds();
    let mut reading = Reading::new(alloc);
    'rounds: loop {
        let asked = reading.asked.len();
        let classes = collected_over(alloc, app, maps, bodies, reading.files.as_slice())?;
        if classes.len() > MOST_CLASSES {
            return Err(CollectStop::Limit(Quantity::Classes));
        }
        reading.read_all(alloc, classes.as_slice(), source)?;
        if reading.asked.len() == asked {
            let Reading { files, asked: _ } = reading;
            return Ok(Whole { files, classes });
        }
    }
}
