ghost use Rattle.std.specs.Prelude.{◌≡◌, Contains, Err, IfOk, map};
ghost use Rattle.jv_world.specs.Worlds.{IsWorld};
ghost use Rattle.av_standin_of.specs.Files.{PassesPool};
ghost use Rattle.av_standin_of.specs.Worlds.{StandinOf};
ghost use Rattle.av_sketches.specs.declared.sketch.Sketch.{Sketch as SketchValue};
ghost use Rattle.av_sketches.specs.Sketches.{made_class};
ghost use Rattle.av_new_world.specs.Conditions.{MayMakeWorld};
ghost use Rattle.av_making.specs.Making.{GivesCodes};

use av_class_files::FileRefusal;
use av_finishable::{finishable_recipes_have_few_words, standin_codes_are_finishable};
use av_new_world::standin_methods_are_there;
use av_sketches::Sketch;
use av_standin_files::files_of;
use av_standin_of::Standin;
use av_standin_world::standin_world;
use jv_types::Seq;
use jv_world::World;
use std::alloc::Global;

/// The stand-in for a world whose classes these sketches stand for, where arrays have up to so many dimensions: its files
/// in order of name, the world that its classes make with the application, and its methods that have code. It is refused
/// `PoolFull` only where what one of its classes names finds no room in a pool.
pub fn make_standin(
    alloc: Global,
    world: &World,
    dims: u8,
    sketches: &[Sketch],
) -> Result<Standin, FileRefusal>
    requires may { MayMakeWorld world.now dims (map (made_class dims) sketches.now) }
    requires codes { (sketch : SketchValue) → Contains sketches.now sketch → GivesCodes dims sketch }
    ensures standin { IfOk result (StandinOf world.now dims) }
    ensures full { result ≡ Err FileRefusal.PoolFull → PassesPool world.now dims }
{
    standin_codes_are_finishable();
    finishable_recipes_have_few_words();
    standin_methods_are_there();
    let _shapes = world.shapes();
    let made = standin_world(alloc, world, sketches)?;
    match files_of(alloc, &made, dims, sketches) {
        Ok(files) => Ok(Standin {
            files: Seq::from_vec(files.files),
            world: made,
            methods: Seq::from_vec(files.methods),
        }),
        Err(e) => Err(e),
    }
}
