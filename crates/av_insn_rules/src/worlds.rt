ghost use Rattle.jv_world.specs.Worlds.{IsWorld};

use jv_world::World;

/// Supertypes of a world are there and of the right kinds, and lead in no circle. This does nothing.
pub fn is_a_world(world: &World)
    ensures { IsWorld world.now }
{
    let _shapes = world.shapes();
}
