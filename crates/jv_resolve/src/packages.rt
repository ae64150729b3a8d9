ghost use Rattle.std.specs.Prelude.{◌≡◌, ◌<◌, ◌↔◌, length, IsTrue};
ghost use Rattle.jv_resolve.specs.Packages.{package_of, AreInOnePackage};

use jv_types::ClassId;
use jv_world::World;

/// The package of a class, by its name (JVMS 5.3): what stands before the last `/`.
fn package_of(name: &[u8]) -> &[u8]
    ensures { result.now ≡ package_of name.now }
{
    let mut end = 0;
    for (k, byte) in name.iter().enumerate() {
        if *byte == b'/' {
            end = k;
        }
    }
    &name[..end]
}

/// Whether the two classes are of one package (JVMS 5.3). It takes no memory.
pub fn are_in_one_package(world: &World, c: ClassId, d: ClassId) -> bool
    requires c_here { c.number < length world.now }
    requires d_here { d.number < length world.now }
    ensures exact { IsTrue result ↔ AreInOnePackage world.now c.number d.number }
{
    package_of(world.shape(c).name.as_slice()) == package_of(world.shape(d).name.as_slice())
}
