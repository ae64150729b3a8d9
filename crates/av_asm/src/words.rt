ghost use Rattle.std.specs.Prelude.{◌≡◌};
ghost use Rattle.jv_resolve.specs.Members.{HasMethod};
ghost use Rattle.jv_frames.specs.Entry.{is_static};
ghost use Rattle.av_asm.specs.Built.{AreArgumentWords};

use bitflags::Flags;
use jv_desc::arg_words;
use jv_types::{Access, MethodId, MethodShape};
use jv_world::World;

/// Whether a method is static (JVMS 4.6).
fn is_static(method: &MethodShape) -> bool
    ensures { result ≡ is_static method.now }
{
    method.flags.contains(Access::STATIC)
}

/// How many words the arguments of a method take, the receiver included, and 2^32 - 1 where that is less.
pub fn argument_words(world: &World, id: MethodId) -> u32
    requires { HasMethod world.now id }
    ensures { AreArgumentWords world.now id result }
{
    let class = world.shape(id.class);
    let method = &class.methods.as_slice()[usize::from(id.index)];
    arg_words(&method.desc, !is_static(method))
}
