ghost use Rattle.std.specs.Prelude.{map, IfOk};
ghost use Rattle.std.specs.List.{AllZip, flat_map};
ghost use Rattle.jv_world.specs.Worlds.{IsNamed};
ghost use Rattle.av_asm.specs.Mapping.{put_each};
ghost use Rattle.av_standin_of.specs.Files.{put_method};
ghost use Rattle.av_standin_of.specs.Worlds.{coded_method, IsBodyOf};
ghost use Rattle.av_sketches.specs.Sketches.{made_method};
ghost use Rattle.av_class_files.specs.Steps.{HasBody, MayBePut, MayAllBePut, PutsTo};

use crate::codes::{Owner, add_code};
use crate::entries::{add_name, add_text};
use crate::pushing::{push, push_any};
use crate::refusal::FileRefusal;
use av_sketches::SketchedMethod;
use jv_class::Member;
use jv_desc::show_method;
use jv_pool::PoolWriter;
use jv_types::{FramedBody, Seq};

/// A method as it stands in a file, and its body where it has code.
#[derive(Debug, Drop)]
struct FiledMethod {
    member: Member,
    body: Option<FramedBody>,
}

/// Methods as they stand in a file, and the bodies of those that have code, in order.
#[derive(Debug, Drop)]
pub struct FiledMethods {
    pub members: Vec<Member>,
    pub bodies: Vec<FramedBody>,
}

/// Adds what a method names (JVMS 4.6).
fn add_method(
    owner: &Owner<'_>,
    pool: &mut PoolWriter,
    sketched: &SketchedMethod,
) -> Result<FiledMethod, FileRefusal>
    requires named { IsNamed owner.now.world.now owner.now.class.number owner.now.name.now }
    requires may { MayBePut owner.now.world.now owner.now.class.number owner.now.dims owner.now.name.now sketched.now }
    ensures member { PutsTo (λ made. made.member) result pool.new (put_method (made_method owner.now.dims owner.now.name.now sketched.now) pool.old) }
    ensures body { IfOk result (λ made. HasBody owner.now.world.now owner.now.name.now sketched.now.shape (made_method owner.now.dims owner.now.name.now sketched.now).code made.body) }
{
    let text = show_method(owner.name.allocator(), &sketched.shape.desc)?;
    let name = add_name(pool, &sketched.shape.name)?;
    let desc = add_text(pool, text)?;
    let coded = add_code(owner, pool, sketched)?;
    Ok(FiledMethod {
        member: Member {
            access: sketched.shape.flags.0,
            name,
            desc,
            attrs: Seq::from_vec(coded.attrs),
        },
        body: coded.body,
    })
}

/// Adds what methods name.
pub fn add_methods(
    owner: &Owner<'_>,
    pool: &mut PoolWriter,
    methods: &[SketchedMethod],
) -> Result<FiledMethods, FileRefusal>
    requires named { IsNamed owner.now.world.now owner.now.class.number owner.now.name.now }
    requires may { MayAllBePut owner.now.world.now owner.now.class.number owner.now.dims owner.now.name.now methods.now }
    ensures members { PutsTo (λ made. made.members.items) result pool.new (put_each put_method (map (made_method owner.now.dims owner.now.name.now) methods.now) pool.old) }
    ensures bodies { IfOk result (λ made. AllZip (IsBodyOf owner.now.world.now) (flat_map (coded_method owner.now.name.now) (map (made_method owner.now.dims owner.now.name.now) methods.now)) made.bodies.items) }
{
    let alloc = owner.name.allocator();
    let mut members = Vec::new(alloc);
    let mut bodies = Vec::new(alloc);
    for sketched in methods {
        match add_method(owner, pool, sketched) {
            Ok(filed) => {
                push(&mut members, filed.member)?;
                push_any(&mut bodies, filed.body)?;
            }
            Err(e) => return Err(e),
        }
    }
    Ok(FiledMethods { members, bodies })
}
