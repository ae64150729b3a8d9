ghost use Rattle.std.specs.Prelude.{option_map, IfOk, IfErr};
ghost use Rattle.av_method_rules.specs.Files.{AreFilesOf};
ghost use Rattle.av_stages.specs.Stages.{IsTypedIn, OrMemory, StopsTyping};

use av_app_files::passed;
use av_method_rules::accept_methods;
use av_program::{AcceptStop, Program};
use av_start::{has_too_many, start_of};
use jv_class::ClassFile;
use jv_types::{Name, Quantity, Seq};
use jv_world::World;
use std::alloc::Global;

/// The program of a world: its methods are held against their rules, then the main class is looked up, where one is
/// named, and last the instructions are counted.
///
/// # Errors
///
/// `Refused` or `Limit` at the first of these that fails. `Memory` where memory is wanting.
pub fn program_of(
    alloc: Global,
    world: World,
    classes: &[ClassFile],
    main: Option<&Name>,
    dims: u8,
) -> Result<Program, AcceptStop>
    requires { AreFilesOf world classes.now }
    ensures typed { IfOk result (IsTypedIn world classes.now (option_map (λ name. name.now) main.entry) dims) }
    ensures stopped { IfErr result (OrMemory (StopsTyping world classes.now (option_map (λ name. name.now) main.entry))) }
{
    let methods = accept_methods(alloc, &world, classes)?;
    let start = start_of(&world, main)?;
    if has_too_many(methods.as_slice()) {
        return Err(passed(Quantity::Instructions));
    }
    Ok(Program {
        world,
        methods: Seq::from_vec(methods),
        main: start,
        dims,
    })
}
