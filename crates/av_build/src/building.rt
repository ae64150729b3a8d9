ghost use Rattle.std.specs.Prelude.{option_map, IfOk, IfErr};
ghost use Rattle.av_given.specs.Givens.{application_of};
ghost use Rattle.av_stages.specs.Stages.{IsBuilt, IsCollectedOfSome, IsKnown, OrMemory, StopsBuilding};

use crate::typing::program_of;
use crate::worlds::{check_supertypes, world_of};
use av_collected::Collected;
use av_program::{AcceptStop, Program};
use av_stages::AppGiven;
use jv_types::Name;
use std::alloc::Global;

/// The program of an application and of what was collected for it. With a name of a class, that class has the main with
/// which the program starts.
///
/// # Errors
///
/// `Refused` or `Limit` at the first class, method, main or limit that fails. `Memory` where memory is wanting.
pub fn build(
    alloc: Global,
    app: AppGiven,
    found: Collected,
    main: Option<&Name>,
) -> Result<Program, AcceptStop>
    requires known { IsKnown app.files.items (application_of app.given) }
    requires collected { IsCollectedOfSome (application_of app.given) found }
    ensures built { IfOk result (IsBuilt app.files.items (application_of app.given) found (option_map (λ name. name.now) main.entry)) }
    ensures stopped { IfErr result (OrMemory (StopsBuilding app.files.items (application_of app.given) found (option_map (λ name. name.now) main.entry))) }
{
    check_supertypes(alloc, &app, &found)?;
    let dims = found.dims;
    let world = world_of(alloc, &app, found)?;
    program_of(alloc, world, app.files.as_slice(), main, dims)
}
