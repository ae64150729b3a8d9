ghost use Rattle.std.specs.Prelude.{◌≡◌, ◌<◌, IfOk};
ghost use Rattle.jv_insn.specs.KindSafe.{KindSafe};
ghost use Rattle.av_conditions.specs.Conditions.{HaveAllApplicationMethods, IsStart, MeetConditions};
ghost use Rattle.av_model.specs.States.{IsSoundState, first_state};

use av_states::{Activation, State, ThreadState};
use jv_types::{FramedBody, MethodId, Seq};
use jv_world::World;
use std::alloc::{AllocError, Global};

/// The first state of a program whose start enters `main`, and in which arrays of at most `dims` dimensions are told
/// apart by their labels. Only memory can be wanting.
pub fn start(
    alloc: Global,
    world: &World,
    methods: &[FramedBody],
    main: MethodId,
    dims: u8,
) -> Result<State, AllocError>
    requires conditions { MeetConditions world.now methods.now }
    requires kind_safe { KindSafe world.now methods.now }
    requires all_there { HaveAllApplicationMethods world.now methods.now }
    requires main { IsStart world.now methods.now main }
    requires dims { 0 < dims }
    ensures first { IfOk result (λ state. state ≡ first_state main dims) }
    ensures sound { IfOk result (IsSoundState world.now methods.now) }
{
    let mut frames = Vec::new(alloc);
    frames.push(Activation::Library)?;
    let mut threads = Vec::new(alloc);
    threads.push(ThreadState {
        frames: Seq::from_vec(frames),
        thrown: None,
    })?;
    Ok(State {
        main,
        dims,
        entered: false,
        heap: Seq::new(alloc),
        statics: Seq::new(alloc),
        known: Seq::new(alloc),
        fresh: Seq::new(alloc),
        threads: Seq::from_vec(threads),
    })
}
