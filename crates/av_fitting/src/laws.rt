ghost use Rattle.std.specs.Prelude.{List};
ghost use Rattle.jv_pool.specs.declared.item.PoolItem.{PoolItem};
ghost use Rattle.av_asm.specs.Built.{Built};
ghost use Rattle.av_asm.specs.Finishing.{MayFinish};
ghost use Rattle.av_fitting.specs.Fitting.{IsFit};

/// What was put may be finished over any pool where each of its instructions fits by itself, each branch has landed on
/// a later instruction near it, each handler leads to an instruction, each frame is of a full map without a value that
/// a `new` made, or nothing leads anywhere, and stack and argument words fit two bytes. This does nothing, and its
/// contract is the law.
pub fn fit_code_may_be_finished()
    ensures { (pool : List PoolItem) (built : Built) → IsFit built → MayFinish pool built }
{}
