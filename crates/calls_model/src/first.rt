ghost use Rattle.calls_model.specs.First.Keeping.{RunsKeepObjects};

/// The law of objects: in every run an object, once it is made, stays in the heap and keeps its making.
pub fn runs_keep_objects()
    ensures { RunsKeepObjects }
{}
