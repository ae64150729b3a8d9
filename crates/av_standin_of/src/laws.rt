ghost use Rattle.std.specs.Prelude.{ℕ, List, map};
ghost use Rattle.std.specs.List.Sorted.{IsStrictlySortedBy};
ghost use Rattle.jv_types.specs.declared.shapes.Shape.{Shape};
ghost use Rattle.av_standin_of.specs.declared.standin.Standin.{Standin as StandinValue};
ghost use Rattle.av_standin_of.specs.declared.standin.StandinFile.{StandinFile as FileValue};
ghost use Rattle.av_standin_of.specs.Names.{name_order};
ghost use Rattle.av_standin_of.specs.Worlds.{StandinOf};

/// The files of a stand-in stand in order of their names in bytes, and no two have one name. This does nothing, and its
/// contract is the law.
pub fn files_stand_in_order()
    ensures { (w : List Shape) (dims : ℕ) (standin : StandinValue) → StandinOf w dims standin
        → IsStrictlySortedBy name_order (map (λ (file : FileValue). file.name) standin.files) }
{}
