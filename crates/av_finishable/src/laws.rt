ghost use Rattle.std.specs.Prelude.{◌≡◌, ℕ, List, Option, Some};
ghost use Rattle.jv_types.specs.declared.shapes.MethodShape.{MethodShape};
ghost use Rattle.jv_types.specs.declared.shapes.Shape.{Shape};
ghost use Rattle.jv_world.specs.Worlds.{IsWorld};
ghost use Rattle.av_standin_of.specs.Codes.{Code};
ghost use Rattle.av_standin_of.specs.Classes.{MadeClass, IsStandinClass};
ghost use Rattle.av_sketches.specs.declared.sketch.Recipe.{Recipe};
ghost use Rattle.av_sketches.specs.Conditions.{CanStandIn, HasFewWords, HasFinishableCodes, IsFinishable};
ghost use Rattle.av_sketches.specs.Sketches.{recipe_code};

/// Each code of a stand-in's classes may be put and finished. This does nothing, and its contract is the law.
pub fn standin_codes_are_finishable()
    ensures { (w : List Shape) (dims : ℕ) (made : MadeClass) → IsWorld w → CanStandIn w dims → IsStandinClass w dims made → HasFinishableCodes made }
{}

/// A method with a recipe whose code may be put and finished has few words of arguments. This does nothing, and its
/// contract is the law.
pub fn finishable_recipes_have_few_words()
    ensures { (dims : ℕ) (class : List ℕ) (shape : MethodShape) (recipe : Recipe) (code : Code)
        → recipe_code dims class shape recipe ≡ Some code → IsFinishable shape code → HasFewWords shape recipe }
{}
