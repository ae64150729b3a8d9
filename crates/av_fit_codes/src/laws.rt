ghost use Rattle.std.specs.Prelude.{◌≡◌, ℕ, List, Option, Some};
ghost use Rattle.jv_types.specs.declared.shapes.MethodShape.{MethodShape};
ghost use Rattle.av_standin_of.specs.Codes.{Code};
ghost use Rattle.av_sketches.specs.declared.sketch.Recipe.{Recipe};
ghost use Rattle.av_sketches.specs.Conditions.{HasFewWords, IsFinishable, RecipeFits};
ghost use Rattle.av_sketches.specs.Sketches.{recipe_code};

/// A recipe that fits gives a code that may be put and finished: it takes as many words of arguments as its method, put
/// into a builder it may be finished over any pool, and it has at most 65535 bytes. This does nothing, and its contract
/// is the law.
pub fn fitting_recipes_are_finishable()
    ensures { (dims : ℕ) (class : List ℕ) (shape : MethodShape) (recipe : Recipe) (code : Code)
        → RecipeFits dims class shape recipe → recipe_code dims class shape recipe ≡ Some code → IsFinishable shape code }
{}

/// The arguments of a method with a recipe that fits have few words. This does nothing, and its contract is the law.
pub fn few_words()
    ensures { (dims : ℕ) (class : List ℕ) (shape : MethodShape) (recipe : Recipe) → RecipeFits dims class shape recipe → HasFewWords shape recipe }
{}
