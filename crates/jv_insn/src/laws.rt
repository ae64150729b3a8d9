ghost use Rattle.std.specs.Prelude.{◌≡◌, ◌↔◌, ℕ, List, [], ◌++◌, Some, true, false, Contains};
ghost use Rattle.std.specs.List.{flat_map, AllByRecursion};
ghost use Rattle.jv_types.specs.declared.instruction.Insn.{Insn};
ghost use Rattle.jv_types.specs.declared.frames.VType.{VType};
ghost use Rattle.jv_table.specs.CodeRows.{OpForm};
ghost use Rattle.jv_table.specs.declared.code_tables.Cell.{Cell};
ghost use Rattle.jv_types.specs.Bodies.{IsStart, at_offset};
ghost use Rattle.jv_types.specs.declared.body.Handler.{Handler};
ghost use Rattle.jv_types.specs.declared.shapes.Shape.{Shape};
ghost use Rattle.jv_types.specs.declared.frames.FramedBody.{FramedBody};
ghost use Rattle.jv_types.specs.declared.raw_handler.RawHandler.{RawHandler};
ghost use Rattle.jv_types.specs.declared.body.Body.{Body};
ghost use Rattle.jv_pool.specs.declared.item.PoolItem.{PoolItem};
ghost use Rattle.jv_insn.specs.Causes.{IsOfClass, IsRefusedAt, IsFirstCause};
ghost use Rattle.jv_insn.specs.Decoding.{Decodes, FailsAt, IsLeastFailure};
ghost use Rattle.jv_insn.specs.Encoding.{IsSpelled, is_left_out, StandsNear, MayStand, MayEncode};
ghost use Rattle.jv_names.specs.PoolNames.{IsNamedPool};
ghost use Rattle.jv_insn.specs.Kept.{KeepsForm};
ghost use Rattle.jv_insn.specs.Building.{FitsCode};
ghost use Rattle.jv_insn.specs.KindSafe.{IsKindSafe, Covers};
ghost use Rattle.jv_insn.specs.Effects.{Shuffle, effect_of, op_row, shuffle_of, decides_cells};
ghost use Rattle.jv_insn.specs.Forms.{HasOperands, HasOwnOperands};
ghost use Rattle.jv_insn.specs.Kinds.{HoldsCells, cell_words, kinds_after};

/// The cells of an opcode's row are those that each of its instructions takes and gives, where the operands
/// are of the opcode's layout and don't decide them. The row of an opcode whose operands decide them has none,
/// and so has that of one that moves words. This does nothing, and its contract is the law.
pub fn rows_are_effects()
    ensures takes { (insn : Insn) (row : OpForm) → op_row insn.op ≡ Some row → HasOperands row.form insn.arg
        → decides_cells row.form ≡ false → (effect_of insn).takes ≡ row.takes }
    ensures gives { (insn : Insn) (row : OpForm) → op_row insn.op ≡ Some row → HasOperands row.form insn.arg
        → decides_cells row.form ≡ false → (effect_of insn).gives ≡ row.gives }
    ensures operands { (op : ℕ) (row : OpForm) → op_row op ≡ Some row → decides_cells row.form ≡ true
        → (row.takes ≡ []) × (row.gives ≡ []) }
    ensures moves { (op : ℕ) (row : OpForm) (shuffle : Shuffle) → op_row op ≡ Some row → shuffle_of op ≡ Some shuffle
        → (row.takes ≡ []) × (row.gives ≡ []) }
{}

/// An instruction of a kind safe method takes the cells of its opcode's row, where the operands don't decide
/// them, and gives those of the row: its operands are of the opcode's layout. This does nothing, and its contract
/// is the law.
pub fn kind_safe_instructions_are_of_their_row()
    ensures { (world : List Shape) (framed : FramedBody) (pc : ℕ) (insn : Insn) (row : OpForm) → IsKindSafe world framed
        → at_offset pc framed.body.insns ≡ Some insn → op_row insn.op ≡ Some row → decides_cells row.form ≡ false
        → ((effect_of insn).takes ≡ row.takes) × ((effect_of insn).gives ≡ row.gives) }
{}

/// Words of a frame that hold cells have the kinds of these cells' words, and those below keep theirs. This
/// does nothing, and its contract is the law.
pub fn held_cells_have_kinds()
    ensures { (cells : List Cell) (below top : List VType) → HoldsCells cells top
        → kinds_after false (below ++ top) ≡ kinds_after false below ++ flat_map cell_words cells }
{}

/// In a kind safe method each place where an instruction goes is an instruction: the targets of a jump, and
/// the handlers that cover it. This does nothing, and its contract is the law.
pub fn kind_safe_places_are_instructions()
    ensures jumps { (world : List Shape) (framed : FramedBody) (pc : ℕ) (insn : Insn) (target : ℕ) → IsKindSafe world framed
        → at_offset pc framed.body.insns ≡ Some insn → Contains (effect_of insn).targets target → IsStart framed.body.insns target }
    ensures handlers { (world : List Shape) (framed : FramedBody) (pc : ℕ) (handler : Handler) → IsKindSafe world framed
        → IsStart framed.body.insns pc → Contains framed.body.handlers handler → Covers handler pc → IsStart framed.body.insns handler.target }
    ensures entry { (world : List Shape) (framed : FramedBody) → IsKindSafe world framed → IsStart framed.body.insns 0 }
{}

/// A code that decodes fails at no offset. This does nothing, and its contract is the law.
pub fn decoded_codes_fail_nowhere()
    ensures { (pool : List PoolItem) (max_stack max_locals : ℕ) (code : List ℕ) (handlers : List RawHandler) (body : Body) (pc : ℕ)
        → Decodes pool max_stack max_locals code handlers body → FailsAt pool max_locals code handlers pc → ⊥ }
{}

/// The operands of each instruction of a body that was decoded are of its opcode's layout. This does nothing,
/// and its contract is the law.
pub fn decoded_operands_are_of_the_layout()
    ensures { (pool : List PoolItem) (max_stack max_locals : ℕ) (code : List ℕ) (handlers : List RawHandler) (body : Body)
        (pc : ℕ) (insn : Insn) → Decodes pool max_stack max_locals code handlers body → at_offset pc body.insns ≡ Some insn
        → HasOwnOperands insn }
{}

/// What a body keeps that was decoded over the pool of a class file: names and types in their form, and no
/// more dimensions and words of arguments than the standard allows. This does nothing, and its contract is the
/// law.
pub fn decoded_bodies_keep_the_form()
    ensures { (pool : List PoolItem) (max_stack max_locals : ℕ) (code : List ℕ) (handlers : List RawHandler) (body : Body)
        (pc : ℕ) (insn : Insn) → IsNamedPool pool → Decodes pool max_stack max_locals code handlers body
        → at_offset pc body.insns ≡ Some insn → KeepsForm insn }
{}

/// A body that was decoded is spelled by some code over some pool, as `encode` asks of it. This does nothing,
/// and its contract is the law.
pub fn decoded_bodies_are_spelled()
    ensures { (pool : List PoolItem) (max_stack max_locals : ℕ) (code : List ℕ) (handlers : List RawHandler) (body : Body)
        → Decodes pool max_stack max_locals code handlers body → IsSpelled body }
{}

/// A body that some code spells may be encoded, where no part of it is left out and the constant of each ldc
/// stands near in the pool. This does nothing, and its contract is the law.
pub fn spelled_bodies_may_be_encoded()
    ensures { (pool : List PoolItem) (body : Body) → IsSpelled body
        → AllByRecursion (λ (row : ℕ × Insn). is_left_out row.1.arg ≡ false) body.insns
        → AllByRecursion (λ (row : ℕ × Insn). StandsNear pool row.1) body.insns → MayEncode pool body }
{}

/// An instruction whose operands fit, name what they may, and lead to instructions of a body, may stand in that
/// body as `encode` asks of each. This does nothing, and its contract is the law.
pub fn fitting_instructions_may_stand()
    ensures { (max_locals : ℕ) (insns : List (ℕ × Insn)) (pc : ℕ) (insn : Insn) → FitsCode max_locals insns pc insn
        → MayStand max_locals insns pc insn }
{}

/// What a code spells is one body. This does nothing, and its contract is the law.
pub fn codes_have_one_body()
    ensures { (pool : List PoolItem) (max_stack max_locals : ℕ) (code : List ℕ) (handlers : List RawHandler) (a b : Body)
        → Decodes pool max_stack max_locals code handlers a → Decodes pool max_stack max_locals code handlers b → a ≡ b }
{}

/// Over what a class file keeps of its pool and of an exception table, a code fails at an offset exactly where
/// it has one of the causes of refusal there. So `decode` answers `At` exactly where there is a cause, with the
/// least offset that has one. This does nothing, and its contract is the law.
pub fn codes_fail_for_causes()
    ensures fails { (pool : List PoolItem) (max_locals : ℕ) (code : List ℕ) (handlers : List RawHandler) (pc : ℕ) → IsOfClass pool handlers
        → (FailsAt pool max_locals code handlers pc ↔ IsRefusedAt pool max_locals code handlers pc) }
    ensures least { (pool : List PoolItem) (max_locals : ℕ) (code : List ℕ) (handlers : List RawHandler) (pc : ℕ) → IsOfClass pool handlers
        → (IsLeastFailure pool max_locals code handlers pc ↔ IsFirstCause pool max_locals code handlers pc) }
    ensures decodes { (pool : List PoolItem) (max_stack max_locals : ℕ) (code : List ℕ) (handlers : List RawHandler) (body : Body) (pc : ℕ)
        → Decodes pool max_stack max_locals code handlers body → IsRefusedAt pool max_locals code handlers pc → ⊥ }
{}
