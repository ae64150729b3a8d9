//! Laws of accepted programs. Each function does nothing, and its contract is the law.

ghost use Rattle.std.specs.Prelude.{ℕ, List, Option, Some};
ghost use Rattle.av_program.specs.declared.program.Program.{Program};
ghost use Rattle.av_app_files.specs.Folders.{Folders};
ghost use Rattle.av_stops.specs.Mains.{IsStartOf};
ghost use Rattle.av_stops.specs.Programs.{CollectsNoStaticInit, IsAnalysable, IsCheckable, IsProgram};
ghost use Rattle.av_checkable.specs.Accepted.{IsAcceptedProgram};

use jv_desc::laws::methods_have_one_text;
use jv_insn::{codes_have_one_body, decoded_bodies_keep_the_form};
use jv_verify::laws::verified_methods_are_kind_safe;

/// No collected `<init>` is static: a reference that finds one is of the right kind, and no instruction that calls a
/// static method is typed where it names a constructor (JVMS 2.9, 4.10.1.9).
pub fn collected_constructors_are_instance_methods()
    ensures { (program : Program) → (accepted : IsAcceptedProgram program) → CollectsNoStaticInit accepted.given accepted.library }
{
    codes_have_one_body();
    methods_have_one_text();
    verified_methods_are_kind_safe();
}

/// A program that passed every rule may have its stand-in made, and with a main it may be analysed.
pub fn accepted_programs_are_checkable()
    ensures checkable { (program : Program) → IsAcceptedProgram program → IsCheckable program }
    ensures analysable { (program : Program) (class : List ℕ) → IsAcceptedProgram program → IsStartOf program.world (Some class) program.main → IsAnalysable program }
{
    decoded_bodies_keep_the_form();
    verified_methods_are_kind_safe();
    collected_constructors_are_instance_methods();
}

/// The program of two folders passed every rule.
pub fn programs_are_accepted()
    ensures { (folders : Folders) (main : Option (List ℕ)) (program : Program) → IsProgram folders main program → IsAcceptedProgram program }
{}
