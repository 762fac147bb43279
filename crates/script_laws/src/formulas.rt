//! Laws of the formulas of a script that is read.

ghost use Rattle.std.specs.Prelude.{◌≡◌, ℕ, List, Ok};
ghost use Rattle.tick_model.specs.Numbers.{HasPlanNumbers};
ghost use Rattle.script_laws.specs.Literals.{NamesLiterals};
ghost use Rattle.script_reader.specs.Scripts.{script_of};
ghost use Rattle.script_reader.specs.declared.script.Script.{Script};

/// Each number of its formulas is one of 64 bits.
pub fn read_numbers_are_of_64_bits()
    ensures { (bytes : List ℕ) (script : Script) → script_of bytes ≡ Ok script → HasPlanNumbers script.plan }
{}

/// Each literal of its formulas is one of its texts, and not empty.
pub fn read_literals_are_texts()
    ensures { (bytes : List ℕ) (script : Script) → script_of bytes ≡ Ok script → NamesLiterals script }
{}
