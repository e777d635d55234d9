// Laws of the definitions: functions that do nothing, whose contracts are theorems.

ghost use Rattle.std.specs.Prelude.{◌≡◌, ℕ, List};
ghost use Rattle.c_tree.specs.Programs.{IsTextOf};
ghost use Rattle.c_tree.specs.declared.tree.Program.{Program};

/// A text spells at most one program.
pub fn texts_spell_one_program()
    ensures law { (text : List ℕ) (p q : Program) → IsTextOf p text → IsTextOf q text → p ≡ q }
{}
