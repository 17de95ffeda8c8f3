ghost use Rattle.ksh_kinds.specs.Spelled.{NoFronts, SpellsKinds, StartsAssignments};
ghost use Rattle.ksh_lexer.specs.declared.mode.LexMode.TheVariants as LexMode;
ghost use Rattle.ksh_syntax.specs.declared.kind.Mode.TheVariants as Mode;

use ksh_lexer::spells;

/// The bytes of a token are what its kind tells: a name, a path, or a path and `=`.
pub fn spells_kinds()
    ensures tokens { SpellsKinds }
    ensures starts { StartsAssignments }
{
    spells();
}

/// No token of a pattern or a condition is the front of an assignment.
pub fn no_fronts()
    ensures pattern { NoFronts LexMode.Pattern Mode.Pattern }
    ensures condition { NoFronts LexMode.Condition Mode.Condition }
{
    spells();
}
