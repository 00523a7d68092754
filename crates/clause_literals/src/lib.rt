// Literals: a variable, or its negative.
#![tactic(auto)]

ghost use Rattle.std.specs.Prelude.{pos, neg_ℤ};
ghost use Rattle.clause_literals.specs.Literals.{LiteralIfAny};

// The literal, or 0, which is none, where 32 bits do not hold the variable and a sign.
pub fn positive(variable: usize) -> i32
    ensures { LiteralIfAny variable (pos variable) result }
{
    i32::try_from(variable).unwrap_or(0)
}

pub fn negative(variable: usize) -> i32
    ensures { LiteralIfAny variable (neg_ℤ (pos variable)) result }
{
    -positive(variable)
}
