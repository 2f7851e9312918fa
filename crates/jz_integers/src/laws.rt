//! What holds of operations on whole numbers, whatever the code.

ghost use Rattle.std.specs.Prelude.{true, false, ◌+ℤ◌, ◌-ℤ◌, ◌*ℤ◌};
ghost use Rattle.jz_tree.specs.declared.expr.BinOp.TheVariants as operation;
ghost use Rattle.jz_integers.specs.Laws.{IsExact, ShiftsLeft, ShiftsRight, Divides, LeavesLess, KeepsTheSign, StandTogether, IsSettledBy};

/// Sums, differences, products and shifts are exact, and there is one wherever it has 128 bits.
pub fn exact()
    ensures sums { IsExact operation.Add (λ i j. i +ℤ j) }
    ensures differences { IsExact operation.Sub (λ i j. i -ℤ j) }
    ensures products { IsExact operation.Mul (λ i j. i *ℤ j) }
    ensures left { ShiftsLeft }
    ensures right { ShiftsRight }
{}

/// A quotient and its remainder give the dividend back.
pub fn a_quotient_and_its_remainder()
    ensures whole { Divides }
    ensures less { LeavesLess }
    ensures sign { KeepsTheSign }
    ensures both { StandTogether }
{}

/// The left part of `&&` and `||` alone decides where it can.
pub fn settled_by_the_left()
    ensures false_and { IsSettledBy operation.AndThen false }
    ensures true_or { IsSettledBy operation.OrElse true }
{}
