//! What a row goes by: a left side, its size, and where variables are.

ghost use Rattle.std.specs.Prelude.{◌≡◌, ℕ, ℤ, Some};
ghost use Rattle.jz_words.specs.declared.size.Size.TheVariants.{S8};
ghost use Rattle.jz_operations.specs.declared.operation.Arg.TheVariants as arg;
ghost use Rattle.jz_meaning.specs.Values.{key_of, ref_of};
ghost use Rattle.jz_homes.specs.Homes.{in_flag, in_register};
ghost use Rattle.jz_homes.specs.Operands.{IsArg, IsDest, silent};
ghost use Rattle.jz_operands.specs.TableHomes.{homes_of, leaks_of};
ghost use Rattle.jz_operands.specs.Refusals.{FindsOr, NeverArg, NeverDest};
ghost use Rattle.jz_operands.specs.declared.operands.Leaks.TheVariants.{Silent};

use jz_operands::{Home, Homes, Leaks, Operand, destination_of, operand_of};
use jz_operations::{Arg, Pinned};
use jz_tree::{Expr, Lval, Size, Span, Var};
use jz_type_names::same_size;

/// A left side with the size of its assignment, and the homes of variables.
#[derive(Clone, Copy)]
pub struct Target<'a> {
    pub homes: &'a Homes,
    pub size: Size,
    pub to: &'a Lval,
}

/// The variable that an operand is.
pub(crate) fn variable_in(found: Operand) -> Option<u32>
    ensures { FindsOr result (λ n. (found.arg ≡ arg.Var n) × (found.leaks ≡ Silent))
        ((n : ℕ) → found.arg ≡ arg.Var n → found.leaks ≡ Silent → ⊥) }
{
    match found.arg {
        Arg::Var(variable) => match found.leaks {
            Leaks::Silent => Some(variable),
            Leaks::Hidden => None,
            Leaks::Told => None,
        },
        Arg::Imm(_) => None,
        Arg::Mem(_) => None,
        Arg::Cell(_) => None,
        Arg::At(_, _) => None,
    }
}

/// The number that an operand is, where an immediate of 64 bits is one.
pub(crate) fn number_in(found: Operand) -> Option<i64>
    ensures { FindsOr result (λ i. (found.arg ≡ arg.Imm i) × (found.leaks ≡ Silent))
        ((i : ℤ) → found.arg ≡ arg.Imm i → found.leaks ≡ Silent → ⊥) }
{
    match found.arg {
        Arg::Imm(number) => match found.leaks {
            Leaks::Silent => Some(number),
            Leaks::Hidden => None,
            Leaks::Told => None,
        },
        Arg::Var(_) => None,
        Arg::Mem(_) => None,
        Arg::Cell(_) => None,
        Arg::At(_, _) => None,
    }
}

impl Target<'_> {
    /// An operand of the size of the assignment.
    pub fn operand(&self, e: &Expr) -> Option<Operand>
        ensures { let home = homes_of self.now.homes.now in
            FindsOr result (λ x. IsArg home self.now.size e.now x.arg (leaks_of x.leaks))
            (NeverArg home self.now.size e.now) }
    {
        operand_of(self.homes, self.size, e)
    }

    pub fn destination(&self) -> Option<Operand>
        ensures { let home = homes_of self.now.homes.now in
            FindsOr result
            (λ x. IsDest home self.now.size self.now.to.now x.arg (leaks_of x.leaks))
            (NeverDest home self.now.size self.now.to.now) }
    {
        destination_of(self.homes, self.size, self.to)
    }

    /// The variable that the left side is.
    #[tactic(auto, using(crate::proofs::RowLemmas::register_is))]
    pub fn register(&self) -> Option<u32>
        ensures { let home = homes_of self.now.homes.now in
            FindsOr result (λ n. IsDest home self.now.size self.now.to.now (arg.Var n) silent)
            ((n : ℕ) → IsDest home self.now.size self.now.to.now (arg.Var n) silent → ⊥) }
    {
        match self.destination() {
            None => None,
            Some(found) => variable_in(found),
        }
    }
}

/// Where a variable stands in the text.
pub fn place_of(var: &Var) -> Span
    ensures { result ≡ (ref_of var.now).span }
{
    var.span
}

/// The variable of a flag, where the text names it.
pub fn flag_in(homes: &Homes, var: &Var) -> Option<Pinned>
    ensures { let home = homes_of homes.now (key_of (ref_of var.now)) in
        FindsOr result
        (λ p. (home ≡ Some (in_flag p.variable)) × (p.span ≡ (ref_of var.now).span))
        ((n : ℕ) → home ≡ Some (in_flag n) → ⊥) }
{
    let span = place_of(var);
    match homes.scalar(var) {
        None => None,
        Some(Home::Flag(variable)) => Some(Pinned { variable, span }),
        Some(Home::Word(_, _)) => None,
        Some(Home::Slot(_, _)) => None,
        Some(Home::Cells(_, _, _)) => None,
    }
}

/// The variable of a byte, where the text names it.
pub fn byte_in(homes: &Homes, var: &Var) -> Option<Pinned>
    ensures { let home = homes_of homes.now (key_of (ref_of var.now)) in
        FindsOr result
        (λ p. (home ≡ Some (in_register p.variable S8)) × (p.span ≡ (ref_of var.now).span))
        ((n : ℕ) → home ≡ Some (in_register n S8) → ⊥) }
{
    let span = place_of(var);
    match homes.scalar(var) {
        None => None,
        Some(Home::Word(variable, Size::S8)) => Some(Pinned { variable, span }),
        Some(Home::Word(_, Size::S16)) => None,
        Some(Home::Word(_, Size::S32)) => None,
        Some(Home::Word(_, Size::S64)) => None,
        Some(Home::Flag(_)) => None,
        Some(Home::Slot(_, _)) => None,
        Some(Home::Cells(_, _, _)) => None,
    }
}

/// The variable of a word of this size.
#[tactic(auto, using(crate::proofs::RowLemmas::word_at))]
pub fn word_in(homes: &Homes, size: Size, var: &Var) -> Option<u32>
    ensures { let home = homes_of homes.now (key_of (ref_of var.now)) in
        FindsOr result (λ n. home ≡ Some (in_register n size))
        ((n : ℕ) → home ≡ Some (in_register n size) → ⊥) }
{
    match homes.scalar(var) {
        None => None,
        Some(Home::Word(variable, own)) => {
            if same_size(own, size) {
                Some(variable)
            } else {
                None
            }
        }
        Some(Home::Flag(_)) => None,
        Some(Home::Slot(_, _)) => None,
        Some(Home::Cells(_, _, _)) => None,
    }
}
