//! Which results of an instruction have a value.

ghost use Rattle.std.specs.Prelude.{◌≡◌};
ghost use Rattle.jz_terms.specs.Terms.{term_of};
ghost use Rattle.jz_facts.specs.Holding.{counted};
ghost use Rattle.jz_fact_writes.specs.Instructing as instructing;

use jz_tree::{Expr, Intrinsic};

/// How far a shift goes, as far as it is written.
#[derive(Clone, Copy)]
pub enum Count {
    Unknown,
    Zero,
    One,
    More,
}

fn number_count(n: i128) -> Count
    ensures { result ≡ instructing.number_count n }
{
    if n < 0 {
        return Count::Unknown;
    }
    match n {
        0 => Count::Zero,
        1 => Count::One,
        _ => Count::More,
    }
}

fn expr_count(e: &Expr) -> Count
    ensures { result ≡ instructing.count_of (instructing.written_count (term_of e.now)) }
{
    match e {
        Expr::Num(n, _) => number_count(*n),
        Expr::Bool(_, _) => Count::Unknown,
        Expr::Var(_) => Count::Unknown,
        Expr::Cell(_, _) => Count::Unknown,
        Expr::Load(_) => Count::Unknown,
        Expr::Neg(_, _) => Count::Unknown,
        Expr::Not(_, _) => Count::Unknown,
        Expr::Cast { .. } => Count::Unknown,
        Expr::Bin(_, _, _, _) => Count::Unknown,
    }
}

/// The count among an instruction's arguments, if there are two.
pub(crate) fn count_of(args: &[Expr]) -> Count
    ensures { result ≡ instructing.count_of (counted args.now) }
{
    match args {
        [] => Count::Unknown,
        [_] => Count::Unknown,
        [_, count] => expr_count(count),
        [_, _, _, ..] => Count::Unknown,
    }
}

const WORD: [bool; 1] = [true];

const FIVE: [bool; 5] = [true, true, true, true, true];

const SIX: [bool; 6] = [true, true, true, true, true, true];

const WITHOUT_FLAGS: [bool; 6] = [false, false, false, false, false, true];

const WITHOUT_OVERFLOW: [bool; 6] = [false, true, true, true, true, true];

fn of_shift(count: Count) -> &'static [bool]
    ensures { result.now ≡ instructing.of_shift count }
{
    match count {
        Count::Unknown | Count::Zero => &WITHOUT_FLAGS,
        Count::One => &SIX,
        Count::More => &WITHOUT_OVERFLOW,
    }
}

const THREE: [bool; 3] = [true, true, true];

const LAST_OF_THREE: [bool; 3] = [false, false, true];

const LAST_TWO: [bool; 3] = [false, true, true];

fn of_rotation(count: Count) -> &'static [bool]
    ensures { result.now ≡ instructing.of_rotation count }
{
    match count {
        Count::Unknown | Count::Zero => &LAST_OF_THREE,
        Count::One => &THREE,
        Count::More => &LAST_TWO,
    }
}

const OF_IMUL: [bool; 6] = [true, true, false, false, false, true];

const OF_MUL: [bool; 7] = [true, true, false, false, false, true, true];

const OF_DIV: [bool; 7] = [false, false, false, false, false, true, true];

/// Whether each result has a value; flags that the source leaves unset have none.
pub(crate) fn values_of(name: Intrinsic, count: Count) -> &'static [bool]
    ensures { result.now ≡ instructing.values_of name count }
{
    match name {
        Intrinsic::Inc | Intrinsic::Dec => &FIVE,
        Intrinsic::Cmp | Intrinsic::Test => &FIVE,
        Intrinsic::Not | Intrinsic::Bswap | Intrinsic::Lea | Intrinsic::Setcc => &WORD,
        Intrinsic::Shl | Intrinsic::Shr | Intrinsic::Sar => of_shift(count),
        Intrinsic::Rol | Intrinsic::Ror => of_rotation(count),
        Intrinsic::Imul => &OF_IMUL,
        Intrinsic::Mul => &OF_MUL,
        Intrinsic::Div => &OF_DIV,
        _ => &SIX,
    }
}
