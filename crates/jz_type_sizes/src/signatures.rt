//! The arguments and results of the intrinsics.

ghost use Rattle.std.specs.Prelude.{◌≡◌};
ghost use Rattle.jz_type_sizes.specs.Signatures.{operands_of, results_of};

use jz_tree::Intrinsic;

/// What an argument or result of an intrinsic is.
#[derive(Clone, Copy)]
pub enum Role {
    Flag,
    /// A value of the intrinsic's size.
    Value,
    /// How far a shift goes.
    Count,
    Condition,
    Address,
    /// A word of 8 bits.
    Byte,
}

const ONE: [Role; 1] = [Role::Value];

const TWO: [Role; 2] = [Role::Value, Role::Value];

const THREE: [Role; 3] = [Role::Value, Role::Value, Role::Value];

const WITH_CONDITION: [Role; 3] = [Role::Value, Role::Value, Role::Condition];

const WITH_COUNT: [Role; 2] = [Role::Value, Role::Count];

const OF_ADDRESS: [Role; 1] = [Role::Address];

const OF_CONDITION: [Role; 1] = [Role::Condition];

pub(crate) fn operands_of(name: Intrinsic) -> &'static [Role]
    ensures { result.now ≡ operands_of name }
{
    match name {
        Intrinsic::Adc | Intrinsic::Sbb => &WITH_CONDITION,
        Intrinsic::Neg | Intrinsic::Inc | Intrinsic::Dec => &ONE,
        Intrinsic::Not | Intrinsic::Bswap => &ONE,
        Intrinsic::Lea => &OF_ADDRESS,
        Intrinsic::Setcc => &OF_CONDITION,
        Intrinsic::Shl | Intrinsic::Shr | Intrinsic::Sar => &WITH_COUNT,
        Intrinsic::Rol | Intrinsic::Ror => &WITH_COUNT,
        Intrinsic::Div => &THREE,
        _ => &TWO,
    }
}

const BYTE: [Role; 1] = [Role::Byte];

const FIVE: [Role; 5] = [Role::Flag, Role::Flag, Role::Flag, Role::Flag, Role::Flag];

const FOUR_AND_ONE: [Role; 5] = [Role::Flag, Role::Flag, Role::Flag, Role::Flag, Role::Value];

const TWO_AND_ONE: [Role; 3] = [Role::Flag, Role::Flag, Role::Value];

const FIVE_AND_ONE: [Role; 6] = [
    Role::Flag,
    Role::Flag,
    Role::Flag,
    Role::Flag,
    Role::Flag,
    Role::Value,
];

const FIVE_AND_TWO: [Role; 7] = [
    Role::Flag,
    Role::Flag,
    Role::Flag,
    Role::Flag,
    Role::Flag,
    Role::Value,
    Role::Value,
];

pub(crate) fn results_of(name: Intrinsic) -> &'static [Role]
    ensures { result.now ≡ results_of name }
{
    match name {
        Intrinsic::Inc | Intrinsic::Dec => &FOUR_AND_ONE,
        Intrinsic::Not | Intrinsic::Bswap | Intrinsic::Lea => &ONE,
        Intrinsic::Setcc => &BYTE,
        Intrinsic::Cmp | Intrinsic::Test => &FIVE,
        Intrinsic::Rol | Intrinsic::Ror => &TWO_AND_ONE,
        Intrinsic::Mul | Intrinsic::Div => &FIVE_AND_TWO,
        _ => &FIVE_AND_ONE,
    }
}
