//! Operations and intrinsics as rows name them.

use jz_tree::{BinOp, Intrinsic};

const OPERATIONS: [&str; 27] = [
    "OrElse", "AndThen", "Or", "Xor", "And", "Eq", "Ne", "Lt", "Le", "Gt", "Ge", "LtS", "LeS",
    "GtS", "GeS", "Shl", "Shr", "Sar", "Rol", "Ror", "Add", "Sub", "Mul", "Div", "Rem", "DivS",
    "RemS",
];

const INTRINSICS: [&str; 24] = [
    "Add", "Sub", "And", "Or", "Xor", "Adc", "Sbb", "Neg", "Inc", "Dec", "Not", "Bswap", "Lea",
    "Cmp", "Test", "Shl", "Shr", "Sar", "Rol", "Ror", "Imul", "Mul", "Div", "Setcc",
];

pub(crate) fn operation_name(op: BinOp) -> &'static str {
    OPERATIONS[op as usize]
}

pub(crate) fn intrinsic_name(name: Intrinsic) -> &'static str {
    INTRINSICS[name as usize]
}
