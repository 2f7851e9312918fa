//! The intrinsics, and how a text names them.

ghost use Rattle.std.specs.Prelude.{◌≡◌};
ghost use Rattle.jz_tree.specs.Spellings.{sized_spelling as sized_is, entry as entry_of, or_else, sums_named, ones_named, shifts_named, rest_named, spelled as spelled_as};

use jz_words::Size;

/// An instruction that a statement names.
#[derive(Clone, Copy, PartialEq, Eq)]
pub enum Intrinsic {
    Add,
    Sub,
    And,
    Or,
    Xor,
    Adc,
    Sbb,
    Neg,
    Inc,
    Dec,
    Not,
    Bswap,
    Lea,
    Cmp,
    Test,
    Shl,
    Shr,
    Sar,
    Rol,
    Ror,
    Imul,
    Mul,
    Div,
    Setcc,
}

/// An intrinsic, and the size that its name says.
#[derive(Clone, Copy)]
pub struct Instance {
    pub name: Intrinsic,
    pub size: Option<Size>,
}

#[tactic(auto, unfolding(crate::specs::Spellings::sized_spelling))]
fn sized(name: &str, plain: &str, s8: &str, s16: &str, s32: &str, s64: &str) -> Option<Option<Size>>
    ensures { result ≡ sized_is name.now plain.now s8.now s16.now s32.now s64.now }
{
    if name == plain {
        Some(None)
    } else if name == s8 {
        Some(Some(Size::S8))
    } else if name == s16 {
        Some(Some(Size::S16))
    } else if name == s32 {
        Some(Some(Size::S32))
    } else if name == s64 {
        Some(Some(Size::S64))
    } else {
        None
    }
}

#[tactic(auto, unfolding(crate::specs::Spellings::entry))]
fn entry(name: Intrinsic, size: Option<Option<Size>>) -> Option<Instance>
    ensures { result ≡ entry_of name size }
{
    match size {
        None => None,
        Some(size) => Some(Instance { name, size }),
    }
}

#[tactic(auto, unfolding(crate::specs::Spellings::or_else))]
fn either(a: Option<Instance>, b: Option<Instance>) -> Option<Instance>
    ensures { result ≡ or_else a b }
{
    match a {
        None => b,
        Some(a) => Some(a),
    }
}

#[tactic(auto, unfolding(crate::specs::Spellings::sums_named))]
fn sums(name: &str) -> Option<Instance>
    ensures { result ≡ sums_named name.now }
{
    let add = entry(
        Intrinsic::Add,
        sized(name, "ADD", "ADD_8", "ADD_16", "ADD_32", "ADD_64"),
    );
    let sub = entry(
        Intrinsic::Sub,
        sized(name, "SUB", "SUB_8", "SUB_16", "SUB_32", "SUB_64"),
    );
    let and = entry(
        Intrinsic::And,
        sized(name, "AND", "AND_8", "AND_16", "AND_32", "AND_64"),
    );
    let or = entry(
        Intrinsic::Or,
        sized(name, "OR", "OR_8", "OR_16", "OR_32", "OR_64"),
    );
    let xor = entry(
        Intrinsic::Xor,
        sized(name, "XOR", "XOR_8", "XOR_16", "XOR_32", "XOR_64"),
    );
    let adc = entry(
        Intrinsic::Adc,
        sized(name, "ADC", "ADC_8", "ADC_16", "ADC_32", "ADC_64"),
    );
    let sbb = entry(
        Intrinsic::Sbb,
        sized(name, "SBB", "SBB_8", "SBB_16", "SBB_32", "SBB_64"),
    );
    either(
        add,
        either(sub, either(and, either(or, either(xor, either(adc, sbb))))),
    )
}

#[tactic(auto, unfolding(crate::specs::Spellings::ones_named))]
fn ones(name: &str) -> Option<Instance>
    ensures { result ≡ ones_named name.now }
{
    let neg = entry(
        Intrinsic::Neg,
        sized(name, "NEG", "NEG_8", "NEG_16", "NEG_32", "NEG_64"),
    );
    let inc = entry(
        Intrinsic::Inc,
        sized(name, "INC", "INC_8", "INC_16", "INC_32", "INC_64"),
    );
    let dec = entry(
        Intrinsic::Dec,
        sized(name, "DEC", "DEC_8", "DEC_16", "DEC_32", "DEC_64"),
    );
    let not = entry(
        Intrinsic::Not,
        sized(name, "NOT", "NOT_8", "NOT_16", "NOT_32", "NOT_64"),
    );
    let bswap = entry(
        Intrinsic::Bswap,
        sized(name, "BSWAP", "BSWAP_8", "BSWAP_16", "BSWAP_32", "BSWAP_64"),
    );
    let lea = entry(
        Intrinsic::Lea,
        sized(name, "LEA", "LEA_8", "LEA_16", "LEA_32", "LEA_64"),
    );
    either(
        neg,
        either(inc, either(dec, either(not, either(bswap, lea)))),
    )
}

#[tactic(auto, unfolding(crate::specs::Spellings::shifts_named))]
fn shifts(name: &str) -> Option<Instance>
    ensures { result ≡ shifts_named name.now }
{
    let shl = entry(
        Intrinsic::Shl,
        sized(name, "SHL", "SHL_8", "SHL_16", "SHL_32", "SHL_64"),
    );
    let shr = entry(
        Intrinsic::Shr,
        sized(name, "SHR", "SHR_8", "SHR_16", "SHR_32", "SHR_64"),
    );
    let sar = entry(
        Intrinsic::Sar,
        sized(name, "SAR", "SAR_8", "SAR_16", "SAR_32", "SAR_64"),
    );
    let rol = entry(
        Intrinsic::Rol,
        sized(name, "ROL", "ROL_8", "ROL_16", "ROL_32", "ROL_64"),
    );
    let ror = entry(
        Intrinsic::Ror,
        sized(name, "ROR", "ROR_8", "ROR_16", "ROR_32", "ROR_64"),
    );
    either(shl, either(shr, either(sar, either(rol, ror))))
}

#[tactic(auto, unfolding(crate::specs::Spellings::rest_named))]
fn rest(name: &str) -> Option<Instance>
    ensures { result ≡ rest_named name.now }
{
    let cmp = entry(
        Intrinsic::Cmp,
        sized(name, "CMP", "CMP_8", "CMP_16", "CMP_32", "CMP_64"),
    );
    let test = entry(
        Intrinsic::Test,
        sized(name, "TEST", "TEST_8", "TEST_16", "TEST_32", "TEST_64"),
    );
    let imul = entry(
        Intrinsic::Imul,
        sized(name, "IMUL", "IMUL_8", "IMUL_16", "IMUL_32", "IMUL_64"),
    );
    let mul = entry(
        Intrinsic::Mul,
        sized(name, "MUL", "MUL_8", "MUL_16", "MUL_32", "MUL_64"),
    );
    let div = entry(
        Intrinsic::Div,
        sized(name, "DIV", "DIV_8", "DIV_16", "DIV_32", "DIV_64"),
    );
    let setcc = entry(
        Intrinsic::Setcc,
        sized(name, "SETcc", "SETcc_8", "SETcc_16", "SETcc_32", "SETcc_64"),
    );
    either(
        cmp,
        either(test, either(imul, either(mul, either(div, setcc)))),
    )
}

/// The intrinsic of that name.
pub fn spelled(name: &str) -> Option<Instance>
    ensures { result ≡ spelled_as name.now }
{
    either(
        sums(name),
        either(ones(name), either(shifts(name), rest(name))),
    )
}
