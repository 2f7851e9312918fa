//! What is declared of a variable.

ghost use Rattle.std.specs.Prelude.{◌≡◌};
ghost use Rattle.std.specs.Option.{option_copied};
ghost use Rattle.jz_type_names.specs.Kinds.{kind_of, declared_of, known_of, written_length, same_size, same_storage, same_kind, is_inline_int, is_array, is_register_array, is_register_word, is_word, is_inline, array_of, whole_array};

use jz_tree::{Decl, Expr, Lval, Size, Storage, Ty, Var};

/// The type of a variable, without the length of an array.
#[derive(Clone, Copy)]
pub enum Kind {
    Int,
    /// A bool.
    Truth,
    /// A word of that size.
    Word(Size),
    /// Words of that size.
    Array(Size),
}

/// What is declared of a variable.
#[derive(Clone, Copy)]
pub struct Declared {
    pub storage: Storage,
    pub kind: Kind,
}

fn kind_of(ty: &Ty) -> Kind
    ensures { result ≡ kind_of ty.now }
{
    match ty {
        Ty::Int => Kind::Int,
        Ty::Bool => Kind::Truth,
        Ty::Word(size) => Kind::Word(*size),
        Ty::Array(size, _) => Kind::Array(*size),
    }
}

/// What a declaration says.
pub fn declaration(decl: &Decl) -> Declared
    ensures { result ≡ declared_of decl.now }
{
    Declared {
        storage: decl.storage,
        kind: kind_of(&decl.ty),
    }
}

/// What is declared of a variable, where its name is declared.
pub fn known(var: &Var) -> Option<Declared>
    ensures { result ≡ known_of var.now }
{
    match &var.decl {
        None => None,
        Some(decl) => Some(declaration(decl)),
    }
}

/// The length of an array, where it is written as a number.
pub fn written_length(decl: &Decl) -> Option<i128>
    ensures { result ≡ written_length decl.now }
{
    match &decl.ty {
        Ty::Array(_, length) => match length.get() {
            Expr::Num(number, _) => Some(*number),
            _ => None,
        },
        _ => None,
    }
}

pub fn same_size(a: Size, b: Size) -> bool
    ensures { result ≡ same_size a b }
{
    a.bits() == b.bits()
}

pub fn same_storage(a: Storage, b: Storage) -> bool
    ensures { result ≡ same_storage a b }
{
    match a {
        Storage::Reg => matches!(b, Storage::Reg),
        Storage::Stack => matches!(b, Storage::Stack),
        Storage::Inline => matches!(b, Storage::Inline),
    }
}

pub fn same_kind(a: Kind, b: Kind) -> bool
    ensures { result ≡ same_kind a b }
{
    match a {
        Kind::Int => matches!(b, Kind::Int),
        Kind::Truth => matches!(b, Kind::Truth),
        Kind::Word(y) => match b {
            Kind::Word(z) => same_size(y, z),
            _ => false,
        },
        Kind::Array(y) => match b {
            Kind::Array(z) => same_size(y, z),
            _ => false,
        },
    }
}

/// Whether it is an inline integer, as an unknown name counts for.
pub fn is_inline_int(known: Option<Declared>) -> bool
    ensures { result ≡ is_inline_int known }
{
    match known {
        None => true,
        Some(d) => match d.storage {
            Storage::Inline => matches!(d.kind, Kind::Int),
            _ => false,
        },
    }
}

pub fn is_array(known: Option<Declared>) -> bool
    ensures { result ≡ is_array known }
{
    match known {
        None => false,
        Some(d) => matches!(d.kind, Kind::Array(_)),
    }
}

pub fn is_register_array(known: Option<Declared>) -> bool
    ensures { result ≡ is_register_array known }
{
    match known {
        None => false,
        Some(d) => same_storage(d.storage, Storage::Reg) && matches!(d.kind, Kind::Array(_)),
    }
}

pub fn is_register_word(known: Option<Declared>) -> bool
    ensures { result ≡ is_register_word known }
{
    match known {
        None => false,
        Some(d) => same_storage(d.storage, Storage::Reg) && matches!(d.kind, Kind::Word(_)),
    }
}

/// Whether it is a word in a register or in the frame.
pub fn is_word(known: Option<Declared>) -> bool
    ensures { result ≡ is_word known }
{
    match known {
        None => false,
        Some(d) => !same_storage(d.storage, Storage::Inline) && matches!(d.kind, Kind::Word(_)),
    }
}

/// Whether the value of an expression is known when the text is compiled.
pub fn is_inline(expr: &Expr) -> bool
    ensures { result ≡ is_inline expr.now }
{
    let mut cur = expr;
    loop {
        match cur {
            Expr::Num(_, _) => return true,
            Expr::Bool(_, _) => return true,
            Expr::Var(var) => return is_inline_int(known(var)),
            Expr::Cell(_, _) => return false,
            Expr::Load(_) => return false,
            Expr::Neg(e, _) => cur = e.get(),
            Expr::Not(e, _) => cur = e.get(),
            Expr::Cast { .. } => return false,
            Expr::Bin(_, left, right, _) => {
                if !is_inline(right.get()) {
                    return false;
                }
                cur = left.get();
            }
        }
    }
}

/// The array that an argument is.
pub fn array_of(expr: &Expr) -> Option<&Var>
    ensures { option_copied result ≡ array_of expr.now }
{
    match expr {
        Expr::Var(var) => if is_array(known(var)) {
            Some(var)
        } else {
            None
        },
        _ => None,
    }
}

/// The array that a left side is as a whole.
pub fn whole_array(to: &Lval) -> Option<&Var>
    ensures { option_copied result ≡ whole_array to.now }
{
    match to {
        Lval::Var(var) => if is_array(known(var)) {
            Some(var)
        } else {
            None
        },
        _ => None,
    }
}
