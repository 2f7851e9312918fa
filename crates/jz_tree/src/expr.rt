//! Expressions, and the variables and types in them.

use jz_io::{Boxed, Span, Text};
use jz_words::Size;

/// Where a value is kept.
#[derive(Clone, Copy, PartialEq, Eq)]
pub enum Storage {
    /// In a register, or of an array in a group of registers.
    Reg,
    /// In the frame.
    Stack,
    /// Nowhere: it is known when the text is compiled.
    Inline,
}

/// What a value is.
#[cycle(expression)]
#[derive(Drop)]
pub enum Ty {
    /// A whole number of 128 bits with a sign.
    Int,
    Bool,
    /// A word of that size.
    Word(Size),
    /// Words of that size, as many as the expression says.
    Array(Size, Boxed<Expr>),
}

/// What is declared of a variable or a result.
#[cycle(expression)]
#[derive(Drop)]
pub struct Decl {
    pub storage: Storage,
    pub ty: Ty,
}

/// A variable where it stands in the text.
#[cycle(expression)]
#[derive(Drop)]
pub struct Var {
    pub name: Text,
    /// Which copy of a function's variables it belongs to; 0 in a text that was read.
    pub copy: u32,
    /// Which cell of a register array it is, where arrays became scalars; none in a text that was
    /// read.
    pub cell: Option<u32>,
    /// What is declared of it, where it is declared.
    pub decl: Option<Decl>,
    pub span: Span,
}

/// An access to memory. Its span is that of its first token.
#[cycle(expression)]
#[derive(Drop)]
pub struct Access {
    /// The size that is written; where there is none, that of the other side.
    pub size: Option<Size>,
    /// The address.
    pub at: Boxed<Expr>,
    pub unaligned: bool,
    pub span: Span,
}

/// An operation on two values. On words the names without `S` are unsigned.
#[derive(Clone, Copy, PartialEq, Eq)]
pub enum BinOp {
    /// `||`, of conditions.
    OrElse,
    /// `&&`, of conditions.
    AndThen,
    Or,
    Xor,
    And,
    Eq,
    Ne,
    Lt,
    Le,
    Gt,
    Ge,
    LtS,
    LeS,
    GtS,
    GeS,
    Shl,
    Shr,
    /// `>>s`, which keeps the sign.
    Sar,
    Rol,
    Ror,
    Add,
    Sub,
    Mul,
    Div,
    Rem,
    DivS,
    RemS,
}

/// An expression. Its span is that of its first token, but for parentheses round the whole of it,
/// which the tree does not keep.
#[cycle(expression)]
pub enum Expr {
    /// The number that is written.
    Num(i128, Span),
    Bool(bool, Span),
    Var(Var),
    /// The cell of an array.
    Cell(Var, Boxed<Expr>),
    /// What memory holds.
    Load(Access),
    Neg(Boxed<Expr>, Span),
    Not(Boxed<Expr>, Span),
    /// The word of that size that a value becomes, its sign extended where `signed`.
    Cast {
        size: Size,
        signed: bool,
        e: Boxed<Expr>,
        span: Span,
    },
    Bin(BinOp, Boxed<Expr>, Boxed<Expr>, Span),
}

/// By a loop down the left side, which may be as long as a text.
impl Drop for Expr {
    #[cycle(drop)]
    fn drop(mut self) {
        loop {
            match self {
                Expr::Num(_, _) => return,
                Expr::Bool(_, _) => return,
                Expr::Var(var) => {
                    drop(var);
                    return;
                }
                Expr::Cell(var, at) => {
                    drop(var);
                    self = at.into_inner();
                }
                Expr::Load(access) => {
                    drop(access);
                    return;
                }
                Expr::Neg(e, _) => self = e.into_inner(),
                Expr::Not(e, _) => self = e.into_inner(),
                Expr::Cast {
                    size: _,
                    signed: _,
                    e,
                    span: _,
                } => self = e.into_inner(),
                Expr::Bin(_, left, right, _) => {
                    drop(right);
                    self = left.into_inner();
                }
            }
        }
    }
}
