//! The syntax tree of a text: plain data.
#![tactic(auto)]

mod comparing;
mod copying;
mod copying_statements;
mod expr;
mod intrinsic;
mod operators;
mod program;
mod stmt;

pub use copying::{LeftSide, LeftStep};
pub use copying_statements::{
    copy_block, copy_exprs, copy_lvals, copy_notes, copy_params, copy_rets, copy_vars,
};
pub use expr::{Access, BinOp, Decl, Expr, Storage, Ty, Var};
pub use intrinsic::{Instance, Intrinsic, spelled};
pub use jz_io::{Boxed, Failure, Seq, Span, Text};
pub use jz_words::{Size, Word};
pub use operators::{carries, divides, is_shift, joins};
pub use program::{Const, Fun, FunKind, Note, NoteValue, Param, Program, Ret};
pub use stmt::{Lval, Rhs, Stmt, StmtKind};
