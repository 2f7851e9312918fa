//! Programs: constants and functions.

use crate::expr::{Decl, Expr, Var};
use crate::stmt::Stmt;
use jz_io::{Seq, Span, Text};

/// What a text says: its constants and its functions, each in their order.
#[derive(Drop)]
pub struct Program {
    pub consts: Seq<Const>,
    pub funs: Seq<Fun>,
}

/// A named number. Its span is that of its name.
#[derive(Drop)]
pub struct Const {
    pub name: Text,
    pub value: Expr,
    pub span: Span,
}

#[derive(Clone, Copy)]
pub enum FunKind {
    /// Copied where it is called.
    Inline,
    /// Called from outside.
    Export,
}

/// A function. Its span is that of its name.
#[derive(Drop)]
pub struct Fun {
    pub notes: Seq<Note>,
    pub kind: FunKind,
    pub name: Text,
    pub span: Span,
    pub params: Seq<Param>,
    pub rets: Seq<Ret>,
    /// The variables that are declared in the body.
    pub vars: Seq<Var>,
    pub body: Seq<Stmt>,
    /// The variables that are returned.
    pub result: Seq<Var>,
}

/// A parameter of a function, with its declaration and the annotations of its group.
#[derive(Drop)]
pub struct Param {
    pub notes: Seq<Note>,
    pub var: Var,
}

/// A result that a function declares.
#[derive(Drop)]
pub struct Ret {
    pub notes: Seq<Note>,
    pub decl: Decl,
}

/// An entry of an annotation. Its span is that of the annotation's `#`.
#[derive(Drop, PartialEq, Eq)]
pub struct Note {
    pub name: Text,
    pub value: NoteValue,
    pub span: Span,
}

#[derive(Drop, PartialEq, Eq)]
pub enum NoteValue {
    None,
    Name(Text),
    Num(i128),
    /// The bytes between the quotes.
    Str(Seq<u8>),
}
