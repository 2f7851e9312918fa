//! What a run leaks, as it is shown.

use jz_data::Seq;

/// What a run leaks: an item for each statement that ran and that leaks.
#[cycle(leak)]
#[derive(Drop)]
pub struct Leak {
    pub items: Seq<Item>,
}

/// What a statement leaks. Numbers are, in the order of evaluation, the index of each array access,
/// the address of each memory access, and high word, low word and divisor of each division.
#[cycle(leak)]
#[derive(Drop)]
pub enum Item {
    /// The numbers of an operation.
    Op(Seq<u64>),
    /// The numbers of a condition, its answer, and the leak of the arm.
    If(Seq<u64>, bool, Leak),
    /// The turns, the last of them that of the false condition.
    While(Seq<Turn>),
    /// The leak of the body, once for each value of the counter.
    For(Seq<Leak>),
    /// The numbers of the arguments, the leak of the callee, the numbers of the left sides.
    Call(Seq<u64>, Leak, Seq<u64>),
    /// The run was cut here: the last item of each list that was open then holds it.
    Cut,
}

/// A turn of a `while`. Where the condition is false, the body's leak is empty.
#[cycle(leak)]
#[derive(Drop)]
pub struct Turn {
    pub prologue: Leak,
    /// The numbers of the condition.
    pub numbers: Seq<u64>,
    /// The answer of the condition.
    pub more: bool,
    pub body: Leak,
}
