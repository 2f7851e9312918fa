//! What is open while the tree of a transformer is read.

use jz_leak::{Case, Out, Seq, Tr};

/// A case of which a tree is open, by what was read of it before.
#[derive(Drop)]
pub enum Pending {
    /// The arm of an `if` where the condition is true.
    Then {
        test: Seq<Out>,
        then_outs: Seq<Out>,
    },
    /// The other arm.
    Else {
        test: Seq<Out>,
        then_outs: Seq<Out>,
        then_tr: Tr,
        else_outs: Seq<Out>,
    },
    /// The prologue of a `while`.
    Prologue,
    /// Its body.
    Body {
        prologue: Tr,
        test: Seq<Out>,
        more_outs: Seq<Out>,
    },
    /// A round of a `for`, behind other rounds.
    Round(Seq<Tr>),
    /// The body of a call.
    Callee(Seq<Out>),
}

/// The cases of a tree, and the one behind them in which another tree is open.
#[derive(Drop)]
pub struct Level {
    pub cases: Seq<Case>,
    pub pending: Pending,
}

/// The innermost tree that is open, by its cases so far, and the trees that it stands in, the
/// outermost first.
#[derive(Drop)]
pub struct Open {
    pub levels: Seq<Level>,
    pub cases: Seq<Case>,
}

/// What a step leaves: the whole tree, or what is open.
#[derive(Drop)]
pub enum Step {
    Done(Tr),
    Going(Open),
}
