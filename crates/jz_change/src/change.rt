//! What a pass between two languages makes of a leak.

use jz_data::Seq;

/// A number of an item, by those of the item that it comes from.
#[derive(Clone, Copy)]
pub enum Number {
    /// A constant.
    Fixed(u64),
    /// The one at this place, from 0.
    Nth(u64),
}

/// The numbers of an item, by those of the item that it comes from.
#[derive(Drop)]
pub enum Numbers {
    /// All of them as they are.
    Same,
    /// These.
    These(Seq<Number>),
}

/// What a pass makes of a leak: a step for each of its items.
#[cycle(change)]
#[derive(Drop)]
pub struct Change {
    pub steps: Seq<Step>,
}

/// What an item of a leak becomes.
#[cycle(change)]
#[derive(Drop)]
pub enum Step {
    /// An operation becomes so many.
    Ops(Seq<Numbers>),
    /// An `if` stays one, behind so many operations.
    If {
        before: Seq<Numbers>,
        test: Numbers,
        then_part: Change,
        else_part: Change,
    },
    /// Of an `if` the arm of this answer is left, behind so many operations.
    Arm {
        answer: bool,
        before: Seq<Numbers>,
        part: Change,
    },
    /// A `while` stays one; the operations stand behind its prologue.
    While {
        prologue: Change,
        before: Seq<Numbers>,
        test: Numbers,
        body: Change,
    },
    /// Of a `while` that is false at once the prologue is left, before so many operations.
    Once {
        prologue: Change,
        before: Seq<Numbers>,
    },
    /// A `for` stays one, with one change for all rounds.
    For(Change),
    /// The rounds of a `for`, one after another, each with its change.
    Unrolled(Seq<Change>),
    /// The arguments, the body and the results of a call, one after another.
    Opened {
        arguments: Seq<Numbers>,
        body: Change,
        results: Seq<Numbers>,
    },
}
