//! What a leak becomes: trees of events whose numbers are forms over leaked numbers.

ghost use Rattle.std.specs.Prelude.{◌≡◌, [], ◌++◌, ◌+◌, ◌<◌, ◌≤◌, ◌⊎◌, MatchOption};
ghost use Rattle.jz_leak.specs.declared.transformer.Case.{size-Case};
ghost use Rattle.jz_leak.specs.declared.transformer.Case.TheVariants as case;
ghost use Rattle.jz_leak.specs.declared.transformer.Tr.{size-Tr};
ghost use Rattle.jz_leak.specs.InnerSizes.{case_size, tr_size};

use jz_data::Seq;

/// A number of an event, by the leaked numbers of a statement and the stack pointer at entry.
#[derive(Clone, Copy)]
pub enum Form {
    /// A constant.
    Num(u64),
    /// The leaked number at this place, from 0.
    Leaked(u64),
    /// The stack pointer at entry plus an offset, modulo 2^64.
    Frame(i64),
    /// The stack pointer at entry plus an offset, plus a factor times the leaked number at a place,
    /// modulo 2^64.
    Indexed(i64, u64, u64),
}

/// An event of the machine, with a form for each of its numbers.
#[derive(Clone, Copy)]
pub enum Out {
    /// Whether the jump is taken is fixed here.
    Branch(bool),
    /// The address of an access.
    Addr(Form),
    /// High word, low word and divisor.
    Div(Form, Form, Form),
}

/// One case for each item of a leak.
#[cycle(transformer)]
pub struct Tr {
    pub cases: Seq<Case>,
}

impl Tr {
    fn into_cases(self) -> Seq<Case>
        ensures { result ≡ self.cases }
    {
        let Tr { cases } = self;
        cases
    }

    /// Moves the cases behind those of `first`; where there is no memory for that, both stay.
    fn joined(self, first: Tr) -> (Tr, Tr)
        ensures { ((result.0.cases ≡ first.cases ++ self.cases) × (result.1.cases ≡ []))
            ⊎ ((result.0 ≡ first) × (result.1 ≡ self)) }
    {
        let mut more = self.into_cases().into_vec();
        let mut cases = first.into_cases().into_vec();
        let _ = cases.append(&mut more);
        let joined = Tr {
            cases: Seq::from_vec(cases),
        };
        let left = Tr {
            cases: Seq::from_vec(more),
        };
        (joined, left)
    }

    /// Takes a tree out of the last case, where that has one.
    fn take_tree(self) -> (Tr, Option<Tr>)
        ensures sizes { MatchOption result.1 (result.0 ≡ self)
            (λ tree. tr_size result.0 + tr_size tree ≡ tr_size self) }
        ensures depths { MatchOption result.1 (result.0 ≡ self)
            (λ tree. (size-Tr result.0 ≤ size-Tr self) × (size-Tr tree < size-Tr self)) }
    {
        let Tr { cases } = self;
        let mut cases = cases.into_vec();
        let tree = match cases.pop() {
            None => None,
            Some(case) => {
                let (left, tree) = case.take_tree();
                cases.push_reserved(left);
                tree
            }
        };
        let rest = Tr {
            cases: Seq::from_vec(cases),
        };
        (rest, tree)
    }
}

impl Case {
    fn call(arguments: Seq<Out>, body: Tr, results: Seq<Out>) -> Case
        ensures { result ≡ case.Call arguments body results }
    {
        Case::Call {
            arguments,
            body,
            results,
        }
    }

    /// Takes a tree out of it, where it has one. What is left is no case of the same leak.
    fn take_tree(self) -> (Case, Option<Tr>)
        ensures sizes { MatchOption result.1 (result.0 ≡ self)
            (λ tree. case_size result.0 + tr_size tree ≡ case_size self) }
        ensures depths { MatchOption result.1 (result.0 ≡ self)
            (λ tree. (size-Case result.0 ≤ size-Case self) × (size-Tr tree < size-Case self)) }
    {
        match self {
            Case::Op(outs) => (Case::Op(outs), None),
            Case::If {
                test,
                then_outs,
                then_tr,
                else_outs,
                else_tr,
            } => {
                drop(then_outs);
                (Case::call(test, else_tr, else_outs), Some(then_tr))
            }
            Case::While {
                prologue,
                test,
                more_outs,
                body,
                leave_outs,
            } => {
                drop(more_outs);
                (Case::call(test, body, leave_outs), Some(prologue))
            }
            Case::For(rounds) => {
                let mut rounds = rounds;
                let round = rounds.pop();
                (Case::For(rounds), round)
            }
            Case::Call {
                arguments,
                body,
                results,
            } => {
                drop(results);
                (Case::Op(arguments), Some(body))
            }
        }
    }
}

/// By a loop over the cases that are left, for they may nest as deep as a text is long.
impl Drop for Tr {
    #[cycle(drop)]
    fn drop(mut self) {
        loop {
            let (rest, tree) = self.take_tree();
            self = rest;
            match tree {
                Some(tree) => {
                    let (joined, left) = tree.joined(self);
                    drop(left);
                    self = joined;
                }
                None => match self.cases.pop() {
                    Some(case) => drop(case),
                    None => break,
                },
            }
        }
        let Tr { cases } = self;
        drop(cases);
    }
}

/// What an item of a leak becomes. The lists of a condition and of a call see the numbers of that
/// condition or call.
#[cycle(transformer)]
#[derive(Drop)]
pub enum Case {
    /// The events of an operation.
    Op(Seq<Out>),
    /// The events of the condition, then events and arm by its answer.
    If {
        test: Seq<Out>,
        then_outs: Seq<Out>,
        then_tr: Tr,
        else_outs: Seq<Out>,
        else_tr: Tr,
    },
    /// In each turn the prologue, the events of the condition, and then events and body where it is
    /// true, events where it is false.
    While {
        prologue: Tr,
        test: Seq<Out>,
        more_outs: Seq<Out>,
        body: Tr,
        leave_outs: Seq<Out>,
    },
    /// One for each round.
    For(Seq<Tr>),
    /// The events of the arguments, the callee, the events of the results.
    Call {
        arguments: Seq<Out>,
        body: Tr,
        results: Seq<Out>,
    },
}

/// The transformer of a function: the events before its body, those of the body, and those after
/// it.
#[derive(Drop)]
pub struct Transformer {
    pub before: Seq<Out>,
    pub body: Tr,
    pub after: Seq<Out>,
}
