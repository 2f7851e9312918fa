//! The operations of a row.

use crate::names::{number_of, reg_named};
use jz_io::Span;
use jz_operations::{Action, Address, Arg, Cell, Condition, Flags, Operation, Pinned};
use jz_place::Test;
use jz_words::Size;
use x64_insn::{Alu, Cond, One, Shift, Wide};

/// The letters of the variables, and where the operation stands.
#[derive(Clone, Copy)]
pub struct Row<'a> {
    pub letters: &'a [u8],
    pub span: Span,
}

/// An operation as it is written, `NAME/SIZE/MORE:FIRST,SECOND,THIRD`.
#[derive(Clone, Copy)]
struct Written<'a> {
    name: &'a str,
    size: &'a str,
    more: &'a str,
    first: &'a str,
    second: &'a str,
    third: &'a str,
}

pub const CONDITIONS: [(&str, Cond); 16] = [
    ("o", Cond::O),
    ("no", Cond::No),
    ("b", Cond::B),
    ("ae", Cond::Ae),
    ("e", Cond::E),
    ("ne", Cond::Ne),
    ("be", Cond::Be),
    ("a", Cond::A),
    ("s", Cond::S),
    ("ns", Cond::Ns),
    ("p", Cond::P),
    ("np", Cond::Np),
    ("l", Cond::L),
    ("ge", Cond::Ge),
    ("le", Cond::Le),
    ("g", Cond::G),
];

fn size_named(name: &str) -> Size {
    match name {
        "8" => Size::S8,
        "16" => Size::S16,
        "32" => Size::S32,
        _ => Size::S64,
    }
}

fn alu_named(name: &str) -> Option<Alu> {
    match name {
        "add" => Some(Alu::Add),
        "or" => Some(Alu::Or),
        "adc" => Some(Alu::Adc),
        "sbb" => Some(Alu::Sbb),
        "and" => Some(Alu::And),
        "sub" => Some(Alu::Sub),
        "xor" => Some(Alu::Xor),
        "cmp" => Some(Alu::Cmp),
        "test" => Some(Alu::Test),
        _ => None,
    }
}

fn one_named(name: &str) -> Option<One> {
    match name {
        "not" => Some(One::Not),
        "neg" => Some(One::Neg),
        "inc" => Some(One::Inc),
        "dec" => Some(One::Dec),
        _ => None,
    }
}

fn wide_named(name: &str) -> Option<Wide> {
    match name {
        "mul" => Some(Wide::Mul),
        "imulw" => Some(Wide::Imul),
        "div" => Some(Wide::Div),
        "idiv" => Some(Wide::Idiv),
        _ => None,
    }
}

fn shift_named(name: &str) -> Option<Shift> {
    match name {
        "rol" => Some(Shift::Rol),
        "ror" => Some(Shift::Ror),
        "shl" => Some(Shift::Shl),
        "shr" => Some(Shift::Shr),
        "sar" => Some(Shift::Sar),
        _ => None,
    }
}

impl Row<'_> {
    fn variable(&self, text: &str) -> u32 {
        match text.as_bytes().first() {
            Some(letter) => number_of(self.letters, *letter),
            None => u32::MAX,
        }
    }

    /// None where nothing or `_` stands.
    pub fn pinned(&self, text: &str) -> Option<Pinned> {
        if text.is_empty() || text == "_" {
            return None;
        }
        Some(Pinned {
            variable: self.variable(text),
            span: self.span,
        })
    }

    fn with_term(&self, address: Address, term: &str) -> Address {
        match term.split_once('*') {
            Some((scale, variable)) => Address {
                base: address.base,
                index: Some((self.variable(variable), scale.parse().unwrap_or(1))),
                disp: address.disp,
            },
            None => match term.parse() {
                Ok(disp) => Address {
                    base: address.base,
                    index: address.index,
                    disp,
                },
                Err(_) => Address {
                    base: Some(self.variable(term)),
                    index: address.index,
                    disp: address.disp,
                },
            },
        }
    }

    /// `x+4*y+8`, the parts that are there.
    fn address(&self, text: &str) -> Address {
        let mut address = Address {
            base: None,
            index: None,
            disp: 0,
        };
        for term in text.strip_suffix(']').unwrap_or(text).split('+') {
            if !term.is_empty() {
                address = self.with_term(address, term);
            }
        }
        address
    }

    /// `[ADDRESS]`, or `0[x+2]`, a cell of the first stack variable.
    fn accessed(&self, of: &str, inner: &str) -> Arg {
        let address = self.address(inner);
        match of.parse() {
            Ok(of) => Arg::Cell(Cell {
                of,
                index: address.base,
                offset: address.disp,
            }),
            Err(_) => Arg::Mem(address),
        }
    }

    /// A variable, `#5`, an access, or a register by its name, `rax=x` or `rax=_`.
    fn arg(&self, text: &str) -> Arg {
        if let Some(number) = text.strip_prefix('#') {
            return Arg::Imm(number.parse().unwrap_or(0));
        }
        if let Some((of, inner)) = text.split_once('[') {
            return self.accessed(of, inner);
        }
        match text.split_once('=') {
            Some((reg, variable)) => Arg::At(reg_named(reg), self.pinned(variable)),
            None => Arg::Var(self.variable(text)),
        }
    }

    /// A condition of the flags, or a variable in a flag, behind `!` denied.
    pub fn condition(&self, text: &str) -> Condition {
        for (name, cond) in CONDITIONS {
            if name == text {
                return Condition::Cc(cond);
            }
        }
        match text.strip_prefix('!') {
            Some(variable) => Condition::Flag(self.variable(variable), true),
            None => Condition::Flag(self.variable(text), false),
        }
    }

    fn shift(&self, kind: Shift, written: Written<'_>) -> Action {
        let size = size_named(written.size);
        let rm = self.arg(written.first);
        match written.second.strip_prefix('#') {
            Some(count) => Action::Shift(kind, size, rm, count.parse().unwrap_or(0)),
            None => Action::ShiftBy(
                kind,
                size,
                rm,
                Pinned {
                    variable: self.variable(written.second),
                    span: self.span,
                },
            ),
        }
    }

    fn extend(&self, signed: bool, written: Written<'_>) -> Action {
        Action::Extend {
            signed,
            to: size_named(written.size),
            from: size_named(written.more),
            var: self.variable(written.first),
            rm: self.arg(written.second),
        }
    }

    fn other_action(&self, written: Written<'_>) -> Action {
        let size = size_named(written.size);
        let first = self.variable(written.first);
        let second = self.arg(written.second);
        match written.name {
            "mov" => Action::Mov(size, self.arg(written.first), second),
            "movzx" => self.extend(false, written),
            "movsx" => self.extend(true, written),
            "lea" => {
                let inner = written.second.strip_prefix('[').unwrap_or("");
                Action::Lea(first, self.address(inner))
            }
            "imul" => match written.third.parse() {
                Ok(number) => Action::ImulBy(size, first, second, number),
                Err(_) => Action::Imul(size, first, second),
            },
            "bswap" => Action::Bswap(size, first),
            "sign" => Action::Sign(
                size,
                self.pinned(written.first),
                self.pinned(written.second),
            ),
            "set" => Action::Set(self.condition(written.size), self.arg(written.first)),
            "cmov" => Action::Cmov(self.condition(written.more), size, first, second),
            _ => Action::Bswap(size, u32::MAX),
        }
    }

    fn action(&self, written: Written<'_>) -> Action {
        let size = size_named(written.size);
        let first = self.arg(written.first);
        if let Some(op) = alu_named(written.name) {
            let carry = self.pinned(written.third);
            return Action::Alu(op, size, first, self.arg(written.second), carry);
        }
        if let Some(op) = one_named(written.name) {
            return Action::One(op, size, first);
        }
        if let Some(kind) = shift_named(written.name) {
            return self.shift(kind, written);
        }
        match wide_named(written.name) {
            Some(op) => {
                let low = self.pinned(written.first);
                let high = self.pinned(written.second);
                Action::Wide(op, size, low, high, self.arg(written.third))
            }
            None => self.other_action(written),
        }
    }

    /// The variable that a flag becomes, by `cf=C,of=D`.
    fn flag(&self, text: &str, name: &str) -> Option<Pinned> {
        for pair in text.split(',') {
            if let Some((flag, variable)) = pair.split_once('=') {
                if flag == name {
                    return self.pinned(variable);
                }
            }
        }
        None
    }

    fn flags(&self, text: &str) -> Flags {
        Flags {
            of: self.flag(text, "of"),
            cf: self.flag(text, "cf"),
            sf: self.flag(text, "sf"),
            pf: self.flag(text, "pf"),
            zf: self.flag(text, "zf"),
        }
    }

    /// An operation, and behind `^` what its flags become.
    pub fn operation(&self, text: &str) -> Operation {
        let (text, flags) = text.split_once('^').unwrap_or((text, ""));
        let (head, args) = text.split_once(':').unwrap_or((text, ""));
        let mut head = head.split('/');
        let mut args = args.split(',');
        let written = Written {
            name: head.next().unwrap_or(""),
            size: head.next().unwrap_or(""),
            more: head.next().unwrap_or(""),
            first: args.next().unwrap_or(""),
            second: args.next().unwrap_or(""),
            third: args.next().unwrap_or(""),
        };
        Operation {
            span: self.span,
            action: self.action(written),
            flags: self.flags(flags),
        }
    }

    /// Nothing, which is `true`; a condition and behind `:` the operation before it; or a flag.
    pub fn test(&self, text: &str) -> Test {
        if text.is_empty() {
            return Test::Always;
        }
        match text.split_once(':') {
            Some((condition, operation)) => {
                Test::If(Some(self.operation(operation)), self.condition(condition))
            }
            None => Test::If(None, self.condition(text)),
        }
    }
}
