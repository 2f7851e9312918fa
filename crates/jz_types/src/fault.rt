//! Why a program is refused, and which of several faults is told.

ghost use Rattle.std.specs.Prelude.{◌≡◌};
ghost use Rattle.jz_types.specs.Faults.{rule_number};
ghost use Rattle.jz_types.specs.InnerFaults.{told_of, first_told};

use jz_tree::Span;
use jz_type_names::is_before;

/// A rule of typing.
#[derive(Clone, Copy, Debug)]
pub enum TypeRule {
    /// A variable or constant is declared above its use, a function anywhere.
    Unknown,
    /// Names differ among functions and constants, among the variables of a function, and among the
    /// results of a statement.
    Duplicate,
    /// Types, sizes, and counts of arguments and results agree.
    Mismatch,
    /// Variables are kept, set and read as their storage allows.
    Storage,
    /// No function reaches itself.
    Recursion,
    /// A statement matches a row of the tables.
    NoInstruction,
    /// No array is copied.
    ArrayCopy,
    /// No precondition is given.
    BadAnnotation,
    /// An export function has at most six words in registers as parameters, and at most two as
    /// results.
    ExportShape,
    /// An index of an array in registers is inline.
    RegIndex,
}

impl TypeRule {
    /// The rule's number in what is told.
    pub fn number(self) -> u8
        ensures { result ≡ rule_number self }
    {
        match self {
            TypeRule::Unknown => 1,
            TypeRule::Duplicate => 2,
            TypeRule::Mismatch => 3,
            TypeRule::Storage => 4,
            TypeRule::Recursion => 5,
            TypeRule::NoInstruction => 6,
            TypeRule::ArrayCopy => 7,
            TypeRule::BadAnnotation => 8,
            TypeRule::ExportShape => 9,
            TypeRule::RegIndex => 10,
        }
    }
}

/// A rule that fails, and where.
#[derive(Clone, Copy)]
pub struct TypeFault {
    pub rule: TypeRule,
    pub span: Span,
}

/// Where each rule fails first, if it fails.
#[derive(Clone, Copy)]
pub(crate) struct Firsts {
    pub(crate) unknown: Option<Span>,
    pub(crate) repeated: Option<Span>,
    pub(crate) mismatched: Option<Span>,
    pub(crate) misplaced: Option<Span>,
    pub(crate) recursive: Option<Span>,
    pub(crate) unmatched: Option<Span>,
    pub(crate) copied: Option<Span>,
    pub(crate) annotated: Option<Span>,
    pub(crate) misshapen: Option<Span>,
    pub(crate) indexed: Option<Span>,
}

/// The fault of the earlier of two places; at one place the first.
fn told(best: Option<TypeFault>, rule: TypeRule, at: Option<Span>) -> Option<TypeFault>
    ensures { result ≡ told_of best rule at }
{
    match at {
        None => best,
        Some(span) => match best {
            None => Some(TypeFault { rule, span }),
            Some(f) => {
                if is_before(span, f.span) {
                    Some(TypeFault { rule, span })
                } else {
                    best
                }
            }
        },
    }
}

/// The fault that is told, if there is one.
pub(crate) fn first_told(firsts: Firsts) -> Option<TypeFault>
    ensures { result ≡ first_told firsts }
{
    let unknown = told(None, TypeRule::Unknown, firsts.unknown);
    let repeated = told(unknown, TypeRule::Duplicate, firsts.repeated);
    let mismatched = told(repeated, TypeRule::Mismatch, firsts.mismatched);
    let misplaced = told(mismatched, TypeRule::Storage, firsts.misplaced);
    let recursive = told(misplaced, TypeRule::Recursion, firsts.recursive);
    let unmatched = told(recursive, TypeRule::NoInstruction, firsts.unmatched);
    let copied = told(unmatched, TypeRule::ArrayCopy, firsts.copied);
    let annotated = told(copied, TypeRule::BadAnnotation, firsts.annotated);
    let misshapen = told(annotated, TypeRule::ExportShape, firsts.misshapen);
    told(misshapen, TypeRule::RegIndex, firsts.indexed)
}
