//! Left sides that an instruction writes at a place of its own.

ghost use Rattle.std.specs.Prelude.{◌≡◌, None};
ghost use Rattle.jz_tree.specs.declared.stmt.Lval.TheVariants as lval;
ghost use Rattle.jz_meaning.specs.declared.access.Kind.TheVariants as kind;
ghost use Rattle.jz_meaning.specs.Values.{ref_of};
ghost use Rattle.jz_flag_rows.specs.Results.{IsFlag, IsPinned, carry_alone};
ghost use Rattle.jz_row_operations.specs.Codes as codes;
ghost use Rattle.jz_pinned_rows.specs.TableHomes.{homes_of};
ghost use Rattle.jz_pinned_rows.specs.Refusals.{FindsOr};
ghost use Rattle.jz_pinned_rows.specs.Rows.{Nowhere};
ghost use Rattle.jz_pinned_rows.specs.InnerRows.{plain_row};

use crate::row::{Acts, PinnedRow};
use jz_meaning::{Kind, kind_of};
use jz_operands::Homes;
use jz_operations::{Flags, Pinned};
use jz_rows::{flag_in, place_of, word_in};
use jz_tree::{Lval, Size, Var};
use jz_type_names::same_size;

/// No flag becomes a variable.
pub fn no_flags() -> Flags
    ensures { result ≡ codes.no_flag }
{
    Flags {
        of: None,
        cf: None,
        sf: None,
        pf: None,
        zf: None,
    }
}

/// No flag of these actions becomes a variable.
#[tactic(auto, using(crate::proofs::ResultLemmas::no_acts, crate::proofs::ResultLemmas::some_acts))]
pub(crate) fn without_flags(acts: Option<Acts>) -> Option<PinnedRow>
    ensures { result ≡ plain_row acts }
{
    match acts {
        None => None,
        Some(acts) => Some(PinnedRow {
            acts,
            flags: no_flags(),
        }),
    }
}

/// The carry becomes that variable.
pub(crate) fn carry_flag(carry: Option<Pinned>) -> Flags
    ensures { result ≡ carry_alone carry }
{
    Flags {
        of: None,
        cf: carry,
        sf: None,
        pf: None,
        zf: None,
    }
}

fn bool_variable(homes: &Homes, var: &Var) -> Option<Option<Pinned>>
    requires { (ref_of var.now).kind ≡ kind.Bool }
    ensures { let home = homes_of homes.now in
        let left = lval.Var var.now in
        FindsOr result (IsFlag home left) (Nowhere (IsFlag home left)) }
{
    let flag = flag_in(homes, var)?;
    Some(Some(flag))
}

fn flag_variable(homes: &Homes, var: &Var) -> Option<Option<Pinned>>
    ensures { let home = homes_of homes.now in
        let left = lval.Var var.now in
        FindsOr result (IsFlag home left) (Nowhere (IsFlag home left)) }
{
    match kind_of(var) {
        Kind::Bool => bool_variable(homes, var),
        Kind::Undeclared => None,
        Kind::Int => None,
        Kind::Word(_) => None,
        Kind::Array(_, _) => None,
    }
}

/// The variable that a flag becomes, or none where it is dropped.
pub fn flag_result(homes: &Homes, left: &Lval) -> Option<Option<Pinned>>
    ensures { let home = homes_of homes.now in
        FindsOr result (IsFlag home left.now) (Nowhere (IsFlag home left.now)) }
{
    match left {
        Lval::Skip(_) => Some(None),
        Lval::Var(var) => flag_variable(homes, var),
        Lval::Cell(_, _) => None,
        Lval::Store(_) => None,
    }
}

fn sized_variable(homes: &Homes, size: Size, var: &Var) -> Option<Option<Pinned>>
    requires { (ref_of var.now).kind ≡ kind.Word size }
    ensures { let home = homes_of homes.now in
        let left = lval.Var var.now in
        FindsOr result (IsPinned home size left) (Nowhere (IsPinned home size left)) }
{
    let variable = word_in(homes, size, var)?;
    Some(Some(Pinned {
        variable,
        span: place_of(var),
    }))
}

fn word_variable(homes: &Homes, size: Size, var: &Var) -> Option<Option<Pinned>>
    ensures { let home = homes_of homes.now in
        let left = lval.Var var.now in
        FindsOr result (IsPinned home size left) (Nowhere (IsPinned home size left)) }
{
    match kind_of(var) {
        Kind::Word(own) => {
            if same_size(own, size) {
                sized_variable(homes, size, var)
            } else {
                None
            }
        }
        Kind::Undeclared => None,
        Kind::Int => None,
        Kind::Bool => None,
        Kind::Array(_, _) => None,
    }
}

/// The variable that a word in RAX or RDX becomes, or none where it is dropped.
pub fn word_result(homes: &Homes, size: Size, left: &Lval) -> Option<Option<Pinned>>
    ensures { let home = homes_of homes.now in
        FindsOr result (IsPinned home size left.now) (Nowhere (IsPinned home size left.now)) }
{
    match left {
        Lval::Skip(_) => Some(None),
        Lval::Var(var) => word_variable(homes, size, var),
        Lval::Cell(_, _) => None,
        Lval::Store(_) => None,
    }
}
