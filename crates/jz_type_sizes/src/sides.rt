//! Left sides of assignments.

ghost use Rattle.std.specs.Prelude.{◌≡◌};
ghost use Rattle.jz_type_names.specs.Order.{earliest};
ghost use Rattle.jz_type_sizes.specs.Wants.{own_want, form_of_size};
ghost use Rattle.jz_type_sizes.specs.Sides.{left_form, left_wrong, left_span, set_want, within, any_size, has_size, takes_form, takes, takes_word};

use crate::walk::fault;
use crate::wants::{
    Form, Want, cell_size, fits_access, fits_cell, fits_known, known_size, known_truth, own_size,
};
use jz_tree::{Lval, Size, Span};
use jz_type_names::{earlier_of, is_array, is_inline_int, is_skip, known, same_size, unless};

fn of_size(size: Option<Size>) -> Form
    ensures { result ≡ form_of_size size }
{
    Form {
        size,
        truth: false,
        inline: false,
    }
}

/// What a left side is by itself.
pub(crate) fn left_form(to: &Lval) -> Form
    ensures { result ≡ left_form to.now }
{
    match to {
        Lval::Skip(_) => of_size(None),
        Lval::Var(var) => Form {
            size: known_size(known(var)),
            truth: known_truth(known(var)),
            inline: is_inline_int(known(var)),
        },
        Lval::Cell(var, _) => of_size(cell_size(known(var))),
        Lval::Store(access) => of_size(access.size),
    }
}

/// The first wrong place of a left side, where that is wanted of it.
pub(crate) fn left_fault(to: &Lval, want: Want) -> Option<Span>
    ensures { result ≡ earliest (left_wrong to.now want) }
{
    match to {
        Lval::Skip(_) => None,
        Lval::Var(var) => {
            let declared = known(var);
            if is_array(declared) {
                return None;
            }
            unless(fits_known(declared, want), var.span)
        }
        Lval::Cell(var, at) => {
            let own = unless(fits_cell(cell_size(known(var)), want), var.span);
            earlier_of(own, fault(at.get(), Want::Sized(Size::S64)))
        }
        Lval::Store(access) => {
            let own = unless(fits_access(access.size, want), access.span);
            earlier_of(own, fault(access.at.get(), Want::Sized(Size::S64)))
        }
    }
}

fn own_want(form: Form) -> Want
    ensures { result ≡ own_want form }
{
    if form.truth {
        Want::Truth
    } else {
        own_size(form.size)
    }
}

/// What a left side wants of a value.
pub(crate) fn set_want(to: Form, value: Form) -> Want
    ensures { result ≡ set_want to value }
{
    if to.truth {
        Want::Truth
    } else if to.inline {
        Want::Int
    } else {
        match to.size {
            Some(size) => Want::Word(size),
            None => own_want(value),
        }
    }
}

/// The first wrong place within a left side that is set to a word of that size.
pub(crate) fn within(size: Option<Size>, to: &Lval) -> Option<Span>
    ensures { result ≡ earliest (within size to.now) }
{
    left_fault(to, set_want(left_form(to), of_size(size)))
}

/// The same, whatever it is set to.
pub(crate) fn within_any(to: &Lval) -> Option<Span>
    ensures { result ≡ earliest (within any_size to.now) }
{
    within(Some(Size::S8), to)
}

fn has_size(wanted: Option<Size>, size: Option<Size>) -> bool
    ensures { result ≡ has_size wanted size }
{
    match wanted {
        None => true,
        Some(wanted) => match size {
            None => true,
            Some(size) => same_size(wanted, size),
        },
    }
}

fn takes_word(size: Option<Size>, to: Form) -> bool
    ensures { result ≡ takes_word size to }
{
    !(to.truth || to.inline) && has_size(size, to.size)
}

fn takes_form(want: Want, to: Form) -> bool
    ensures { result ≡ takes_form want to }
{
    match want {
        Want::Truth => to.truth,
        Want::Word(size) => takes_word(Some(size), to),
        Want::Int | Want::AnyWord | Want::Sized(_) | Want::Unsized => takes_word(None, to),
    }
}

/// Whether what the place wants may go there.
pub(crate) fn takes(want: Want, to: &Lval) -> bool
    ensures { result ≡ takes want to.now }
{
    is_skip(to) || takes_form(want, left_form(to))
}

/// The first token of a left side.
pub(crate) fn left_span(to: &Lval) -> Span
    ensures { result ≡ left_span to.now }
{
    match to {
        Lval::Skip(at) => *at,
        Lval::Var(var) => var.span,
        Lval::Cell(var, _) => var.span,
        Lval::Store(access) => access.span,
    }
}
