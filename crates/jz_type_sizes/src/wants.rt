//! What a place wants, and what fits it.

ghost use Rattle.std.specs.Prelude.{◌≡◌};
ghost use Rattle.jz_type_sizes.specs.Wants.{fits_int, fits_truth, fits_word, fits_access, fits_known, fits_cell, known_size, cell_size, known_truth, own_size, cast_want, sized_want};

use jz_tree::Size;
use jz_type_names::{Declared, Kind, same_size};

/// What a place wants.
#[derive(Clone, Copy)]
pub enum Want {
    /// A number that is known when the text is compiled.
    Int,
    /// A bool.
    Truth,
    /// A word that says its size itself.
    AnyWord,
    /// A number, or a word of that size that says its size itself: of 64 bits as an index or an
    /// address, and under a cast.
    Sized(Size),
    /// A number to which nothing gives a size.
    Unsized,
    /// A word of that size.
    Word(Size),
}

/// What an expression is by itself.
#[derive(Clone, Copy)]
pub struct Form {
    /// The size of the word that it is, where it says one.
    pub size: Option<Size>,
    /// Whether it is a bool.
    pub truth: bool,
    /// Whether its value is known when the text is compiled.
    pub inline: bool,
}

pub(crate) fn fits_int(want: Want) -> bool
    ensures { result ≡ fits_int want }
{
    match want {
        Want::Truth | Want::AnyWord => false,
        Want::Int | Want::Sized(_) | Want::Unsized | Want::Word(_) => true,
    }
}

pub(crate) fn fits_truth(want: Want) -> bool
    ensures { result ≡ fits_truth want }
{
    matches!(want, Want::Truth)
}

pub(crate) fn fits_word(size: Size, want: Want) -> bool
    ensures { result ≡ fits_word size want }
{
    match want {
        Want::Word(wanted) | Want::Sized(wanted) => same_size(size, wanted),
        Want::AnyWord => true,
        Want::Int | Want::Truth | Want::Unsized => false,
    }
}

pub(crate) fn fits_access(size: Option<Size>, want: Want) -> bool
    ensures { result ≡ fits_access size want }
{
    match size {
        Some(size) => fits_word(size, want),
        None => matches!(want, Want::Word(_)),
    }
}

pub(crate) fn fits_known(known: Option<Declared>, want: Want) -> bool
    ensures { result ≡ fits_known known want }
{
    match known {
        None => fits_int(want),
        Some(declared) => match declared.kind {
            Kind::Int => fits_int(want),
            Kind::Truth => fits_truth(want),
            Kind::Word(size) => fits_word(size, want),
            Kind::Array(_) => false,
        },
    }
}

pub(crate) fn fits_cell(size: Option<Size>, want: Want) -> bool
    ensures { result ≡ fits_cell size want }
{
    match size {
        Some(size) => fits_word(size, want),
        None => false,
    }
}

/// The size of a word.
pub(crate) fn known_size(known: Option<Declared>) -> Option<Size>
    ensures { result ≡ known_size known }
{
    match known {
        None => None,
        Some(declared) => match declared.kind {
            Kind::Word(size) => Some(size),
            Kind::Int | Kind::Truth | Kind::Array(_) => None,
        },
    }
}

/// The size of the cells of an array.
pub(crate) fn cell_size(known: Option<Declared>) -> Option<Size>
    ensures { result ≡ cell_size known }
{
    match known {
        None => None,
        Some(declared) => match declared.kind {
            Kind::Array(size) => Some(size),
            Kind::Int | Kind::Truth | Kind::Word(_) => None,
        },
    }
}

pub(crate) fn known_truth(known: Option<Declared>) -> bool
    ensures { result ≡ known_truth known }
{
    match known {
        None => false,
        Some(declared) => matches!(declared.kind, Kind::Truth),
    }
}

/// What a place wants that leaves the size to the value.
pub(crate) fn own_size(size: Option<Size>) -> Want
    ensures { result ≡ own_size size }
{
    match size {
        Some(size) => Want::Word(size),
        None => Want::Unsized,
    }
}

/// What the operand of a cast wants.
pub(crate) fn cast_want(size: Option<Size>) -> Want
    ensures { result ≡ cast_want size }
{
    match size {
        Some(size) => Want::Sized(size),
        None => Want::AnyWord,
    }
}

/// What operands want where their size is this one.
pub(crate) fn sized_want(words: bool, size: Option<Size>) -> Want
    ensures { result ≡ sized_want words size }
{
    match size {
        Some(size) => Want::Word(size),
        None => if words { Want::AnyWord } else { Want::Int },
    }
}
