//! What stands before an export function, and its parameters and results.

ghost use Rattle.std.specs.Prelude.{◌≡◌};
ghost use Rattle.std.specs.List.{list_all};
ghost use Rattle.jz_type_names.specs.Order.{earliest, FindsEarliest};
ghost use Rattle.jz_type_rows.specs.Exports.{is_exported, is_word_param, is_word_result, has_shape};
ghost use Rattle.jz_type_rows.specs.Exports.{misshapen_places, annotated_places};

use jz_preconditions::refused;
use jz_tree::{Fun, FunKind, Param, Ret, Seq, Span};
use jz_type_names::{declaration, is_register_word, known, unless};
use std::alloc::{AllocError, Global};

pub(crate) fn is_exported(kind: FunKind) -> bool
    ensures { result ≡ is_exported kind }
{
    match kind {
        FunKind::Inline => false,
        FunKind::Export => true,
    }
}

fn are_words(params: &Seq<Param>) -> bool
    ensures { result ≡ list_all is_word_param params.now }
{
    for param in params.as_slice() {
        if !is_register_word(known(&param.var)) {
            return false;
        }
    }
    true
}

fn are_word_results(rets: &Seq<Ret>) -> bool
    ensures { result ≡ list_all is_word_result rets.now }
{
    for ret in rets.as_slice() {
        if !is_register_word(Some(declaration(&ret.decl))) {
            return false;
        }
    }
    true
}

fn has_shape(fun: &Fun) -> bool
    ensures { result ≡ has_shape fun.now }
{
    fun.params.len() <= 6
        && fun.rets.len() <= 2
        && are_words(&fun.params)
        && are_word_results(&fun.rets)
}

/// The name of an export function that has more than six parameters or two results, or another than
/// words in registers.
pub fn misshapen(fun: &Fun) -> Option<Span>
    ensures { result ≡ earliest (misshapen_places fun.now) }
{
    unless(!is_exported(fun.kind) || has_shape(fun), fun.span)
}

/// The first annotation before an export function that is refused: one that is no precondition in
/// its shape, or asks what no argument can meet.
pub fn annotated(alloc: Global, fun: &Fun) -> Result<Option<Span>, AllocError>
    ensures { FindsEarliest result (annotated_places fun.now) }
{
    if is_exported(fun.kind) {
        let first = refused(alloc, fun)?;
        Ok(first)
    } else {
        Ok(None)
    }
}
