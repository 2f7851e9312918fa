//! Where the rules fail first in the functions of a program. All of them are asked of a function
//! before the next one is read.

ghost use Rattle.std.specs.Prelude.{◌≡◌, List, IfOk};
ghost use Rattle.jz_tree.specs.declared.program.Fun.{Fun};
ghost use Rattle.jz_type_names.specs.Order.{first_in, IsEarliest};
ghost use Rattle.jz_type_names.specs.Names.{repeated_in_fun};
ghost use Rattle.jz_type_names.specs.Tables.{place_in, function_in};
ghost use Rattle.jz_resolve.specs.Tables.{values_in};
ghost use Rattle.jz_resolve.specs.Numbering.{value_with};
ghost use Rattle.jz_type_sizes.specs.Lengths.{fun_lengths};
ghost use Rattle.jz_type_sizes.specs.Mismatches.{body_wrong};
ghost use Rattle.jz_type_storage.specs.Declarations.{unkept_in};
ghost use Rattle.jz_type_storage.specs.Settings.{wrongly_set_in};
ghost use Rattle.jz_type_storage.specs.Paths.{IsReadUnsetIn};
ghost use Rattle.jz_type_rows.specs.Exports.{misshapen_places, annotated_places};
ghost use Rattle.jz_type_rows.specs.Copies.{copied_by};
ghost use Rattle.jz_type_rows.specs.Indexes.{indexed_by};
ghost use Rattle.jz_type_rows.specs.Programs.{in_body};
ghost use Rattle.jz_type_rows.specs.Tables.{HasCallees};
ghost use Rattle.jz_types.specs.Rows.{unmatched_in_fun};
ghost use Rattle.jz_types.specs.InnerFunctions.{unknown_with};

use crate::lengths::ConstantLengths;
use crate::rows::unmatched_in_fun;
use jz_tree::{Program, Span};
use jz_type_names::{Functions, Places, earlier_of, repeated_in_fun, unknown_in_fun};
use jz_type_rows::{Callees, annotated, copied_in, indexed_in, misshapen};
use jz_type_sizes::{body_fault, lengths_fault};
use jz_type_storage::{read_unset, wrongly_kept, wrongly_set};
use std::alloc::{AllocError, Global};

/// Where the rules that are asked of a program as it was read fail first.
#[derive(Clone, Copy)]
pub(crate) struct OfText {
    pub(crate) unknown: Option<Span>,
    pub(crate) repeated: Option<Span>,
    pub(crate) mismatched: Option<Span>,
    pub(crate) annotated: Option<Span>,
    pub(crate) misshapen: Option<Span>,
}

/// Where the rules that are asked of the program with declarations fail first, but for that on
/// recursion.
#[derive(Clone, Copy)]
pub(crate) struct OfDeclared {
    pub(crate) mismatched: Option<Span>,
    pub(crate) kept: Option<Span>,
    pub(crate) set: Option<Span>,
    pub(crate) read: Option<Span>,
    pub(crate) unmatched: Option<Span>,
    pub(crate) copied: Option<Span>,
    pub(crate) indexed: Option<Span>,
}

pub(crate) fn text_of_functions(
    alloc: Global,
    lengths: &ConstantLengths,
    constants: &Places,
    functions: &Functions<'_>,
    program: &Program,
) -> Result<OfText, AllocError>
    ensures unknown { let constant = place_in constants.now in
        let wrong = unknown_with constant (function_in functions.now) in
        IfOk result (λ t. t.unknown ≡ first_in wrong program.now.funs) }
    ensures repeated { IfOk result (λ t. t.repeated ≡ first_in repeated_in_fun program.now.funs) }
    ensures mismatched { let value = value_with (values_in lengths.now.table) in
        let wrong = fun_lengths (place_in constants.now) value in
        IfOk result (λ t. t.mismatched ≡ first_in wrong program.now.funs) }
    ensures annotated { IfOk result
        (λ t. t.annotated ≡ first_in annotated_places program.now.funs) }
    ensures misshapen { IfOk result
        (λ t. t.misshapen ≡ first_in misshapen_places program.now.funs) }
{
    let mut first = OfText {
        unknown: None,
        repeated: None,
        mismatched: None,
        annotated: None,
        misshapen: None,
    };
    for fun in program.funs.as_slice() {
        let unknown = unknown_in_fun(alloc, constants, functions, fun)?;
        let repeated = repeated_in_fun(alloc, fun)?;
        let mismatched = lengths_fault(alloc, lengths, constants, fun)?;
        let annotated = annotated(alloc, fun)?;
        first = OfText {
            unknown: earlier_of(first.unknown, unknown),
            repeated: earlier_of(first.repeated, repeated),
            mismatched: earlier_of(first.mismatched, mismatched),
            annotated: earlier_of(first.annotated, annotated),
            misshapen: earlier_of(first.misshapen, misshapen(fun)),
        };
    }
    Ok(first)
}

pub(crate) fn declared_of_functions(
    alloc: Global,
    constants: &Places,
    functions: &Functions<'_>,
    callees: &Callees,
    declared: &Program,
) -> Result<OfDeclared, AllocError>
    ensures mismatched { let wrong = body_wrong (function_in functions.now) in
        IfOk result (λ d. d.mismatched ≡ first_in wrong declared.now.funs) }
    ensures kept { IfOk result (λ d. d.kept ≡ first_in unkept_in declared.now.funs) }
    ensures set { IfOk result
        (λ d. d.set ≡ first_in (λ f. wrongly_set_in f.body) declared.now.funs) }
    ensures read { IfOk result (λ d. IsEarliest (IsReadUnsetIn declared.now) d.read) }
    ensures unmatched { let constant = place_in constants.now in
        let wrong = unmatched_in_fun constant (function_in functions.now) in
        (fs : List Fun) → HasCallees callees.now fs
        → IfOk result (λ d. d.unmatched ≡ first_in (wrong fs) declared.now.funs) }
    ensures copied { (fs : List Fun) → HasCallees callees.now fs
        → IfOk result (λ d. d.copied ≡ first_in (in_body (copied_by fs)) declared.now.funs) }
    ensures indexed { IfOk result
        (λ d. d.indexed ≡ first_in (in_body indexed_by) declared.now.funs) }
{
    let mut first = OfDeclared {
        mismatched: None,
        kept: None,
        set: None,
        read: None,
        unmatched: None,
        copied: None,
        indexed: None,
    };
    for fun in declared.funs.as_slice() {
        let mismatched = body_fault(alloc, functions, fun)?;
        let set = wrongly_set(alloc, fun)?;
        let read = read_unset(alloc, fun)?;
        let unmatched = unmatched_in_fun(alloc, constants, functions, callees, fun)?;
        let copied = copied_in(alloc, callees, fun)?;
        let indexed = indexed_in(alloc, fun)?;
        first = OfDeclared {
            mismatched: earlier_of(first.mismatched, mismatched),
            kept: earlier_of(first.kept, wrongly_kept(fun)),
            set: earlier_of(first.set, set),
            read: earlier_of(first.read, read),
            unmatched: earlier_of(first.unmatched, unmatched),
            copied: earlier_of(first.copied, copied),
            indexed: earlier_of(first.indexed, indexed),
        };
    }
    Ok(first)
}
