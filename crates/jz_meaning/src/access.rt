//! Accesses to arrays and to memory.

ghost use Rattle.std.specs.Prelude.{◌≡◌, ◌<◌, ℕ, List, Some, option_map};
ghost use Rattle.std.specs.Option.{option_or};
ghost use Rattle.x64_insn.specs.Memory.{all_valid};
ghost use Rattle.x64_insn.specs.Sizes.{bytes_of, modulus};
ghost use Rattle.jz_meaning.specs.Assignments as assignments;
ghost use Rattle.jz_meaning.specs.InnerAccesses as accesses;
ghost use Rattle.jz_meaning.specs.Attempts.{did, seen, numbers_first, Gives, Evaluates, Changes};
ghost use Rattle.jz_meaning.specs.Operators as operators;
ghost use Rattle.jz_meaning.specs.States.{as_value};
ghost use Rattle.jz_meaning.specs.Stores.{store_of};
ghost use Rattle.jz_meaning.specs.Values as values;
ghost use Rattle.jz_meaning.specs.Values.{ref_of, meaning_of, access_of};

use crate::operators::word_of;
use crate::store::Store;
use crate::value::{Stuck, Value, Why, defined};
use jz_runs::MemMap;
use jz_tree::{Access, Decl, Expr, Failure, Lval, Seq, Span, Ty, Var};
use x64_insn::{Size, Word};

/// What a variable can hold, by its declaration.
#[derive(Clone, Copy, PartialEq, Eq)]
pub enum Kind {
    /// Nothing: it has no declaration, or is an array whose length is no written number.
    Undeclared,
    Int,
    Bool,
    Word(Size),
    /// Words of that size, so many of them.
    Array(Size, u128),
}

fn array_kind(size: Size, length: &Expr) -> Kind
    ensures { result ≡ values.array_kind size (meaning_of length.now).literal }
{
    match length {
        Expr::Num(number, _) => {
            if *number < 0 {
                Kind::Undeclared
            } else {
                Kind::Array(size, *number as u128)
            }
        }
        Expr::Bool(_, _) => Kind::Undeclared,
        Expr::Var(_) => Kind::Undeclared,
        Expr::Cell(_, _) => Kind::Undeclared,
        Expr::Load(_) => Kind::Undeclared,
        Expr::Neg(_, _) => Kind::Undeclared,
        Expr::Not(_, _) => Kind::Undeclared,
        Expr::Cast { .. } => Kind::Undeclared,
        Expr::Bin(_, _, _, _) => Kind::Undeclared,
    }
}

fn declared_kind(decl: &Decl) -> Kind
    ensures { result ≡ values.declared_kind decl.now }
{
    match &decl.ty {
        Ty::Int => Kind::Int,
        Ty::Bool => Kind::Bool,
        Ty::Word(size) => Kind::Word(*size),
        Ty::Array(size, length) => array_kind(*size, length.get()),
    }
}

/// What a variable can hold.
pub fn kind_of(var: &Var) -> Kind
    ensures { result ≡ (ref_of var.now).kind }
{
    match &var.decl {
        None => Kind::Undeclared,
        Some(decl) => declared_kind(decl),
    }
}

/// Whether an expression is a bool variable.
pub fn is_flag(expr: &Expr) -> bool
    ensures { result ≡ assignments.is_flag expr.now }
{
    match expr {
        Expr::Var(var) => matches!(kind_of(var), Kind::Bool),
        _ => false,
    }
}

/// Where a left side stands in the text.
pub fn left_span(left: &Lval) -> Span
    ensures { result ≡ assignments.left_span left.now }
{
    match left {
        Lval::Skip(span) => *span,
        Lval::Var(var) => var.span,
        Lval::Cell(var, _) => var.span,
        Lval::Store(access) => access.span,
    }
}

/// The size of a word, or of the cells of an array.
pub fn size_of(kind: Kind) -> Option<Size>
    ensures { result ≡ values.size_of kind }
{
    match kind {
        Kind::Undeclared => None,
        Kind::Int => None,
        Kind::Bool => None,
        Kind::Word(size) => Some(size),
        Kind::Array(size, _) => Some(size),
    }
}

fn stuck(span: Span, why: Why) -> Stuck
    ensures { result ≡ record { span = span; why = why } }
{
    Stuck { span, why }
}

/// The bits of a value in the place of a word of a size.
fn bits_at(span: Span, size: Size, value: Value) -> Result<u64, Stuck>
    ensures { (ns : List ℕ) → did ns result ≡ numbers_first ns
        (operators.word_at span size (as_value value)) }
{
    match word_of(size, value) {
        None => Err(stuck(span, Why::Init)),
        Some(word) => Ok(word.bits()),
    }
}

fn in_cells(span: Span, kind: Kind, index: u64, out: &mut Seq<u64>) -> Result<u64, Failure<Stuck>>
    ensures { Gives result out.old out.new (values.in_cells span kind index) }
{
    match kind {
        Kind::Undeclared => Err(Failure::Refused(stuck(span, Why::Init))),
        Kind::Int => Err(Failure::Refused(stuck(span, Why::Init))),
        Kind::Bool => Err(Failure::Refused(stuck(span, Why::Init))),
        Kind::Word(_) => Err(Failure::Refused(stuck(span, Why::Init))),
        Kind::Array(_, cells) => {
            if (index as u128) < cells {
                out.push(index)?;
                Ok(index)
            } else {
                Err(Failure::Refused(stuck(span, Why::Bounds)))
            }
        }
    }
}

fn var_span(var: &Var) -> Span
    ensures { result ≡ (ref_of var.now).span }
{
    var.span
}

/// The index of a cell, which is appended to `out`. Stuck for Bounds where it is past the cells,
/// and for Init where typing excludes it.
pub fn index(var: &Var, value: Value, out: &mut Seq<u64>) -> Result<u64, Failure<Stuck>>
    ensures { Gives result out.old out.new (values.index_at (ref_of var.now) (as_value value)) }
{
    let span = var_span(var);
    let index = bits_at(span, Size::S64, value)?;
    let cell = in_cells(span, kind_of(var), index, out)?;
    Ok(cell)
}

fn cell_to_u64(cell: Option<u32>) -> Option<u64>
    ensures { result ≡ cell }
{
    match cell {
        None => None,
        Some(cell) => Some(u64::from(cell)),
    }
}

/// The value of a variable. Stuck for Init where it has none.
pub fn variable(var: &Var, store: &Store) -> Result<Value, Stuck>
    ensures { (ns : List ℕ) → seen ns result ≡ numbers_first ns
        (values.variable_value (ref_of var.now) (store_of store.now)) }
{
    defined(
        var.span,
        store.get(&var.name, var.copy, cell_to_u64(var.cell)),
    )
}

/// The value of a cell, whose index is appended to `out`. Stuck as its index is, and for Init where
/// it has no value.
pub fn cell(
    var: &Var,
    value: Value,
    store: &Store,
    out: &mut Seq<u64>,
) -> Result<Value, Failure<Stuck>>
    ensures { Evaluates result out.old out.new
        (values.cell_value (ref_of var.now) (as_value value) (store_of store.now)) }
{
    let index = index(var, value, out)?;
    let value = defined(var_span(var), store.get(&var.name, var.copy, Some(index)))?;
    Ok(value)
}

fn is_aligned(size: Size, address: u64) -> bool
    ensures { result ≡ values.is_aligned size address }
{
    address % u64::from(size.bytes()) == 0
}

/// What stands at an address; its bytes are valid.
fn aligned(
    access: &Access,
    size: Size,
    address: u64,
    bits: u64,
    out: &mut Seq<u64>,
) -> Result<Value, Failure<Stuck>>
    requires { bits < modulus size }
    ensures { Evaluates result out.old out.new
        (accesses.load_bits (access_of access.now) size address bits) }
{
    if access.unaligned || is_aligned(size, address) {
        out.push(address)?;
        Ok(Value::Word(Word::new(size, bits)))
    } else {
        Err(Failure::Refused(stuck(access.span, Why::Align)))
    }
}

fn load_word(
    access: &Access,
    size: Option<Size>,
    address: u64,
    memory: &MemMap,
    out: &mut Seq<u64>,
) -> Result<Value, Failure<Stuck>>
    ensures { Evaluates result out.old out.new
        (accesses.load_word (access_of access.now) size address memory.now) }
{
    match size {
        None => Err(Failure::Refused(stuck(access.span, Why::Init))),
        Some(size) => match memory.load(address, size) {
            None => Err(Failure::Refused(stuck(access.span, Why::Address))),
            Some(bits) => aligned(access, size, address, bits, out),
        },
    }
}

fn access_span(access: &Access) -> Span
    ensures { result ≡ (access_of access.now).span }
{
    access.span
}

fn access_size(access: &Access, wanted: Option<Size>) -> Option<Size>
    ensures { result ≡ option_or (access_of access.now).size wanted }
{
    access.size.or(wanted)
}

/// What memory holds where an access has this address, which is appended to `out`; `wanted` is the
/// size of the other side. Stuck for Address where a byte is not valid, then for Align, and for
/// Init where the access has no size.
pub fn load(
    access: &Access,
    wanted: Option<Size>,
    address: Value,
    memory: &MemMap,
    out: &mut Seq<u64>,
) -> Result<Value, Failure<Stuck>>
    ensures { Evaluates result out.old out.new
        (values.load_at (access_of access.now) wanted (as_value address) memory.now) }
{
    let address = bits_at(access_span(access), Size::S64, address)?;
    let value = load_word(access, access_size(access, wanted), address, memory, out)?;
    Ok(value)
}

/// Whether each byte of an access is valid.
#[tactic(auto, using(crate::proofs::MemoryLemmas::loaded_where_valid))]
fn is_valid(memory: &MemMap, address: u64, size: Size) -> bool
    ensures { result ≡ all_valid memory.now address (bytes_of size) }
{
    memory.load(address, size).is_some()
}

fn store_bits(
    access: &Access,
    size: Size,
    address: u64,
    bits: u64,
    memory: &mut MemMap,
    out: &mut Seq<u64>,
) -> Result<(), Failure<Stuck>>
    ensures { Changes result out.old out.new memory.new
        (accesses.store_bits (access_of access.now) size address bits memory.old) }
{
    if !is_valid(memory, address, size) {
        return Err(Failure::Refused(stuck(access.span, Why::Address)));
    }
    if !access.unaligned && !is_aligned(size, address) {
        return Err(Failure::Refused(stuck(access.span, Why::Align)));
    }
    out.push(address)?;
    let _stored = memory.store(address, size, bits);
    Ok(())
}

fn store_word(
    access: &Access,
    size: Size,
    address: u64,
    value: Value,
    memory: &mut MemMap,
    out: &mut Seq<u64>,
) -> Result<(), Failure<Stuck>>
    ensures { Changes result out.old out.new memory.new
        (accesses.store_word (access_of access.now) (Some size) address (Some (as_value value))
        memory.old) }
{
    let bits = bits_at(access_span(access), size, value)?;
    store_bits(access, size, address, bits, memory, out)?;
    Ok(())
}

fn store_value(
    access: &Access,
    size: Option<Size>,
    address: u64,
    value: Option<Value>,
    memory: &mut MemMap,
    out: &mut Seq<u64>,
) -> Result<(), Failure<Stuck>>
    ensures { Changes result out.old out.new memory.new
        (accesses.store_word (access_of access.now) size address (option_map as_value value)
        memory.old) }
{
    match size {
        None => Err(Failure::Refused(stuck(access.span, Why::Init))),
        Some(size) => match value {
            None => Err(Failure::Refused(stuck(access.span, Why::Init))),
            Some(value) => {
                store_word(access, size, address, value, memory, out)?;
                Ok(())
            }
        },
    }
}

/// Writes a value where an access has this address, which is appended to `out`; `wanted` is the
/// size of the other side. Stuck for Init where there is no size or no word to write, then for
/// Address where a byte is not valid, then for Align.
pub fn write(
    access: &Access,
    wanted: Option<Size>,
    address: Value,
    value: Option<Value>,
    memory: &mut MemMap,
    out: &mut Seq<u64>,
) -> Result<(), Failure<Stuck>>
    ensures { Changes result out.old out.new memory.new
        (values.store_at (access_of access.now) wanted (as_value address)
        (option_map as_value value) memory.old) }
{
    let address = bits_at(access_span(access), Size::S64, address)?;
    let size = access_size(access, wanted);
    store_value(access, size, address, value, memory, out)?;
    Ok(())
}
