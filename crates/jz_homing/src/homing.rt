//! Homes for the variables that a function declares, one after another.

ghost use Rattle.std.specs.Prelude.{◌≡◌, ◌≤◌, ◌<◌, ◌+◌, IfOk, IfErr, OnOk, length, map};
ghost use Rattle.jz_tree.specs.Failures.{IfRefused};
ghost use Rattle.jz_type_names.specs.Scopes.{variables_of};
ghost use Rattle.jz_meaning.specs.Values.{ref_of};
ghost use Rattle.jz_homes.specs.Homes.{IsHoming};
ghost use Rattle.jz_lowered.specs.Functions.{AreKinds};
ghost use Rattle.jz_operands.specs.TableHomes.{homes_of};
ghost use Rattle.jz_homing.specs.Tables as tables;
ghost use Rattle.jz_homing.specs.Tables.{table_in, with_word, with_flag, with_slot, with_cells};
ghost use Rattle.jz_homing.specs.Tables.{with_each, with_var, with_vars, no_homes, frame_of};
ghost use Rattle.jz_homing.specs.Refusals.{most, NoVariable, NoStacked, HasNoHome, IsHomeless};

use jz_ir::Kind as VariableKind;
use jz_meaning::{Kind, kind_of};
use jz_operands::{Home, Homes};
use jz_operations::Stacked;
use jz_tree::{Failure, Fun, Param, Seq, Size, Span, Storage, Var};
use std::alloc::Global;

/// The homes of variables, what each variable over variables holds, and the cells of each stack
/// variable.
#[derive(Drop)]
pub struct Homing {
    pub homes: Homes,
    pub kinds: Seq<VariableKind>,
    pub stack: Seq<Stacked>,
}

/// The next number, where there is one.
fn next(len: usize, at: Span) -> Result<u32, Failure<Span>>
    ensures made { IfOk result (λ n. n ≡ len) }
    ensures refused { IfErr result (λ failure. IfRefused failure (λ s.
        (s ≡ at) × (most ≤ len))) }
{
    if len < 0xffff_ffff {
        Ok(len as u32)
    } else {
        Err(Failure::Refused(at))
    }
}

/// A variable for a word, or for a cell of a register array.
fn add_word(
    table: &mut Homing,
    var: &Var,
    cell: Option<u32>,
    size: Size,
) -> Result<(), Failure<Span>>
    ensures made { OnOk result (table_in table.new
        ≡ with_word (table_in table.old) var.now cell size) }
    ensures refused { IfErr result (λ failure. IfRefused failure (λ s.
        (s ≡ (ref_of var.now).span) × (most ≤ length table.old.kinds))) }
{
    let number = next(table.kinds.len(), var.span)?;
    table
        .homes
        .put(&var.name, var.copy, cell, Home::Word(number, size))?;
    table.kinds.push(VariableKind::Word)?;
    Ok(())
}

fn add_flag(table: &mut Homing, var: &Var) -> Result<(), Failure<Span>>
    ensures made { OnOk result (table_in table.new ≡ with_flag (table_in table.old) var.now) }
    ensures refused { IfErr result (λ failure. IfRefused failure (λ s.
        (s ≡ (ref_of var.now).span) × (most ≤ length table.old.kinds))) }
{
    let number = next(table.kinds.len(), var.span)?;
    table
        .homes
        .put(&var.name, var.copy, None, Home::Flag(number))?;
    table.kinds.push(VariableKind::Flag)?;
    Ok(())
}

/// A stack variable of one cell.
fn add_slot(table: &mut Homing, var: &Var, size: Size) -> Result<(), Failure<Span>>
    ensures made { OnOk result (table_in table.new ≡ with_slot (table_in table.old) var.now size) }
    ensures refused { IfErr result (λ failure. IfRefused failure (λ s.
        (s ≡ (ref_of var.now).span) × (most ≤ length table.old.stack))) }
{
    let number = next(table.stack.len(), var.span)?;
    table
        .homes
        .put(&var.name, var.copy, None, Home::Slot(number, size))?;
    table.stack.push(Stacked { size, count: 1 })?;
    Ok(())
}

/// A stack variable of so many cells.
fn add_cells(table: &mut Homing, var: &Var, size: Size, count: u32) -> Result<(), Failure<Span>>
    ensures made { OnOk result (table_in table.new
        ≡ with_cells (table_in table.old) var.now size count) }
    ensures refused { IfErr result (λ failure. IfRefused failure (λ s.
        (s ≡ (ref_of var.now).span) × (most ≤ length table.old.stack))) }
{
    let number = next(table.stack.len(), var.span)?;
    table.homes.put(
        &var.name,
        var.copy,
        None,
        Home::Cells(number, size, u128::from(count)),
    )?;
    table.stack.push(Stacked { size, count })?;
    Ok(())
}

/// How many cells an array has, where that is a number of 32 bits.
fn count_of(count: u128, at: Span) -> Result<u32, Failure<Span>>
    ensures made { IfOk result (λ n. n ≡ count) }
    ensures refused { IfErr result (λ failure. IfRefused failure (λ s.
        (s ≡ at) × (most < count))) }
{
    if count < 0x1_0000_0000 {
        Ok(count as u32)
    } else {
        Err(Failure::Refused(at))
    }
}

/// A variable for each cell of a register array.
fn add_each(table: &mut Homing, var: &Var, size: Size, count: u32) -> Result<(), Failure<Span>>
    ensures made { OnOk result (table_in table.new
        ≡ with_each (table_in table.old) var.now size count) }
    ensures refused { IfErr result (λ failure. IfRefused failure (λ s.
        (s ≡ (ref_of var.now).span) × (most < length table.old.kinds + count))) }
{
    for cell in 0..count {
        add_word(table, var, Some(cell), size)?;
    }
    Ok(())
}

fn add_register(table: &mut Homing, var: &Var) -> Result<(), Failure<Span>>
    ensures made { OnOk result (table_in table.new ≡ tables.in_registers (table_in table.old)
        var.now (ref_of var.now).kind) }
    ensures refused { IfErr result (λ failure. IfRefused failure (λ s.
        (s ≡ (ref_of var.now).span) × NoVariable (table_in table.old) (ref_of var.now).kind)) }
{
    match kind_of(var) {
        Kind::Word(size) => add_word(table, var, None, size),
        Kind::Bool => add_flag(table, var),
        Kind::Array(size, count) => {
            let cells = count_of(count, var.span)?;
            add_each(table, var, size, cells)
        }
        Kind::Int => Err(Failure::Refused(var.span)),
        Kind::Undeclared => Err(Failure::Refused(var.span)),
    }
}

fn add_stacked(table: &mut Homing, var: &Var) -> Result<(), Failure<Span>>
    ensures made { OnOk result (table_in table.new ≡ tables.on_stack (table_in table.old)
        var.now (ref_of var.now).kind) }
    ensures refused { IfErr result (λ failure. IfRefused failure (λ s.
        (s ≡ (ref_of var.now).span) × NoStacked (table_in table.old) (ref_of var.now).kind)) }
{
    match kind_of(var) {
        Kind::Word(size) => add_slot(table, var, size),
        Kind::Array(size, count) => {
            let cells = count_of(count, var.span)?;
            add_cells(table, var, size, cells)
        }
        Kind::Bool => Err(Failure::Refused(var.span)),
        Kind::Int => Err(Failure::Refused(var.span)),
        Kind::Undeclared => Err(Failure::Refused(var.span)),
    }
}

/// A home for a variable. An inline variable has none.
fn add_var(table: &mut Homing, var: &Var) -> Result<(), Failure<Span>>
    ensures made { OnOk result (table_in table.new ≡ with_var (table_in table.old) var.now) }
    ensures refused { IfErr result (λ failure. IfRefused failure (λ s.
        (s ≡ (ref_of var.now).span) × HasNoHome (table_in table.old) var.now)) }
{
    match &var.decl {
        None => Err(Failure::Refused(var.span)),
        Some(decl) => match decl.storage {
            Storage::Reg => add_register(table, var),
            Storage::Stack => add_stacked(table, var),
            Storage::Inline => Ok(()),
        },
    }
}

fn add_params(table: &mut Homing, params: &Seq<Param>) -> Result<(), Failure<Span>>
    ensures made { OnOk result (table_in table.new
        ≡ with_vars (table_in table.old) (map (λ p. p.var) params.now)) }
    ensures refused { IfErr result (λ failure. IfRefused failure (λ s.
        IsHomeless (table_in table.old) (map (λ p. p.var) params.now) s)) }
{
    for param in params.as_slice() {
        add_var(table, &param.var)?;
    }
    Ok(())
}

fn add_vars(table: &mut Homing, vars: &Seq<Var>) -> Result<(), Failure<Span>>
    ensures made { OnOk result (table_in table.new ≡ with_vars (table_in table.old) vars.now) }
    ensures refused { IfErr result (λ failure. IfRefused failure (λ s.
        IsHomeless (table_in table.old) vars.now s)) }
{
    for var in vars.as_slice() {
        add_var(table, var)?;
    }
    Ok(())
}

fn table_of(alloc: Global, fun: &Fun) -> Result<Homing, Failure<Span>>
    ensures made { IfOk result (λ h. table_in h ≡ with_vars no_homes (variables_of fun.now)) }
    ensures refused { IfErr result (λ failure. IfRefused failure (λ s.
        IsHomeless no_homes (variables_of fun.now) s)) }
{
    let mut table = Homing {
        homes: Homes::new(alloc),
        kinds: Seq::new(alloc),
        stack: Seq::new(alloc),
    };
    add_params(&mut table, &fun.params)?;
    add_vars(&mut table, &fun.vars)?;
    Ok(table)
}

/// A home for each variable that a function declares, in the order of the text. Refused, at the
/// variable's place, where nothing that is declared of it has a home, or there are more than 32 bits
/// count.
pub fn homing_of(alloc: Global, fun: &Fun) -> Result<Homing, Failure<Span>>
    ensures table { IfOk result (λ h. table_in h ≡ with_vars no_homes (variables_of fun.now)) }
    ensures homing { IfOk result (λ h. IsHoming (frame_of h.stack) (homes_of h.homes)) }
    ensures kinds { IfOk result (λ h. AreKinds (homes_of h.homes) h.kinds) }
    ensures refused { IfErr result (λ failure. IfRefused failure
        (IsHomeless no_homes (variables_of fun.now))) }
{
    let table = table_of(alloc, fun)?;
    Ok(table)
}
