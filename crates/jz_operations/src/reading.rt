//! An operation as the placing of variables sees it: what it reads and writes, the places that it
//! writes besides, and what it needs.

ghost use Rattle.std.specs.Prelude.{◌≡◌, ◌++◌, IfOk, OnOk};
ghost use Rattle.std.specs.Option.{option_to_list};
ghost use Rattle.jz_operations.specs.Rows.{flags_of};
ghost use Rattle.jz_operations.specs.Reading.{index_var, address_vars, pinned_var, found_by, is_var};
ghost use Rattle.jz_operations.specs.Reading.{read_by, reads_in, found_in, written_in, flag_read};
ghost use Rattle.jz_operations.specs.Reading.{asked_by, flag_written, flags_written, reads_of};
ghost use Rattle.jz_operations.specs.Reading.{writes_of, left_in, flag_left, flags_left};
ghost use Rattle.jz_operations.specs.Reading.{five_flags, fixed_of, need_at, arg_need, input_needs};
ghost use Rattle.jz_operations.specs.Reading.{output_needs, asked_needs, flag_need, flag_needs};
ghost use Rattle.jz_operations.specs.Reading.{needs_of, seen_of};
ghost use Rattle.jz_operations.specs.InnerSeen.{inputs_of, outputs_of, changes_of};

use crate::operation::{Action, Address, Arg, Condition, Flags, Operation, Pinned};
use crate::rows::{ChangedFlags, Input, ThreeInputs, TwoOutputs, changes, inputs, outputs};
use jz_data::Seq;
use jz_ir::{Need, Op};
use jz_words::Size;
use std::alloc::{AllocError, Global};
use x64_insn::{Flag, Place};

fn add_variable(list: &mut Seq<u32>, variable: Option<u32>) -> Result<(), AllocError>
    ensures { OnOk result (list.new ≡ list.old ++ option_to_list variable) }
{
    match variable {
        None => Ok(()),
        Some(variable) => list.push(variable),
    }
}

fn add_index(list: &mut Seq<u32>, index: Option<(u32, u8)>) -> Result<(), AllocError>
    ensures { OnOk result (list.new ≡ list.old ++ index_var index) }
{
    match index {
        None => Ok(()),
        Some((variable, _)) => list.push(variable),
    }
}

fn add_address(list: &mut Seq<u32>, address: Address) -> Result<(), AllocError>
    ensures { OnOk result (list.new ≡ list.old ++ address_vars address) }
{
    add_variable(list, address.base)?;
    add_index(list, address.index)
}

fn add_pinned(list: &mut Seq<u32>, pinned: Option<Pinned>) -> Result<(), AllocError>
    ensures { OnOk result (list.new ≡ list.old ++ pinned_var pinned) }
{
    match pinned {
        None => Ok(()),
        Some(pinned) => list.push(pinned.variable),
    }
}

/// The variables that find an operand.
fn add_found(list: &mut Seq<u32>, arg: Arg) -> Result<(), AllocError>
    ensures { OnOk result (list.new ≡ list.old ++ found_by arg) }
{
    match arg {
        Arg::Var(_) => Ok(()),
        Arg::Imm(_) => Ok(()),
        Arg::Mem(address) => add_address(list, address),
        Arg::Cell(cell) => add_variable(list, cell.index),
        Arg::At(_, _) => Ok(()),
    }
}

/// The variable that an operand is.
fn add_own(list: &mut Seq<u32>, arg: Arg) -> Result<(), AllocError>
    ensures { OnOk result (list.new ≡ list.old ++ is_var arg) }
{
    match arg {
        Arg::Var(variable) => list.push(variable),
        Arg::Imm(_) => Ok(()),
        Arg::Mem(_) => Ok(()),
        Arg::Cell(_) => Ok(()),
        Arg::At(_, pinned) => add_pinned(list, pinned),
    }
}

fn add_read(list: &mut Seq<u32>, input: Input) -> Result<(), AllocError>
    ensures { OnOk result (list.new ≡ list.old ++ read_by input) }
{
    match input {
        Input::Word(_, arg) => {
            add_own(list, arg)?;
            add_found(list, arg)
        }
        Input::Sum(address) => add_address(list, address),
    }
}

fn add_input(list: &mut Seq<u32>, input: Option<Input>) -> Result<(), AllocError>
    ensures { OnOk result (list.new ≡ list.old ++ reads_in (option_to_list input)) }
{
    match input {
        None => Ok(()),
        Some(input) => add_read(list, input),
    }
}

#[tactic(auto, using(crate::proofs::SeenLists::seen_lists))]
fn add_inputs(list: &mut Seq<u32>, inputs: ThreeInputs) -> Result<(), AllocError>
    ensures { OnOk result (list.new ≡ list.old ++ reads_in (inputs_of inputs)) }
{
    add_input(list, inputs.first)?;
    add_input(list, inputs.second)?;
    add_input(list, inputs.third)
}

fn add_place_of(list: &mut Seq<u32>, output: Option<(Size, Arg)>) -> Result<(), AllocError>
    ensures { OnOk result (list.new ≡ list.old ++ found_in (option_to_list output)) }
{
    match output {
        None => Ok(()),
        Some((_, arg)) => add_found(list, arg),
    }
}

#[tactic(auto, using(crate::proofs::SeenLists::seen_lists))]
fn add_places_of(list: &mut Seq<u32>, outputs: TwoOutputs) -> Result<(), AllocError>
    ensures { OnOk result (list.new ≡ list.old ++ found_in (outputs_of outputs)) }
{
    add_place_of(list, outputs.first)?;
    add_place_of(list, outputs.second)
}

fn add_condition(list: &mut Seq<u32>, condition: Condition) -> Result<(), AllocError>
    ensures { OnOk result (list.new ≡ list.old ++ flag_read condition) }
{
    match condition {
        Condition::Cc(_) => Ok(()),
        Condition::Flag(variable, _) => list.push(variable),
    }
}

fn add_asked(list: &mut Seq<u32>, action: Action) -> Result<(), AllocError>
    ensures { OnOk result (list.new ≡ list.old ++ asked_by action) }
{
    match action {
        Action::Alu(_, _, _, _, carry) => add_pinned(list, carry),
        Action::Set(condition, _) => add_condition(list, condition),
        Action::Cmov(condition, _, _, _) => add_condition(list, condition),
        Action::Mov(_, _, _) => Ok(()),
        Action::Extend { .. } => Ok(()),
        Action::Lea(_, _) => Ok(()),
        Action::One(_, _, _) => Ok(()),
        Action::Wide(_, _, _, _, _) => Ok(()),
        Action::Imul(_, _, _) => Ok(()),
        Action::ImulBy(_, _, _, _) => Ok(()),
        Action::Shift(_, _, _, _) => Ok(()),
        Action::ShiftBy(_, _, _, _) => Ok(()),
        Action::Bswap(_, _) => Ok(()),
        Action::Sign(_, _, _) => Ok(()),
    }
}

fn reads(alloc: Global, op: &Operation) -> Result<Seq<u32>, AllocError>
    ensures { IfOk result (λ list. list ≡ reads_of op.now) }
{
    let mut list = Seq::new(alloc);
    add_inputs(&mut list, inputs(op.action))?;
    add_places_of(&mut list, outputs(op.action))?;
    add_asked(&mut list, op.action)?;
    Ok(list)
}

fn add_output(list: &mut Seq<u32>, output: Option<(Size, Arg)>) -> Result<(), AllocError>
    ensures { OnOk result (list.new ≡ list.old ++ written_in (option_to_list output)) }
{
    match output {
        None => Ok(()),
        Some((_, arg)) => add_own(list, arg),
    }
}

fn add_flag(list: &mut Seq<u32>, flag: Option<Pinned>, changed: bool) -> Result<(), AllocError>
    ensures { OnOk result (list.new ≡ list.old ++ flag_written flag changed) }
{
    if changed {
        add_pinned(list, flag)?;
    }
    Ok(())
}

fn add_flags(list: &mut Seq<u32>, flags: Flags, changed: ChangedFlags) -> Result<(), AllocError>
    ensures { OnOk result (list.new ≡ list.old
        ++ flags_written (flags_of flags) (changes_of changed)) }
{
    add_flag(list, flags.of, changed.of)?;
    add_flag(list, flags.cf, changed.cf)?;
    add_flag(list, flags.sf, changed.sf)?;
    add_flag(list, flags.pf, changed.pf)?;
    add_flag(list, flags.zf, changed.zf)
}

#[tactic(auto, using(crate::proofs::SeenLists::seen_lists))]
fn add_outputs(list: &mut Seq<u32>, outputs: TwoOutputs) -> Result<(), AllocError>
    ensures { OnOk result (list.new ≡ list.old ++ written_in (outputs_of outputs)) }
{
    add_output(list, outputs.first)?;
    add_output(list, outputs.second)
}

fn writes(alloc: Global, op: &Operation) -> Result<Seq<u32>, AllocError>
    ensures { IfOk result (λ list. list ≡ writes_of op.now) }
{
    let mut list = Seq::new(alloc);
    add_outputs(&mut list, outputs(op.action))?;
    add_flags(&mut list, op.flags, changes(op.action))?;
    Ok(list)
}

fn add_left(list: &mut Seq<Place>, output: Option<(Size, Arg)>) -> Result<(), AllocError>
    ensures { OnOk result (list.new ≡ list.old ++ left_in (option_to_list output)) }
{
    match output {
        None => Ok(()),
        Some((_, Arg::At(reg, None))) => list.push(Place::Reg(reg)),
        Some((_, Arg::At(_, Some(_)))) => Ok(()),
        Some((_, Arg::Var(_))) => Ok(()),
        Some((_, Arg::Imm(_))) => Ok(()),
        Some((_, Arg::Mem(_))) => Ok(()),
        Some((_, Arg::Cell(_))) => Ok(()),
    }
}

fn add_flag_left(
    list: &mut Seq<Place>,
    pinned: Option<Pinned>,
    changed: bool,
    flag: Flag,
) -> Result<(), AllocError>
    ensures { OnOk result (list.new ≡ list.old ++ flag_left pinned changed flag) }
{
    match pinned {
        Some(_) => Ok(()),
        None => {
            if changed {
                list.push(Place::Flag(flag))?;
            }
            Ok(())
        }
    }
}

fn add_flags_left(
    list: &mut Seq<Place>,
    flags: Flags,
    changed: ChangedFlags,
) -> Result<(), AllocError>
    ensures { OnOk result (list.new ≡ list.old
        ++ flags_left (flags_of flags) (changes_of changed) five_flags) }
{
    add_flag_left(list, flags.of, changed.of, Flag::Of)?;
    add_flag_left(list, flags.cf, changed.cf, Flag::Cf)?;
    add_flag_left(list, flags.sf, changed.sf, Flag::Sf)?;
    add_flag_left(list, flags.pf, changed.pf, Flag::Pf)?;
    add_flag_left(list, flags.zf, changed.zf, Flag::Zf)
}

#[tactic(auto, using(crate::proofs::SeenLists::seen_lists))]
fn add_all_left(list: &mut Seq<Place>, outputs: TwoOutputs) -> Result<(), AllocError>
    ensures { OnOk result (list.new ≡ list.old ++ left_in (outputs_of outputs)) }
{
    add_left(list, outputs.first)?;
    add_left(list, outputs.second)
}

fn fixed(alloc: Global, op: &Operation) -> Result<Seq<Place>, AllocError>
    ensures { IfOk result (λ list. list ≡ fixed_of op.now) }
{
    let mut list = Seq::new(alloc);
    add_all_left(&mut list, outputs(op.action))?;
    add_flags_left(&mut list, op.flags, changes(op.action))?;
    Ok(list)
}

fn add_need(list: &mut Seq<Need>, place: Place, pinned: Option<Pinned>) -> Result<(), AllocError>
    ensures { OnOk result (list.new ≡ list.old ++ need_at place pinned) }
{
    match pinned {
        None => Ok(()),
        Some(Pinned { variable, span }) => list.push(Need {
            variable,
            place,
            span,
        }),
    }
}

fn add_arg_need(list: &mut Seq<Need>, arg: Arg) -> Result<(), AllocError>
    ensures { OnOk result (list.new ≡ list.old ++ arg_need arg) }
{
    match arg {
        Arg::Var(_) => Ok(()),
        Arg::Imm(_) => Ok(()),
        Arg::Mem(_) => Ok(()),
        Arg::Cell(_) => Ok(()),
        Arg::At(reg, pinned) => add_need(list, Place::Reg(reg), pinned),
    }
}

fn add_input_need(list: &mut Seq<Need>, input: Option<Input>) -> Result<(), AllocError>
    ensures { OnOk result (list.new ≡ list.old ++ input_needs (option_to_list input)) }
{
    match input {
        None => Ok(()),
        Some(Input::Word(_, arg)) => add_arg_need(list, arg),
        Some(Input::Sum(_)) => Ok(()),
    }
}

fn add_output_need(list: &mut Seq<Need>, output: Option<(Size, Arg)>) -> Result<(), AllocError>
    ensures { OnOk result (list.new ≡ list.old ++ output_needs (option_to_list output)) }
{
    match output {
        None => Ok(()),
        Some((_, arg)) => add_arg_need(list, arg),
    }
}

fn add_carry_need(list: &mut Seq<Need>, action: Action) -> Result<(), AllocError>
    ensures { OnOk result (list.new ≡ list.old ++ asked_needs action) }
{
    match action {
        Action::Alu(_, _, _, _, carry) => add_need(list, Place::Flag(Flag::Cf), carry),
        Action::Mov(_, _, _) => Ok(()),
        Action::Extend { .. } => Ok(()),
        Action::Lea(_, _) => Ok(()),
        Action::One(_, _, _) => Ok(()),
        Action::Wide(_, _, _, _, _) => Ok(()),
        Action::Imul(_, _, _) => Ok(()),
        Action::ImulBy(_, _, _, _) => Ok(()),
        Action::Shift(_, _, _, _) => Ok(()),
        Action::ShiftBy(_, _, _, _) => Ok(()),
        Action::Bswap(_, _) => Ok(()),
        Action::Sign(_, _, _) => Ok(()),
        Action::Set(_, _) => Ok(()),
        Action::Cmov(_, _, _, _) => Ok(()),
    }
}

fn add_flag_need(
    list: &mut Seq<Need>,
    pinned: Option<Pinned>,
    changed: bool,
    flag: Flag,
) -> Result<(), AllocError>
    ensures { OnOk result (list.new ≡ list.old ++ flag_need pinned changed flag) }
{
    if changed {
        add_need(list, Place::Flag(flag), pinned)?;
    }
    Ok(())
}

fn add_flag_needs(
    list: &mut Seq<Need>,
    flags: Flags,
    changed: ChangedFlags,
) -> Result<(), AllocError>
    ensures { OnOk result (list.new ≡ list.old
        ++ flag_needs (flags_of flags) (changes_of changed) five_flags) }
{
    add_flag_need(list, flags.of, changed.of, Flag::Of)?;
    add_flag_need(list, flags.cf, changed.cf, Flag::Cf)?;
    add_flag_need(list, flags.sf, changed.sf, Flag::Sf)?;
    add_flag_need(list, flags.pf, changed.pf, Flag::Pf)?;
    add_flag_need(list, flags.zf, changed.zf, Flag::Zf)
}

#[tactic(auto, using(crate::proofs::SeenLists::seen_lists))]
fn add_input_needs(list: &mut Seq<Need>, inputs: ThreeInputs) -> Result<(), AllocError>
    ensures { OnOk result (list.new ≡ list.old ++ input_needs (inputs_of inputs)) }
{
    add_input_need(list, inputs.first)?;
    add_input_need(list, inputs.second)?;
    add_input_need(list, inputs.third)
}

#[tactic(auto, using(crate::proofs::SeenLists::seen_lists))]
fn add_output_needs(list: &mut Seq<Need>, outputs: TwoOutputs) -> Result<(), AllocError>
    ensures { OnOk result (list.new ≡ list.old ++ output_needs (outputs_of outputs)) }
{
    add_output_need(list, outputs.first)?;
    add_output_need(list, outputs.second)
}

fn needs(alloc: Global, op: &Operation) -> Result<Seq<Need>, AllocError>
    ensures { IfOk result (λ list. list ≡ needs_of op.now) }
{
    let mut list = Seq::new(alloc);
    add_input_needs(&mut list, inputs(op.action))?;
    add_output_needs(&mut list, outputs(op.action))?;
    add_carry_need(&mut list, op.action)?;
    add_flag_needs(&mut list, op.flags, changes(op.action))?;
    Ok(list)
}

/// The operation as the placing of variables sees it. A need may stand there more than once.
pub fn seen(alloc: Global, op: &Operation) -> Result<Op, AllocError>
    ensures { IfOk result (λ seen. seen ≡ seen_of op.now) }
{
    Ok(Op {
        span: op.span,
        reads: reads(alloc, op)?,
        writes: writes(alloc, op)?,
        fixed: fixed(alloc, op)?,
        needs: needs(alloc, op)?,
    })
}
