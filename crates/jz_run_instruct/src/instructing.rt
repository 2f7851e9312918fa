//! An instruction of a statement.

ghost use Rattle.std.specs.Prelude.{Some};
ghost use Rattle.jz_tree.specs.Spellings.{spelled as spelled_as};
ghost use Rattle.jz_meaning.specs.Attempts.{Changes};
ghost use Rattle.jz_meaning.specs.Stores.{state_of};
ghost use Rattle.jz_meaning.specs.Intrinsics as intrinsics;

use crate::dispatching::results_of;
use crate::sizes::intrinsic_size;
use jz_meaning::{State, Stuck, missing};
use jz_run_assign::write_all;
use jz_tree::{Expr, Failure, Instance, Lval, Seq, Span, Text, spelled};

fn instruct_by(
    to: &Seq<Lval>,
    instance: Instance,
    operands: &Seq<Expr>,
    span: Span,
    state: &mut State,
    out: &mut Seq<u64>,
) -> Result<(), Failure<Stuck>>
    ensures { let meaning = intrinsics.instruction_done (Some instance) to.now operands.now span in
        Changes result out.old out.new (state_of state.new) (meaning (state_of state.old)) }
{
    let operands = operands.as_slice();
    let size = intrinsic_size(instance, to, operands);
    let results = results_of(instance.name, span, size, operands, state, out)?;
    write_all(span, size, to, results.as_slice(), state, out)?;
    Ok(())
}

/// The instruction of that name on its operands, and then its results in the left sides. Its
/// numbers are appended to `out` in the order of evaluation. A flag that the instruction leaves
/// undefined has no value afterwards.
pub fn instruct(
    to: &Seq<Lval>,
    name: &Text,
    operands: &Seq<Expr>,
    span: Span,
    state: &mut State,
    out: &mut Seq<u64>,
) -> Result<(), Failure<Stuck>>
    ensures { let named = spelled_as name.now in
        let meaning = intrinsics.instruction_done named to.now operands.now span in
        Changes result out.old out.new (state_of state.new) (meaning (state_of state.old)) }
{
    match spelled(name.as_str()) {
        None => Err(Failure::Refused(missing(span))),
        Some(instance) => {
            instruct_by(to, instance, operands, span, state, out)?;
            Ok(())
        }
    }
}
