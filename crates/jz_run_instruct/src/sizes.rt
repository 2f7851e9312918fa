//! The size of the words of an instruction.

ghost use Rattle.std.specs.Prelude.{◌≡◌};
ghost use Rattle.jz_meaning.specs.Intrinsics as intrinsics;

use jz_meaning::own_size;
use jz_run_assign::left_sizes;
use jz_tree::{Expr, Instance, Intrinsic, Lval, Seq};
use x64_insn::Size;

/// The size of the first operand that has one.
fn first_size(operands: &[Expr]) -> Option<Size>
    ensures { result ≡ intrinsics.first_size operands.now }
{
    for operand in operands {
        let size = own_size(operand);
        if size.is_some() {
            return size;
        }
    }
    None
}

/// The size that the name says, or that of the left sides, or that of the first operand that has
/// one.
pub fn intrinsic_size(instance: Instance, to: &Seq<Lval>, operands: &[Expr]) -> Option<Size>
    ensures { result ≡ intrinsics.intrinsic_size instance.name instance.size to.now operands.now }
{
    match instance.name {
        Intrinsic::Setcc => Some(Size::S8),
        Intrinsic::Lea => Some(Size::S64),
        _ => instance.size.or(left_sizes(to).or(first_size(operands))),
    }
}
