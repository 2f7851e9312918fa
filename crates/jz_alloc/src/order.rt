//! The order of placing.

ghost use Rattle.std.specs.Prelude.{◌≡◌, ℕ, ◌<◌, ◌/◌, IfOk};
ghost use Rattle.std.specs.List.{All};
ghost use Rattle.jz_bits.specs.Has.{has};
ghost use Rattle.jz_ir.specs.Places.{has_need, order_of};
ghost use Rattle.jz_ir.specs.Places.{Below};

use jz_bits::Bits;
use jz_ir::Op;
use std::alloc::{AllocError, Global};

/// The variables that have needs.
fn needy(alloc: Global, ops: &[Op], count: usize) -> Result<Bits, AllocError>
    requires { All (Below count) ops.now }
    ensures { IfOk result (λ row. (variable : ℕ) → has row variable ≡ has_need ops.now variable) }
{
    let mut row = Bits::new(alloc, count)?;
    for op in ops {
        for need in op.needs.as_slice() {
            row.insert(need.variable as usize);
        }
    }
    Ok(row)
}

/// Those with needs first, each in order of declaration.
pub fn place_order(alloc: Global, ops: &[Op], count: u32) -> Result<Vec<u32>, AllocError>
    requires { All (Below count) ops.now }
    ensures { IfOk result (λ order. order.items ≡ order_of ops.now count) }
{
    let needy = needy(alloc, ops, count as usize)?;
    let mut order = Vec::new(alloc);
    for variable in 0..count {
        if needy.contains(variable as usize) {
            order.push(variable)?;
        }
    }
    for variable in 0..count {
        if !needy.contains(variable as usize) {
            order.push(variable)?;
        }
    }
    Ok(order)
}
