//! The places of stack variables in the frame.

ghost use Rattle.std.specs.Prelude.{◌≡◌, ◌≤◌, ◌<◌, ◌*◌, ◌^◌, IfOk, IfErr};
ghost use Rattle.jz_words.specs.Sizes.{bytes_of};
ghost use Rattle.jz_data.specs.Failures.{IfRefused};
ghost use Rattle.jz_stack.specs.Frames.{rounded_up};
ghost use Rattle.jz_stack.specs.Laying.{offsets_from, end_from};

use jz_data::{Failure, Seq};
use jz_operations::Stacked;
use jz_words::Size;
use std::alloc::Global;

/// How many bytes the stack variables of a function may take.
const MOST_BYTES: u64 = 65_536;

/// Stack variables take more than 65,536 bytes.
#[derive(Clone, Copy, PartialEq, Eq, Debug, Drop)]
pub struct FrameLimit;

/// How far above the stack pointer each stack variable begins, and where the last one ends.
#[derive(Drop)]
pub struct Layout {
    pub offsets: Seq<u32>,
    pub end: u32,
}

/// The next multiple of a size.
fn rounded_up(size: Size, end: u64) -> u64
    requires { end ≤ 65536 }
    ensures is { result ≡ rounded_up (bytes_of size) end }
    ensures most { result ≤ 65536 }
{
    match size {
        Size::S8 => end,
        Size::S16 => (end + 1) / 2 * 2,
        Size::S32 => (end + 3) / 4 * 4,
        Size::S64 => (end + 7) / 8 * 8,
    }
}

/// How many bytes the cells of a stack variable take.
fn length(variable: Stacked) -> u64
    ensures is { result ≡ variable.count * bytes_of variable.size }
    ensures most { result < 2 ^ 35 }
{
    let count = u64::from(variable.count);
    match variable.size {
        Size::S8 => count,
        Size::S16 => count * 2,
        Size::S32 => count * 4,
        Size::S64 => count * 8,
    }
}

/// The places of stack variables, from the stack pointer upwards in their order, each at the next
/// multiple of its cells' size.
pub fn lay_out(alloc: Global, variables: &[Stacked]) -> Result<Layout, Failure<FrameLimit>>
    ensures offsets { IfOk result (λ made. made.offsets ≡ offsets_from 0 variables.now) }
    ensures end { IfOk result (λ made. made.end ≡ end_from 0 variables.now) }
    ensures within { IfOk result (λ made. made.end ≤ 65536) }
    ensures limit { IfErr result
        (λ failure. IfRefused failure (λ _. 65536 < end_from 0 variables.now)) }
{
    let mut offsets = Seq::from_vec(Vec::with_capacity(alloc, variables.len())?);
    let mut end: u64 = 0;
    for variable in variables {
        let offset = rounded_up(variable.size, end);
        end = offset + length(*variable);
        if end > MOST_BYTES {
            return Err(Failure::Refused(FrameLimit));
        }
        offsets.push(offset as u32)?;
    }
    Ok(Layout {
        offsets,
        end: end as u32,
    })
}
