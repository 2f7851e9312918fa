//! Where `exec` starts a function.

ghost use Rattle.std.specs.Prelude.{◌≡◌};
ghost use Rattle.jz_correct.specs.Registers.{argument_registers};
ghost use Rattle.jasminc_steps.specs.Starting.{start_state};

use x64_insn::{FlagVal, Reg, State};

/// Where the code stands.
pub const CODE_BASE: u64 = 0x40_0000;

/// Where the return address stands.
pub const RETURN_SLOT: u64 = 0x7fff_ffff_0008;

const ARGUMENTS: [Reg; 6] = [Reg::Rdi, Reg::Rsi, Reg::Rdx, Reg::Rcx, Reg::R8, Reg::R9];

/// Items in the argument registers; each other register is 0.
fn registers(items: &[u64]) -> [u64; 16]
    ensures { result ≡ (start_state items.now).regs }
{
    let mut regs = [0; 16];
    regs[Reg::Rsp as usize] = RETURN_SLOT;
    for (i, item) in items.iter().enumerate() {
        let Some(reg) = ARGUMENTS.get(i) else {
            return regs;
        };
        regs[*reg as usize] = *item;
    }
    regs
}

/// The words of items in the argument registers; no flag is defined.
pub fn start_state(items: &[u64]) -> State
    ensures { result ≡ start_state items.now }
{
    State {
        regs: registers(items),
        rip: CODE_BASE,
        flags: [FlagVal::Undefined; 5],
    }
}
