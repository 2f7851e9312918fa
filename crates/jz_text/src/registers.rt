//! Names of registers.

ghost use Rattle.std.specs.Prelude.{◌≡◌};
ghost use Rattle.jz_text.specs.Texts.{reg_text};

use x64_insn::Reg;

/// The name of a register's 64 bits, in lower case.
pub fn reg_name(reg: Reg) -> &'static str
    ensures { result.now ≡ reg_text reg }
{
    match reg {
        Reg::Rax => "rax",
        Reg::Rcx => "rcx",
        Reg::Rdx => "rdx",
        Reg::Rbx => "rbx",
        Reg::Rsp => "rsp",
        Reg::Rbp => "rbp",
        Reg::Rsi => "rsi",
        Reg::Rdi => "rdi",
        Reg::R8 => "r8",
        Reg::R9 => "r9",
        Reg::R10 => "r10",
        Reg::R11 => "r11",
        Reg::R12 => "r12",
        Reg::R13 => "r13",
        Reg::R14 => "r14",
        Reg::R15 => "r15",
    }
}
