//! What holds of every disassembly, and of hexadecimal text.

ghost use Rattle.std.specs.Prelude.{◌≡◌, ℕ, List};
ghost use Rattle.jz_disasm.specs.Disassembly.{IsDisassembly, IsGap};
ghost use Rattle.jz_disasm.specs.Hexadecimal.{IsHexFault, IsHexOf};
ghost use Rattle.jz_disasm.specs.declared.disassembly.Gap.{Gap};

/// Code has at most one disassembly.
pub fn one_disassembly()
    ensures { (code t u : List ℕ) → IsDisassembly code t → IsDisassembly code u → t ≡ u }
{}

/// At most one offset is the first without an instruction, for one reason.
pub fn one_gap()
    ensures { (code : List ℕ) (g h : Gap) → IsGap code g → IsGap code h → g ≡ h }
{}

/// Code with such an offset has no disassembly.
pub fn gaps_have_no_lines()
    ensures { (code t : List ℕ) (g : Gap) → IsDisassembly code t → ¬ IsGap code g }
{}

/// A text has at most one place where it is no hexadecimal text.
pub fn one_hex_fault()
    ensures { (text : List ℕ) (m n : ℕ) → IsHexFault text m → IsHexFault text n → m ≡ n }
{}

/// A text with such a place is that of no bytes.
pub fn hex_faults_give_no_bytes()
    ensures { (text bytes : List ℕ) (n : ℕ) → IsHexOf text bytes → ¬ IsHexFault text n }
{}
