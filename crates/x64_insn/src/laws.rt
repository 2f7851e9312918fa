//! What follows from the instruction table, in the words of the manual.

ghost use Rattle.std.specs.Prelude.{◌≡◌, ◌↔◌, ◌<◌, ◌^◌, ℕ, false, Err, Result};
ghost use Rattle.jz_words.specs.Memory.{Memory};
ghost use Rattle.x64_insn.specs.declared.types.Reg.{Reg};
ghost use Rattle.x64_insn.specs.declared.types.Reg.TheVariants as reg;
ghost use Rattle.x64_insn.specs.declared.types.Alu.{Alu};
ghost use Rattle.x64_insn.specs.declared.types.Alu.TheVariants as alu;
ghost use Rattle.x64_insn.specs.declared.types.Cond.{Cond};
ghost use Rattle.x64_insn.specs.declared.types.Insn.{Insn};
ghost use Rattle.x64_insn.specs.declared.types.State.{State};
ghost use Rattle.x64_insn.specs.declared.types.FaultKind.{FaultKind};
ghost use Rattle.x64_insn.specs.declared.types.FaultKind.TheVariants.{BadAddress};
ghost use Rattle.x64_insn.specs.Table.{condition_of, number_of, operation_of, reg_of};
ghost use Rattle.x64_insn.specs.Chosen.{alu_number, condition_number, is_test};
ghost use Rattle.x64_insn.specs.Rows.{After, Did, effect_of, reg_value};
ghost use Rattle.x64_insn.specs.Laws.{HasInvalidAccess, accessed_bytes, Leaves, ShowsSum, ShowsDifference, ShowsDifferentBits};

/// The sixteen registers stand in their list at their numbers.
pub fn registers_stand_at_their_numbers()
    ensures register { (r : Reg) → reg_of (number_of r) ≡ r }
    ensures number { (n : ℕ) → n < 16 → number_of (reg_of n) ≡ n }
{}

/// The eight operations but TEST stand in their list at their numbers.
pub fn operations_stand_at_their_numbers()
    ensures operation { (a : Alu) → is_test a ≡ false → operation_of (alu_number a) ≡ a }
    ensures number { (n : ℕ) → n < 8 → alu_number (operation_of n) ≡ n }
{}

/// The sixteen conditions stand in their list at their numbers.
pub fn conditions_stand_at_their_numbers()
    ensures condition { (c : Cond) → condition_of (condition_number c) ≡ c }
    ensures number { (n : ℕ) → n < 16 → condition_number (condition_of n) ≡ n }
{}

/// A fault changes neither state nor memory.
pub fn faults_change_nothing()
    ensures { (is : Result After FaultKind) (fault : FaultKind) (old new : State)
        (before now : Memory) → Did is (Err fault) old new before now
        → (new ≡ old) × (now ≡ before) }
{}

/// A bad address comes exactly where a byte that the instruction accesses is not valid.
pub fn bad_address_is_an_invalid_byte()
    ensures { (i : Insn) (next : ℕ) (st : State) (m : Memory) → reg_value st reg.Rsp < 2 ^ 64
        → ((effect_of i next st m ≡ Err BadAddress)
        ↔ HasInvalidAccess m (accessed_bytes i next st)) }
{}

/// ADD of 64 bits never faults; the register holds the sum, and the flags say of it what they
/// should in plain arithmetic (Intel SDM vol. 1, 3.4.3.1).
pub fn add_shows_its_sum()
    ensures { Leaves alu.Add ShowsSum }
{}

/// SUB of 64 bits never faults; the register holds the difference, CF is set exactly where it
/// borrows, and ZF exactly where both words are equal (Intel SDM vol. 1, 3.4.3.1).
pub fn sub_shows_its_difference()
    ensures { Leaves alu.Sub ShowsDifference }
{}

/// XOR of 64 bits never faults; the register holds the bits in which the words differ, and OF and
/// CF are clear (Intel SDM vol. 2, XOR).
pub fn xor_shows_different_bits()
    ensures { Leaves alu.Xor ShowsDifferentBits }
{}
