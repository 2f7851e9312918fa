//! What holds of the bytes of code with branches and loops.

ghost use Rattle.std.specs.Prelude.{◌≡◌, ◌<◌, ◌≤◌, ◌+◌, ◌*◌, ◌^◌, ℕ, length};
ghost use Rattle.jz_placing.specs.Instructions.{Machine, Code};
ghost use Rattle.jz_linear.specs.Plain.{IsPlainCode};
ghost use Rattle.jz_linear.specs.Lines.{labels_in, parts_in, linear_of};
ghost use Rattle.jz_linear.specs.LineRuns.{Once};
ghost use Rattle.x64_assemble.specs.Assembling.{AllSpelled, Named, total};
ghost use Rattle.x64_assemble.specs.Assembling.{insns_of_lines, bytes_of_lines};
ghost use Rattle.x64_assemble.specs.CodeRuns.{Returns, DoesAs};

/// The lines of a tree are such as become bytes: each label stands in them once, each jump names
/// one of them, and each instruction has a spelling where those of the tree have.
pub fn lines_of_code_become_bytes()
    ensures once { (t : Code) → Once (linear_of t) }
    ensures named { (t : Code) → Named (linear_of t) (linear_of t) }
    ensures spelled { (t : Code) → IsPlainCode t → AllSpelled (linear_of t) }
{}

/// The lines of a tree have at most 29 bytes for each of its operations, branches and loops, and 18
/// more, and two labels for each.
pub fn lines_of_code_are_short()
    ensures bytes { (t : Code) → IsPlainCode t → total (linear_of t) ≤ 29 * parts_in t + 18 }
    ensures labels { (t : Code) → labels_in t ≤ 2 * parts_in t }
{}

/// The bytes of a tree do what the tree does, for each number of turns: they end where it ends,
/// within as many steps for each turn and once more as there are instructions, with the events of
/// its leak and of the return; where it wants one more turn they still run; and they never fault.
pub fn bytes_do_what_their_code_does()
    ensures { (t : Code) (base rsp0 target : ℕ) (s : Machine) → IsPlainCode t
        → total (linear_of t) < 2 ^ 31
        → base + length (bytes_of_lines (linear_of t)) ≤ 2 ^ 64
        → Returns t rsp0 target s
        → DoesAs t (bytes_of_lines (linear_of t)) (length (insns_of_lines (linear_of t)))
        base rsp0 target s }
{}
