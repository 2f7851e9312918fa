//! What holds of functions with their frames.

ghost use Rattle.std.specs.Prelude.{◌≡◌, ◌<◌, ◌≤◌, ◌+◌, ◌^◌, ℕ, List, length, slice_index};
ghost use Rattle.jz_operations.specs.declared.operation.Stacked.{Stacked};
ghost use Rattle.jz_operations.specs.Frames.{IsLaid};
ghost use Rattle.jz_placing.specs.Instructions.{Machine, Code};
ghost use Rattle.jz_linear.specs.Plain.{IsPlainCode};
ghost use Rattle.jz_linear.specs.Lines.{linear_of};
ghost use Rattle.x64_assemble.specs.Assembling.{total};
ghost use Rattle.jz_stack.specs.Laying.{offsets_from, end_from, frame_of};
ghost use Rattle.jz_stack.specs.Framed.{framed};
ghost use Rattle.jz_stack.specs.FrameRuns.{Shape, IsShape, HasRoom, IsBegun, BodyKeeps};
ghost use Rattle.jz_stack.specs.FrameRuns.{code_of, FunctionDoes};

/// Stack variables that are laid out stand apart, and below the end.
pub fn stack_variables_stand_apart()
    ensures { (variables : List Stacked) → IsLaid (frame_of variables)
        (λ v. slice_index (offsets_from 0 variables) v) (end_from 0 variables) }
{}

/// From a state with room for its frame a function begins its body, with the stack pointer down and
/// each byte outside the slots as before; and where the body is never stuck and keeps the stack
/// pointer, the slots and the return address, the bytes of the function do what its body does.
pub fn a_function_does_what_its_body_does()
    ensures { (f : Shape) (body : Code) (base rsp0 target : ℕ) (s : Machine) → IsShape f
        → IsPlainCode body
        → total (linear_of (framed f.size f.at f.saved body)) < 2 ^ 31
        → base + length (code_of f body) ≤ 2 ^ 64
        → HasRoom f.size rsp0 s
        → (b : Machine) × IsBegun f rsp0 s b
        × (BodyKeeps f body rsp0 target b → FunctionDoes f body base rsp0 target s b) }
{}
