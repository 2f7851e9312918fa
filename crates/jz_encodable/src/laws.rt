//! What encoding an operation takes.

ghost use Rattle.std.specs.Prelude.{IsTrue};
ghost use Rattle.jz_operations.specs.declared.operation.Operation.{Operation};
ghost use Rattle.jz_encodable.specs.Encodable.{IsEncodable, can_encode};

/// An operation can be encoded whatever places its variables get just where it can be with each of
/// them in RAX, and its stack variables at the stack pointer and at the limit of a frame.
pub fn encodable_at_both_ends()
    ensures if_both { (o : Operation) → IsTrue (can_encode o.action) → IsEncodable o }
    ensures only_if { (o : Operation) → IsEncodable o → IsTrue (can_encode o.action) }
{}
