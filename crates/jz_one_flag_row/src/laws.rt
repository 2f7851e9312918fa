//! What is one of a statement.

ghost use Rattle.jz_one_flag_row.specs.Laws.{OneFlagLowering, OneFlagTest};

/// A statement has one list of operations by the table of flags, RAX, RDX and RCX, each of which
/// shows one list of its numbers, and a test of a bool variable one condition.
pub fn one_flag_lowering()
    ensures statements { OneFlagLowering }
    ensures tests { OneFlagTest }
{}
