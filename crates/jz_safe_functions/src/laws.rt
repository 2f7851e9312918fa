//! What the absence of an alarm says of export functions.

ghost use Rattle.jz_safe_functions.specs.SafeLaws.{SafeIsNeverStuck, SourceIsNeverStuck};

/// Where an expansion has no alarm no input that meets the preconditions is stuck in it, as compiling
/// asks; nor is any in the function of the text, however many turns are left.
pub fn safe_functions_are_never_stuck()
    ensures compiled { SafeIsNeverStuck }
    ensures source { SourceIsNeverStuck }
{}
