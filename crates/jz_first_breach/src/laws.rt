//! That there is an answer.

ghost use Rattle.jz_first_breach.specs.BreachLaws.{HasAnswer};

/// Of a body without calls and `for` there are labels with the fewest secrets, and with them a first
/// breach, or none. Beside the laws of labels this says that just one of both holds: some labels
/// meet the rules, or there is one first breach.
pub fn there_is_a_first_breach()
    ensures { HasAnswer }
{}
