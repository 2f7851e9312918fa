//! Runs of the machine beside each other.

ghost use Rattle.x64_same_events.specs.SameEvents.{EventsAreTheSame};

/// Two runs of one code, each from its first byte and without a fault, that show the same events at
/// some time later show the same after each number of steps before, where each return that they
/// come to until then returns from the entry.
pub fn same_events()
    ensures { EventsAreTheSame }
{}
