//! Meetings through the passes.

ghost use Rattle.jz_meetings.specs.KeptMeetings.{MeetingsAreOfTrees, MeetingsAreKept};

/// How a destination and an operand meet is told by their trees; a pass that gives variables other
/// names, values to inline parts, and words to cells keeps one place one place, and what is apart
/// apart.
pub fn meetings_are_kept()
    ensures trees { MeetingsAreOfTrees }
    ensures kept { MeetingsAreKept }
{}
