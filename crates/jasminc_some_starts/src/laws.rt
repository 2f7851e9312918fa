//! Where there is a start.

ghost use Rattle.jasminc_some_starts.specs.SomeStarts.{RoomHasStarts, LowRegionsHaveStarts};

/// On each input that meets the preconditions a compiled function has a start wherever there is room
/// for its frame and its code; and so, with a frame as compiling gives it, where its regions lie in
/// the lower half of the addresses.
pub fn starts_exist()
    ensures room { RoomHasStarts }
    ensures low { LowRegionsHaveStarts }
{}
