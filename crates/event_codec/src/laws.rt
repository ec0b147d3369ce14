//! Laws of the bytes of events. Each law is the clause of a function that does nothing.
ghost use Rattle.event_codec.specs.Laws.{BytesAreCounted, NoneBeginsAnother, SoundAreFormed};

/// An event has as many bytes as it takes in a journal.
pub fn events_have_their_bytes()
    ensures { BytesAreCounted }
{}

/// No event's bytes are a proper prefix of another's, and no two events have the same bytes.
pub fn no_event_begins_another()
    ensures { NoneBeginsAnother }
{}

/// Each sound event of a consistent history whose position has 64 bits can be encoded.
pub fn sound_events_are_formed()
    ensures { SoundAreFormed }
{}
