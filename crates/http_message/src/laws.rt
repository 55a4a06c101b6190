//! Laws of the messages of all streams.
ghost use Rattle.http_message.specs.Laws.{OneMessage, MoreBytes, OneSpelling, SpelledInPieces, CutIsNoMessage};

/// A stream begins with at most one message, and goes on with one rest.
pub fn one_message()
    ensures { OneMessage }
{}

/// More bytes change no message that is whole.
pub fn more_bytes()
    ensures { MoreBytes }
{}

/// A stream spells one list of so many messages.
pub fn one_spelling()
    ensures { OneSpelling }
{}

/// However a stream is cut into pieces, it spells the same messages.
pub fn spelled_in_pieces()
    ensures { SpelledInPieces }
{}

/// A stream that ends inside a message begins with none, except with a bad head where it ends inside a
/// head that nothing can complete.
pub fn cut_is_no_message()
    ensures { CutIsNoMessage }
{}
