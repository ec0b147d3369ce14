//! Laws of transcripts. Each is the clause of a function that does nothing.
ghost use Rattle.transcript.specs.Laws.{AsciiReadsBack, LinesAreSound, ReadsBack, ReadsAsOne};

/// States the law that the text of a sound transcript is read as that transcript, and as no other. Its lines and
/// replies must be UTF-8, such as ASCII.
pub fn text_law()
    ensures back { ReadsBack }
    ensures ascii { AsciiReadsBack }
    ensures one { ReadsAsOne }
{}

/// States the law of lines in which a session speaks: its name is valid for a transcript, and the line up to its
/// comment is one of that session's lines.
pub fn lines_law()
    ensures { LinesAreSound }
{}
