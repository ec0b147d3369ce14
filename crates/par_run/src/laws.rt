//! Laws of the transcripts of runs. Each is the clause of a function that does nothing.
ghost use Rattle.par_run.specs.Laws.{RunsAreAscii, RunsAreSound};

/// States the law that each session in the transcript of a run has its own valid name, and only lines of that session.
pub fn runs_are_sound<P>()
    ensures { RunsAreSound P }
{}

/// Each name, line and reply in the transcript of a run is ASCII.
pub fn runs_are_ascii<P>()
    ensures { RunsAreAscii P }
{}
