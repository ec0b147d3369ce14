//! A law of scripts, as the clause of a function that does nothing.
ghost use Rattle.demo_script.specs.Laws.{HasItsLines, IsWithinLimit};

/// States the law that the text of a script is within the limit of an input, and has the script's lines.
pub fn script_law()
    ensures within { IsWithinLimit }
    ensures lines { HasItsLines }
{}
