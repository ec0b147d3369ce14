//! Laws of the lines of a demonstration. Each is the clause of a function that does nothing.
ghost use Rattle.demo_laws.specs.ActLaws.{LinesAct, LinesAreStatements};

/// States the law that each line of a demonstration is the intended statement, and that no check refuses it.
pub fn lines_are_statements()
    ensures { LinesAreStatements }
{}

/// States the law that each line of a demonstration does its action.
pub fn lines_act()
    ensures { LinesAct }
{}
