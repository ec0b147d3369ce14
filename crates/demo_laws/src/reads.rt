//! Laws of the lines of a demonstration. Each is the clause of a function that does nothing.
ghost use Rattle.demo_laws.specs.ReadLaws.{DefinitionsReadNothing, DemonstrationsReadTheSame};
ghost use Rattle.demo_laws.specs.ReadLaws.{InsertsReadNothing, QueriesReadARound, RefreshesReadAChunk};

/// States the law that a line that creates a table or an aggregate reads no row.
pub fn definitions_read_nothing()
    ensures { DefinitionsReadNothing }
{}

/// States the law that an insert of a demonstration reads no row, on any history that isn't full.
pub fn inserts_read_nothing()
    ensures { InsertsReadNothing }
{}

/// States the law that the refresh of a round reads the rows in the chunk of the round before.
pub fn refreshes_read_a_chunk()
    ensures { RefreshesReadAChunk }
{}

/// States the law that a query reads the rows of the last round that came in time.
pub fn queries_read_a_round()
    ensures { QueriesReadARound }
{}

/// States the law that every demonstration reads 39,600 stored rows, and no reply to it is a FAULT.
pub fn demonstrations_read_the_same()
    ensures { DemonstrationsReadTheSame }
{}
