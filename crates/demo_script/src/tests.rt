//! Lines of the script of demonstration 7, worked out manually.
use super::demo_line;
use std::alloc::Global;
use std::test::Fail;

/// Whether the line with a number begins and ends like this.
fn reads(alloc: Global, number: u32, first: &[u8], last: &[u8]) -> Result<bool, Fail> {
    Ok(match demo_line(alloc, 7, number)? {
        None => false,
        Some(line) => line.items().starts_with(first) && line.items().ends_with(last),
    })
}

#[test]
fn lines_stand_in_their_places(rt: HostRuntime) -> Result<(), Fail> {
    let alloc = rt.alloc();
    let table = b"d: CREATE TABLE m (time BIGINT NOT NULL, dev BIGINT, val BIGINT)";
    let first_insert = b"d: INSERT INTO m VALUES (0, 0, 0), (10, 1, 7), (20, 2, 14), ";
    let last_insert = b"d: INSERT INTO m VALUES (4000, 0, 800), (4010, 1, 807), ";
    let refresh = b"d: CALL refresh_continuous_aggregate('m100', 190000, 195000)";
    let late_row = b"d: INSERT INTO m VALUES (1000, 0, 7)";
    let answer = b"d: SELECT * FROM m100";
    assert!(rt; reads(alloc, 1, table, table)?);
    assert!(rt; reads(alloc, 4, first_insert, b", (980, 2, 686), (990, 3, 693)")?);
    assert!(rt; reads(alloc, 8, last_insert, b", (-20, 2, 486), (-10, 3, 493)")?);
    assert!(rt; reads(alloc, 282, refresh, refresh)?);
    assert!(rt; reads(alloc, 284, late_row, late_row)?);
    assert!(rt; reads(alloc, 285, answer, answer)?);
    assert!(rt; demo_line(alloc, 7, 286)?.is_none());
    Ok(())
}
