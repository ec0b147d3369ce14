ghost use Rattle.std.specs.Prelude.{◌≡◌, ◌<◌, true, Some, IfOk};
ghost use Rattle.ts_io.specs.Reader.{Follows};

use std::alloc::Global;
use std::process::Abort;
use std::test::Fail;
use ts_io::{LINE_LIMIT, LineEnd, Lines, MemSource};

/// A source of this text and a reader of its lines.
fn start(
    alloc: Global,
    text: Vec<u8>,
    most: usize,
    fails: Vec<u64>,
) -> Result<(MemSource, Lines), Fail>
    requires { 0 < most }
    ensures is_open { IfOk result (λ both. both.1.is_open ≡ true) }
    ensures follows { IfOk result (λ both. Follows both.1 both.0.ended (Some both.0.left)) }
{
    Ok((MemSource::new(text, most, fails), Lines::new(alloc)?))
}

/// Takes the next line, which must be this one.
fn takes(rt: &impl Abort, lines: &mut Lines, source: &mut MemSource, want: &[u8])
    requires is_open { lines.old.is_open ≡ true }
    requires follows { Follows lines.old source.old.ended (Some source.old.left) }
    ensures is_open { lines.new.is_open ≡ true }
    ensures follows { Follows lines.new source.new.ended (Some source.new.left) }
{
    let end = lines.next(source);
    assert_eq!(rt; end, LineEnd::Line);
    assert_eq!(rt; lines.line(), want);
}

/// Takes the next `times` lines, each of which must be this one.
fn takes_times(rt: &impl Abort, lines: &mut Lines, source: &mut MemSource, want: &[u8], times: u32)
    requires is_open { lines.old.is_open ≡ true }
    requires follows { Follows lines.old source.old.ended (Some source.old.left) }
    ensures is_open { lines.new.is_open ≡ true }
    ensures follows { Follows lines.new source.new.ended (Some source.new.left) }
{
    for _ in 0..times {
        takes(rt, lines, source, want);
    }
}

#[test]
fn lines_are_the_same_however_the_source_cuts_them(rt: HostRuntime) -> Result<(), Fail> {
    for most in 1..8 {
        let none = Vec::new(rt.alloc());
        let text = super::TEXT.to_vec(rt.alloc())?;
        let (mut source, mut lines) = start(rt.alloc(), text, most, none)?;
        takes(&rt, &mut lines, &mut source, b"a: first");
        takes(&rt, &mut lines, &mut source, b"second");
        takes(&rt, &mut lines, &mut source, b"");
        takes(&rt, &mut lines, &mut source, b"last");
        let end = lines.next(&mut source);
        assert_eq!(rt; end, LineEnd::End, "at most {most} bytes");
    }
    Ok(())
}

#[test]
fn an_input_may_have_67108864_bytes_of_lines(rt: HostRuntime) -> Result<(), Fail> {
    // 1,024 lines of 65,536 bytes with their line ends, and the bytes that follow.
    let line = vec![in rt.alloc(); b'x'; LINE_LIMIT - 1]?;
    for (more, want) in [
        (b"".as_slice(), LineEnd::End),
        (b"x".as_slice(), LineEnd::InputLong),
        (b"\n".as_slice(), LineEnd::InputLong),
    ] {
        let mut text = Vec::new(rt.alloc());
        for _ in 0..1_024 {
            text.extend_from_slice(line.as_slice())?;
            text.push(b'\n')?;
        }
        text.extend_from_slice(more)?;
        let none = Vec::new(rt.alloc());
        let (mut source, mut lines) = start(rt.alloc(), text, usize::MAX, none)?;
        takes_times(&rt, &mut lines, &mut source, line.as_slice(), 1_024);
        let end = lines.next(&mut source);
        assert_eq!(rt; end, want);
    }
    Ok(())
}

#[test]
fn a_last_line_that_ends_with_the_input_lies_within_the_limit(rt: HostRuntime) -> Result<(), Fail> {
    for (len, want) in [
        (67_108_864, LineEnd::LineLong),
        (67_108_865, LineEnd::InputLong),
    ] {
        let text = vec![in rt.alloc(); b'x'; len]?;
        let none = Vec::new(rt.alloc());
        let (mut source, mut lines) = start(rt.alloc(), text, usize::MAX, none)?;
        let end = lines.next(&mut source);
        assert_eq!(rt; end, want, "{len} bytes");
    }
    Ok(())
}

#[test]
fn lines_that_are_held_are_given_before_a_fault(rt: HostRuntime) -> Result<(), Fail> {
    let fails = [2].to_vec(rt.alloc())?;
    let text = super::TEXT.to_vec(rt.alloc())?;
    let (mut source, mut lines) = start(rt.alloc(), text, usize::MAX, fails)?;
    takes(&rt, &mut lines, &mut source, b"a: first");
    takes(&rt, &mut lines, &mut source, b"second");
    takes(&rt, &mut lines, &mut source, b"");
    let end = lines.next(&mut source);
    assert_eq!(rt; end, LineEnd::ReadFault);
    Ok(())
}
