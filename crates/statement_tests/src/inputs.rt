ghost use Rattle.std.specs.Prelude.{◌≡◌, []};

mod lines;

use std::io::{self, ErrorKind, Read, Write};
use std::test::Fail;
use ts_io::*;

const TEXT: &[u8] = b"a: first\nsecond\n\nlast";

#[test]
fn an_input_is_the_same_however_the_source_cuts_it(rt: HostRuntime) -> Result<(), Fail> {
    for most in 1..8 {
        let none = Vec::new(rt.alloc());
        let mut source = MemSource::new(TEXT.to_vec(rt.alloc())?, most, none);
        let mut out = Vec::new(rt.alloc());
        let end = read_all(&mut source, &mut out);
        assert_eq!(rt; end, AllEnd::End, "at most {most} bytes");
        assert_eq!(rt; out.as_slice(), TEXT);
        assert_eq!(rt; source.faults(), 0);
    }
    Ok(())
}

#[test]
fn a_failed_read_leaves_what_was_given_before(rt: HostRuntime) -> Result<(), Fail> {
    // The call that fails, with at most five bytes a call, and how many bytes the earlier calls gave.
    for (call, given) in [(1, 0), (2, 5), (3, 10), (5, 20), (6, 21)] {
        let fails = [call].to_vec(rt.alloc())?;
        let mut source = MemSource::new(TEXT.to_vec(rt.alloc())?, 5, fails);
        let mut out = Vec::new(rt.alloc());
        let end = read_all(&mut source, &mut out);
        assert_eq!(rt; end, AllEnd::ReadFault, "call {call}");
        assert_eq!(rt; out.len(), given);
        assert_eq!(rt; Some(out.as_slice()), TEXT.get(..given));
        assert_eq!(rt; source.faults(), 1);
    }
    Ok(())
}

#[test]
fn an_input_may_have_67108864_bytes(rt: HostRuntime) -> Result<(), Fail> {
    for (len, want) in [(67_108_864, AllEnd::End), (67_108_865, AllEnd::InputLong)] {
        let bytes = vec![in rt.alloc(); b'\n'; len]?;
        let mut source = MemSource::new(bytes, usize::MAX, Vec::new(rt.alloc()));
        let mut out = Vec::new(rt.alloc());
        let end = read_all(&mut source, &mut out);
        assert_eq!(rt; end, want, "{len} bytes");
        assert_eq!(rt; out.len(), 67_108_864);
    }
    Ok(())
}

#[test]
fn a_text_is_written_whole(rt: HostRuntime) {
    for most in 1..8 {
        let mut sink = MemSink::new(rt.alloc(), most, Vec::new(rt.alloc()));
        let end = write_whole(&mut sink, TEXT);
        assert_eq!(rt; end, Ok(()), "at most {most} bytes");
        assert_eq!(rt; sink.bytes(), TEXT);
        assert_eq!(rt; sink.faults(), 0);
    }
}

#[test]
fn a_text_is_written_up_to_the_failed_write(rt: HostRuntime) -> Result<(), Fail> {
    for most in 1..8 {
        let fails = [2].to_vec(rt.alloc())?;
        let mut sink = MemSink::new(rt.alloc(), most, fails);
        let end = write_whole(&mut sink, TEXT);
        assert_eq!(rt; end, Err(WriteFault), "at most {most} bytes");
        assert_eq!(rt; Some(sink.bytes()), TEXT.get(..most));
        assert_eq!(rt; sink.faults(), 1);
    }
    Ok(())
}

/// A reader and writer of std. It is interrupted a few times, then moves `most` bytes in all, and then fails to read
/// and accepts no bytes.
#[derive(Drop)]
struct Pipe {
    most: usize,
    interrupts: u64,
}

impl Read for Pipe {
    fn read(&mut self, buf: &mut [u8]) -> io::Result<usize> {
        if self.interrupts > 0 {
            self.interrupts -= 1;
            return Err(io::Error::from(ErrorKind::Interrupted));
        }
        if self.most == 0 {
            return Err(io::Error::from(ErrorKind::BrokenPipe));
        }
        let n = self.most.min(buf.len());
        buf[..n].fill(b'x');
        self.most -= n;
        Ok(n)
    }
}

impl Write for Pipe {
    fn write(&mut self, buf: &[u8]) -> io::Result<usize> {
        if self.interrupts > 0 {
            self.interrupts -= 1;
            return Err(io::Error::from(ErrorKind::Interrupted));
        }
        let n = self.most.min(buf.len());
        self.most -= n;
        Ok(n)
    }

    fn flush(&mut self) -> io::Result<()> {
        Ok(())
    }
}

#[test]
fn standard_input_counts_its_errors(rt: HostRuntime) -> Result<(), Fail> {
    let mut source = StdinSource::new(Pipe {
        most: 3,
        interrupts: 2,
    });
    let mut out = Vec::new(rt.alloc());
    let end = read_all(&mut source, &mut out);
    assert_eq!(rt; end, AllEnd::ReadFault);
    assert_eq!(rt; out.as_slice(), b"xxx".as_slice());
    assert_eq!(rt; source.faults(), 1);
    Ok(())
}

#[test]
fn standard_output_counts_its_errors_and_empty_writes(rt: HostRuntime) {
    let mut sink = StdoutSink::new(Pipe {
        most: 3,
        interrupts: 2,
    });
    let whole = write_whole(&mut sink, b"abc");
    assert_eq!(rt; whole, Ok(()));
    assert_eq!(rt; sink.faults(), 0);
    let more = write_whole(&mut sink, b"d");
    assert_eq!(rt; more, Err(WriteFault));
    assert_eq!(rt; sink.faults(), 1);
}

/// Reads these bytes through the adapter for readers of std.
fn read_through(text: &[u8], out: &mut Vec<u8>) -> AllEnd
    requires empty { out.old.items ≡ [] }
    ensures all { result ≡ AllEnd.End → out.new.items ≡ text.now }
{
    read_all(&mut StdinSource::new(text), out)
}

#[test]
fn a_reader_in_memory_is_read_whole(rt: HostRuntime) {
    let mut out = Vec::new(rt.alloc());
    let end = read_through(TEXT, &mut out);
    assert_eq!(rt; end, AllEnd::End);
    assert_eq!(rt; out.as_slice(), TEXT);
}
