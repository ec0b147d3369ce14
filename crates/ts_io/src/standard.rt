//! Readers and writers of std, such as standard input and standard output, as a source and a sink.
ghost use Rattle.std.specs.Prelude.{◌≡◌, ◌≢◌, ◌<◌, ◌≤◌, false, length, take, IfErr, IfOk, OnErr};
ghost use Rattle.std.specs.Bool.{OnFalse};
ghost use Rattle.std.specs.Io.{ReadsAtMost, WritesAtMost};
ghost use Rattle.std.specs.Io.KnownBytes.{Appends, Consumes, IsAtEnd, Keeps};
ghost use Rattle.std.specs.IoError.{error_kind};
ghost use Rattle.ts_io.specs.Standard.{got_of, put_of};

use crate::sinks::{Put, Sink};
use crate::sources::{Got, Source, tells_end};
use std::io::{self, ErrorKind, Read, Write};
use std::marker::Model;

/// How often a call that a signal interrupts is repeated before it counts as failed.
const TRIES: u32 = 1_000;

/// A reader of std, such as standard input, with a count of its errors. Contracts know exactly the bytes that
/// they know of the reader.
#[derive(Drop)]
pub struct StdinSource<R> {
    reader: R,
    ended: bool,
    faults: u64,
}

impl<R> Model for StdinSource<R> {
    ghost use Rattle.ts_io.specs.Standard.{Input};

    ghost Value = { Input R };

    ghost view = { λ s. record { reader = s.reader; ended = s.ended; faults = s.faults } };
}

impl<R: Read> StdinSource<R> {
    /// A source that reads from this reader.
    pub fn new(reader: R) -> StdinSource<R>
        ensures made { result ≡ record { reader = reader; ended = false; faults = 0 } }
    {
        StdinSource {
            reader,
            ended: false,
            faults: 0,
        }
    }
}

impl<R: Read> Source for StdinSource<R> {
    ghost left = { λ s. R.remaining s.reader };

    ghost ended = { λ s. s.ended };

    ghost faults = { λ s. s.faults };

    fn faults(&self) -> u64 {
        self.faults
    }

    fn read(&mut self, into: &mut [u8]) -> Got {
        let got = got(read_retrying(&mut self.reader, into));
        self.ended = tells_end(got, into);
        if let Got::Failed = got {
            self.faults = self.faults.saturating_add(1);
        }
        got
    }
}

/// The result of a read of std, which is a fault if the read failed.
fn got(read: io::Result<usize>) -> Got
    ensures { result ≡ got_of read }
{
    match read {
        Ok(n) => Got::Bytes(n),
        Err(_) => Got::Failed,
    }
}

/// Whether a signal interrupted the call that failed with this error.
fn is_interrupted(error: &io::Error) -> bool
    ensures { OnFalse result (error_kind error.now ≢ ErrorKind.Interrupted) }
{
    error.kind() == ErrorKind::Interrupted
}

/// One read, repeated if a signal interrupts it.
fn read_retrying<R: Read>(reader: &mut R, into: &mut [u8]) -> io::Result<usize>
    ensures bound { ReadsAtMost result into.new }
    ensures taken { IfOk result (λ n. Consumes (R.remaining reader.old) (R.remaining reader.new) (take n into.new)) }
    ensures end { IfOk result (λ n. n ≡ 0 → 0 < length into.new → IsAtEnd (R.remaining reader.new)) }
    ensures kept { OnErr result (Keeps (R.remaining reader.old) (R.remaining reader.new)) }
    ensures retried { IfErr result (λ e. error_kind e ≢ ErrorKind.Interrupted) }
{
    for _ in 0..TRIES {
        match reader.read(into) {
            Ok(n) => return Ok(n),
            Err(e) => {
                if !is_interrupted(&e) {
                    return Err(e);
                }
            }
        }
    }
    Err(io::Error::from(ErrorKind::TimedOut))
}

/// A writer of std, such as standard output, with a count of its errors. Contracts know exactly the bytes
/// that they know of the writer.
#[derive(Drop)]
pub struct StdoutSink<W> {
    writer: W,
    faults: u64,
}

impl<W> Model for StdoutSink<W> {
    ghost use Rattle.ts_io.specs.Standard.{Output};

    ghost Value = { Output W };

    ghost view = { λ s. record { writer = s.writer; faults = s.faults } };
}

impl<W: Write> StdoutSink<W> {
    /// A sink that writes to this writer, which must not buffer.
    pub fn new(writer: W) -> StdoutSink<W>
        ensures made { result ≡ record { writer = writer; faults = 0 } }
    {
        StdoutSink { writer, faults: 0 }
    }
}

impl<W: Write> Sink for StdoutSink<W> {
    ghost written = { λ s. W.contents s.writer };

    ghost faults = { λ s. s.faults };

    fn faults(&self) -> u64 {
        self.faults
    }

    /// A write that takes nothing of a piece that isn't empty is counted as failed.
    fn write(&mut self, piece: &[u8]) -> Put {
        let put = put(write_retrying(&mut self.writer, piece), piece);
        if let Put::Failed = put {
            self.faults = self.faults.saturating_add(1);
        }
        put
    }
}

/// The result of a write of std. It is a fault if the write failed, or if it took nothing of a piece that isn't
/// empty.
fn put(written: io::Result<usize>, piece: &[u8]) -> Put
    ensures { result ≡ put_of written piece.now }
{
    match written {
        Ok(0) if !piece.is_empty() => Put::Failed,
        Ok(n) => Put::Bytes(n),
        Err(_) => Put::Failed,
    }
}

/// One write, repeated if a signal interrupts it.
fn write_retrying<W: Write>(writer: &mut W, piece: &[u8]) -> io::Result<usize>
    ensures bound { WritesAtMost result piece.now }
    ensures taken { IfOk result (λ n. Appends (W.contents writer.old) (W.contents writer.new) (take n piece.now)) }
    ensures kept { OnErr result (Keeps (W.contents writer.old) (W.contents writer.new)) }
    ensures retried { IfErr result (λ e. error_kind e ≢ ErrorKind.Interrupted) }
{
    for _ in 0..TRIES {
        match writer.write(piece) {
            Ok(n) => return Ok(n),
            Err(e) => {
                if !is_interrupted(&e) {
                    return Err(e);
                }
            }
        }
    }
    Err(io::Error::from(ErrorKind::TimedOut))
}
