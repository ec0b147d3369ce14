//! The program. It passes standard input, standard output and the journal's file to the top call. It reports the
//! outcome by the exit status and a line on standard error.
#![tactic(auto)]

use std::alloc::Global;
use std::env;
use std::fs::{File, Files};
use std::io::{self, BufRead, ErrorKind};
use std::process::ExitCode;
use std::rt::Env;
use std::sync::Wait;
use std::thread::Threads;
use ts_disk::{Disk, FailDisk, FileDisk, MemDisk};
use ts_io::{StdinSource, StdoutSink};
use ts_model::NoGate;
use ts_top::{Command, Status, command_of, run_words};

/// The journal, in the folder that the program runs in.
const JOURNAL: &str = "tsctl.journal";

/// A file that always exists and is empty.
const NOTHING: &str = "/dev/null";

/// The size in bytes of a block whose release makes the C library keep more freed memory.
const KEPT_MEMORY: usize = 32_000_000;

/// The line on standard error for a status. A damaged journal has a line with its first damaged place instead.
fn message(status: Status) -> Option<&'static str> {
    match status {
        Status::Done | Status::Refused => None,
        Status::BadWords => Some(
            "tsctl: usage: tsctl run | par [json] | log | check | checkpoint | audit | demo N",
        ),
        Status::ReadFault => Some("tsctl: read fault"),
        Status::WriteFault => Some("tsctl: write fault"),
        Status::DiskFault => Some("tsctl: disk fault"),
        Status::Damaged(_) => None,
        Status::NoMemory => Some("tsctl: no memory"),
        Status::InputLong => Some("tsctl: input too long"),
    }
}

/// Makes the C library keep freed memory for the next statement. The library returns the end of its heap to the system
/// if more than a threshold is free there. It raises the threshold to twice the size of a large block that is released.
/// This function allocates such a block and releases it untouched.
fn keep_freed_memory(alloc: Global) {
    let _block: Result<Vec<u8>, _> = Vec::with_capacity(alloc, KEPT_MEMORY);
}

/// The words of the command line after the program's own name.
fn words<R: Env + AllocGlobal>(rt: &R) -> io::Result<Vec<String>> {
    Ok(env::args(rt)?.skip(1).collect(rt.alloc())?)
}

/// Opens the file of the journal. For a command that writes, it creates the file if it is missing, and locks it against
/// other runs. Other commands only read it.
fn open<R: Files<File = File>>(rt: &R, writes: bool) -> io::Result<File> {
    let mut options = File::options();
    options.read(true).write(writes).create(writes);
    let file = options.open(rt, JOURNAL)?;
    if writes {
        file.try_lock()?;
    }
    Ok(file)
}

/// Waits until the input has a byte or ends. If the transcript of a run is piped into an audit, the run has created its
/// journal by then. So the audit opens that journal.
fn wait_for_input<B: BufRead>(reader: &mut B) {
    let _ = reader.fill_buf();
}

/// Runs the command that the words name, with this input and this disk.
fn run_over<R, D>(rt: &R, words: &[String], reader: R::Reader, disk: D) -> Status
where
    R: Input + Print + Threads + Wait + Sync + AllocGlobal,
    D: Disk + Send + Drop,
{
    let mut source = StdinSource::new(reader);
    let mut sink = StdoutSink::new(io::writer(rt));
    run_words(rt, rt.alloc(), words, &mut source, &mut sink, disk, &NoGate).status
}

/// Runs the command that the words name on the journal's file. For a command that only reads, a missing file is an
/// empty disk. If the file can't be opened, or another run has locked it, the disk is one on which every call fails and
/// is counted.
fn run<R>(rt: &R, words: &[String]) -> Status
where
    R: Input + Print + Threads + Wait + Sync + Files<File = File> + AllocGlobal,
{
    // If standard input, output or error is closed, the next file that is opened gets its number, and replies would go
    // into the journal. These three files take such numbers first: a write to one of them fails.
    let _input = File::open(rt, NOTHING);
    let _output = File::open(rt, NOTHING);
    let _error = File::open(rt, NOTHING);
    let command = command_of(words);
    let mut reader = rt.reader();
    if command == Some(Command::Audit) {
        wait_for_input(&mut reader);
    }
    let writes = command.is_some_and(Command::writes);
    match open(rt, writes) {
        Ok(file) => run_over(rt, words, reader, FileDisk::new(file)),
        Err(e) if !writes && e.kind() == ErrorKind::NotFound => run_over(
            rt,
            words,
            reader,
            MemDisk::new(rt.alloc(), Vec::new(rt.alloc())),
        ),
        Err(_) => run_over(
            rt,
            words,
            reader,
            FailDisk::stop_after(rt.alloc(), Vec::new(rt.alloc()), 0),
        ),
    }
}

/// Runs the command on the command line. Words that aren't text name no command.
fn run_command_line<R>(rt: &R) -> Status
where
    R: Env + Input + Print + Threads + Wait + Sync + Files<File = File> + AllocGlobal,
{
    match words(rt) {
        Ok(words) => run(rt, &words),
        Err(e) => match e.kind() {
            ErrorKind::OutOfMemory => Status::NoMemory,
            _ => Status::BadWords,
        },
    }
}

fn main(rt: HostRuntime) -> ExitCode {
    keep_freed_memory(rt.alloc());
    let status = run_command_line(&rt);
    if let Status::Damaged(at) = status {
        let _ = eprintln!(rt; "tsctl: journal damaged at {at}");
    }
    if let Some(line) = message(status) {
        let _ = rt.eprintln(line);
    }
    ExitCode::from(status.code())
}
