//! The demonstration.
ghost use Rattle.std.specs.Prelude.{◌≡◌, ℕ, List, Option};
ghost use Rattle.ts_io.specs.Faults.{Counted};
ghost use Rattle.ts_top.specs.Calls.{DemoTo};
ghost use Rattle.ts_top.specs.Endings.{is_write_fault};
ghost use Rattle.ts_top.specs.Stops.{status_of_shown};

use crate::endings::{Ended, Status};
use demo_run::demo;
use std::alloc::Global;
use std::thread::Threads;
use ts_disk::Disk;
use ts_io::{Sink, WriteFault, write_whole};
use ts_schema::NoMemory;

/// Runs the script of the demonstration with this number on a new disk in memory, and prints the summary. It doesn't
/// use the given disk.
#[tactic(auto, using(demo_run::proofs::DemoLaws::never_refused))]
pub(crate) fn print_demo<R: Threads + Sync, K: Sink, D: Disk>(
    rt: &R,
    alloc: Global,
    sink: &mut K,
    disk: D,
    number: u32,
) -> Ended<D>
    ensures outcome { (input rest file_before file : Option (List ℕ))
        → DemoTo number result.status (sink.new ≡ sink.old)
        (record {
          input = input;
          rest = rest;
          written_before = K.written sink.old;
          written = K.written sink.new;
          file_before = file_before;
          file = file;
          reads = result.reads;
        }) }
    ensures disk { result.disk ≡ disk }
    ensures writes { Counted (K.faults sink.old) (K.faults sink.new) (is_write_fault result.status) }
{
    match demo(rt, alloc, number) {
        Ok(shown) => {
            let written = write_whole(sink, shown.text.items());
            Ended {
                status: status_of_shown(written),
                disk,
                reads: shown.reads,
            }
        }
        Err(NoMemory) => Ended {
            status: Status::NoMemory,
            disk,
            reads: 0,
        },
    }
}

/// How the call ends, by whether its summary was written.
fn status_of_shown(written: Result<(), WriteFault>) -> Status
    ensures { result ≡ status_of_shown written }
{
    match written {
        Ok(()) => Status::Done,
        Err(WriteFault) => Status::WriteFault,
    }
}
