//! How a call ended.
ghost use Rattle.std.specs.Prelude.{◌≡◌};
ghost use Rattle.ts_top.specs.Endings.{exit_status, status_answered, status_of as status_of_run};

use script_run::RunEnd;
use ts_disk::Disk;

/// How the top call ended.
#[derive(Clone, Copy, Debug, PartialEq, Eq)]
pub enum Status {
    /// The call did everything, and no reply is a FAULT.
    Done,
    /// The call did everything, but a reply is a FAULT, the image of a checkpoint is too long, or an audit didn't
    /// answer `YES`.
    Refused,
    /// The words name no command.
    BadWords,
    /// The source failed, and its count of faults rose.
    ReadFault,
    /// The sink failed, and its count of faults rose.
    WriteFault,
    /// The disk failed, and its count of faults rose.
    DiskFault,
    /// The journal represents no history. This is its first damaged place.
    Damaged(u64),
    /// Out of memory.
    NoMemory,
    /// The source gave a byte beyond the limit. `run` has executed the lines that end within it; `par` has
    /// executed none, and `audit` has printed nothing.
    InputLong,
}

/// The end of the top call: how it ended, the disk that the caller gave it, and how many stored rows its answers and
/// refreshes read.
#[derive(Drop)]
pub struct Ended<D: Disk> {
    /// How it ended.
    pub status: Status,
    /// The disk.
    pub disk: D,
    /// How many stored rows were read. The count stops at `u64::MAX`.
    pub reads: u64,
}

impl Status {
    /// The exit status of a program that ends like this.
    pub fn code(self) -> u8
        ensures { result ≡ exit_status self }
    {
        match self {
            Status::Done => 0,
            Status::Refused => 1,
            Status::BadWords => 2,
            Status::ReadFault => 3,
            Status::WriteFault => 4,
            Status::DiskFault => 5,
            Status::Damaged(_) => 6,
            Status::NoMemory => 7,
            Status::InputLong => 8,
        }
    }
}

/// How the call ends after its script ended like this.
pub(crate) fn status_of(end: RunEnd) -> Status
    ensures { result ≡ status_of_run end }
{
    match end {
        RunEnd::Done => Status::Done,
        RunEnd::Refused => Status::Refused,
        RunEnd::ReadFault => Status::ReadFault,
        RunEnd::WriteFault => Status::WriteFault,
        RunEnd::DiskFault => Status::DiskFault,
        RunEnd::NoMemory => Status::NoMemory,
        RunEnd::InputLong => Status::InputLong,
    }
}

/// How a call that answered all lines ends. `refused` is whether a reply is a FAULT.
pub(crate) fn status_answered(refused: bool) -> Status
    ensures { result ≡ status_answered refused }
{
    if refused {
        Status::Refused
    } else {
        Status::Done
    }
}
