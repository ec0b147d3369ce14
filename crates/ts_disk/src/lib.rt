//! A disk as a journal sees it: the bytes that reads return, the crash images at each moment, and a count of
//! failed calls. There are disks in memory, in memory with calls that fail, and on a real file.
#![tactic(auto)]

mod crash_images;
mod disk_acts;
mod disks;
mod edits;
mod fail_disks;
mod fail_files;
mod file_calls;
mod file_disks;
mod mem_disks;

pub use disk_acts::{Act, Piece};
pub use disks::{Disk, Failed, MOST_BYTES};
pub use fail_disks::{DiskCall, FailDisk, Plan};
pub use fail_files::FailFile;
pub use file_calls::FileCalls;
pub use file_disks::FileDisk;
pub use mem_disks::MemDisk;
