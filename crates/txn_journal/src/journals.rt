//! A journal to which payloads are appended.
ghost use Rattle.std.specs.Prelude.{◌≡◌, ◌≢◌, ℕ, ◌≤◌, IsSomeAnd};
ghost use Rattle.ts_disk.specs.CrashImage.{LeavesOnly};
ghost use Rattle.txn_journal.specs.Calls.{IsAtRest, IsTold, BeginSince, Ends, IsCounted, IfDone, IfStopped};
ghost use Rattle.txn_journal.specs.Contents.{Content, IsFront, number_of, content_of_version_2, with_payload};
ghost use Rattle.txn_journal.specs.Frames.{StandsFor, StandsForEither, WithOrWithout};
ghost use Rattle.txn_journal.specs.Places.{IsPlaced};

use crate::frames::Frame;
use crate::heads::{FIRST_GATE, HEADER};
use crate::versions::Version;
use crate::writes::{put_frame, put_version, write_synced};
use std::marker::Model;
use ts_disk::{Disk, Failed};

/// The outcome of `Journal::arm`, `Journal::append` or `Journal::raise_version`.
#[derive(Clone, Copy, Debug, PartialEq, Eq)]
pub enum Append {
    /// The change is on the disk, and stays there.
    Done,
    /// The disk failed. From now on the journal has stopped.
    DiskFault,
    /// The journal had stopped before, and the call did nothing.
    Stopped,
}

/// The state of a journal.
#[derive(Clone, Copy, Debug, PartialEq, Eq)]
pub enum JournalState {
    /// Its file has at most nine bytes, and no header.
    Bare,
    /// It has a header, and accepts payloads.
    Ready,
    /// A call returned `DiskFault`.
    Still,
}

/// A journal to which payloads can be appended.
#[derive(Drop)]
pub struct Journal<D: Disk> {
    disk: D,
    /// A file without a header will be of version 1.
    version: Version,
    /// The place of the commit byte after the last payload.
    end: u64,
    standing: JournalState,
}

impl<D: Disk> Model for Journal<D> {
    ghost use Rattle.txn_journal.specs.Calls.{Logged};

    ghost Value = { Logged D };

    ghost use Rattle.txn_journal.specs.Places.{IsPlaced};

    ghost view = { λ j. record { disk = j.disk; version = j.version; end = j.end; standing = j.standing } };

    ghost invariant = { λ j. IsPlaced (D.bytes j.disk) j.standing j.end };
}

impl<D: Disk> Journal<D> {
    /// A journal of this version on this disk. `end` is the place of the commit byte after its last payload.
    pub(crate) fn new(disk: D, version: Version, end: u64, standing: JournalState) -> Journal<D>
        requires placed { IsPlaced (D.bytes disk) standing end }
        ensures made { result ≡ record { disk = disk; version = version; end = end; standing = standing } }
    {
        Journal {
            disk,
            version,
            end,
            standing,
        }
    }

    /// Returns the version, 1 or 2. A journal without a header gets version 1.
    pub fn version(&self) -> u8
        ensures { result ≡ number_of self.now.version }
    {
        self.version.number()
    }

    /// Writes and syncs the header if the file has at most nine bytes and isn't the header. Otherwise does
    /// nothing.
    pub fn arm(&mut self) -> Append
        ensures tells { (content : Content) → IsTold D.bytes self.old content
            → IfDone result (IsTold D.bytes self.new content) }
        ensures done { (content : Content) → IsAtRest D.bytes D.may_leave self.old content
            → IfDone result (IsAtRest D.bytes D.may_leave self.new content) }
        // A crash at any moment leaves a file of the same content.
        ensures any_moment { (content : Content) → IsAtRest D.bytes D.may_leave self.old content
            → LeavesOnly D.moment D.left_since self.old.disk self.new.disk (λ file. StandsFor file content) }
        // If each image since an earlier moment has content that begins with `before`, each still does.
        ensures earlier { (t : ℕ) (before content : Content) → IsAtRest D.bytes D.may_leave self.old content
            → IsFront before content → t ≤ D.moment self.old.disk
            → BeginSince D.left_since self.old.disk t before → BeginSince D.left_since self.new.disk t before }
        // Reads also return such a file, whether or not all of it was on the disk.
        ensures shown { (content : Content) → IsTold D.bytes self.old content
            → IsSomeAnd (D.bytes self.new.disk) (λ file. StandsFor file content) }
        ensures ends { Ends result self.old.standing self.new.standing }
        ensures armed { self.new.standing ≢ JournalState.Bare }
        ensures stopped { IfStopped result (self.new ≡ self.old) }
        ensures version { self.new.version ≡ self.old.version }
        ensures idle { self.old.standing ≢ JournalState.Bare → self.new ≡ self.old }
        ensures counted { IsCounted result (D.faults self.old.disk) (D.faults self.new.disk) }
    {
        match self.standing {
            JournalState::Bare => {
                self.end = FIRST_GATE;
                match write_synced(&mut self.disk, 0, &HEADER) {
                    Ok(()) => {
                        self.standing = JournalState::Ready;
                        Append::Done
                    }
                    Err(Failed) => {
                        self.standing = JournalState::Still;
                        Append::DiskFault
                    }
                }
            }
            JournalState::Ready => Append::Done,
            JournalState::Still => Append::Stopped,
        }
    }

    /// Appends a payload: writes its frame, syncs, sets its commit byte, and syncs. Takes no memory. Once it
    /// returns `Done`, every crash leaves a file that has the payload.
    pub fn append(&mut self, frame: &Frame) -> Append
        requires armed { self.old.standing ≢ JournalState.Bare }
        ensures done { (content : Content) → IsTold D.bytes self.old content → IfDone result
            (IsAtRest D.bytes D.may_leave self.new (with_payload self.old.version content frame.now)) }
        // A crash at any moment leaves a file of the same content, with this payload or without it.
        ensures any_moment { (content : Content) → IsAtRest D.bytes D.may_leave self.old content
            → LeavesOnly D.moment D.left_since self.old.disk self.new.disk
            (WithOrWithout self.old.version content frame.now) }
        // If each image since an earlier moment has content that begins with `before`, each still does.
        ensures earlier { (t : ℕ) (before content : Content) → IsAtRest D.bytes D.may_leave self.old content
            → IsFront before content → IsFront before (with_payload self.old.version content frame.now)
            → t ≤ D.moment self.old.disk
            → BeginSince D.left_since self.old.disk t before → BeginSince D.left_since self.new.disk t before }
        // Reads also return such a file, whether or not all of it was on the disk.
        ensures shown { (content : Content) → IsTold D.bytes self.old content
            → IsSomeAnd (D.bytes self.new.disk) (WithOrWithout self.old.version content frame.now) }
        ensures ends { Ends result self.old.standing self.new.standing }
        ensures version { self.new.version ≡ self.old.version }
        ensures armed { self.new.standing ≢ JournalState.Bare }
        ensures stopped { IfStopped result (self.new ≡ self.old) }
        ensures counted { IsCounted result (D.faults self.old.disk) (D.faults self.new.disk) }
    {
        if self.standing == JournalState::Still {
            return Append::Stopped;
        }
        match put_frame(&mut self.disk, self.end, frame) {
            Ok(()) => {
                self.end += frame.bytes().len() as u64;
                Append::Done
            }
            Err(Failed) => {
                self.standing = JournalState::Still;
                Append::DiskFault
            }
        }
    }

    /// Raises a journal of version 1 to version 2: writes the version byte, and syncs. Does nothing in version
    /// 2.
    pub fn raise_version(&mut self) -> Append
        requires armed { self.old.standing ≢ JournalState.Bare }
        ensures tells { (content : Content) → IsTold D.bytes self.old content
            → IfDone result (IsTold D.bytes self.new (content_of_version_2 content)) }
        ensures done { (content : Content) → IsAtRest D.bytes D.may_leave self.old content
            → IfDone result (IsAtRest D.bytes D.may_leave self.new (content_of_version_2 content)) }
        // A crash at any moment leaves a file with the content of one version or the other.
        ensures any_moment { (content : Content) → IsAtRest D.bytes D.may_leave self.old content
            → LeavesOnly D.moment D.left_since self.old.disk self.new.disk (StandsForEither content (content_of_version_2 content)) }
        // Reads also return such a file, whether or not all of it was on the disk.
        ensures shown { (content : Content) → IsTold D.bytes self.old content
            → IsSomeAnd (D.bytes self.new.disk) (StandsForEither content (content_of_version_2 content)) }
        ensures ends { Ends result self.old.standing self.new.standing }
        ensures version { IfDone result (self.new.version ≡ Version.Two) }
        ensures armed { self.new.standing ≢ JournalState.Bare }
        ensures stopped { IfStopped result (self.new ≡ self.old) }
        ensures idle { self.old.standing ≢ JournalState.Still → self.old.version ≡ Version.Two → self.new ≡ self.old }
        ensures counted { IsCounted result (D.faults self.old.disk) (D.faults self.new.disk) }
    {
        if let JournalState::Still = self.standing {
            return Append::Stopped;
        }
        match self.version {
            Version::Two => Append::Done,
            Version::One => match put_version(&mut self.disk) {
                Ok(()) => {
                    self.version = Version::Two;
                    Append::Done
                }
                Err(Failed) => {
                    self.standing = JournalState::Still;
                    Append::DiskFault
                }
            },
        }
    }

    /// Returns the disk.
    pub fn close(self) -> D
        ensures disk { result ≡ self.disk }
    {
        self.disk
    }
}
