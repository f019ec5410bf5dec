ghost use Rattle.std.specs.Prelude.{◌≡◌};
ghost use Rattle.change_journal.specs.Faults.{append_fault_for, journal_fault_for, journal_fault_of};
ghost use Rattle.change_journal.specs.declared.faults.AppendFault.TheVariants as append_faults;

use journal_format::BadGroups;
use outside::DiskFault;
use std::alloc::AllocError;
use thiserror::Error;

/// Why records were not appended. Whatever the cause, a crash leaves the records from before, and none or all of the
/// new ones.
#[derive(Clone, Copy, Debug, PartialEq, Eq, Error)]
pub enum AppendFault {
    /// The disk failed at one of the four counted calls, and no later one was made.
    #[error("the disk failed")]
    Fault,
    /// There was no memory: none for the group, and then no call of the disk was made, or none for a write, which was
    /// not made, nor any call behind it. A group that would end at 2 ^ 64 - 1 or behind it wants memory too.
    #[error("out of memory")]
    Memory,
}

impl From<DiskFault> for AppendFault {
    ghost from_gives = { λ fault given. given ≡ append_fault_for fault };

    fn from(fault: DiskFault) -> AppendFault {
        match fault {
            DiskFault::Failed => AppendFault::Fault,
            DiskFault::Memory => AppendFault::Memory,
        }
    }
}

impl From<outside::Fault> for AppendFault {
    ghost from_gives = { λ _ given. given ≡ append_faults.Fault };

    fn from(_fault: outside::Fault) -> AppendFault {
        AppendFault::Fault
    }
}

impl From<AllocError> for AppendFault {
    ghost from_gives = { λ _ given. given ≡ append_faults.Memory };

    fn from(_error: AllocError) -> AppendFault {
        AppendFault::Memory
    }
}

/// Why a journal was not opened.
#[derive(Clone, Copy, Debug, PartialEq, Eq, Error)]
pub enum JournalFault {
    /// The disk is not empty, and its content does not begin with the mark of a journal and a byte behind it.
    #[error("no journal")]
    NotAJournal,
    /// The open gate at this offset of the disk, in bytes from 0, is the first whose group is outside the grammar, or has
    /// no byte behind it.
    #[error("the group at byte {0} is no group of records")]
    BadRecord(u64),
    /// The disk failed.
    #[error("the disk failed")]
    Fault,
    /// There was no memory for the content or the records, or none for a write, which was not made.
    #[error("out of memory")]
    Memory,
}

impl From<AppendFault> for JournalFault {
    ghost from_gives = { λ fault given. given ≡ journal_fault_for fault };

    fn from(fault: AppendFault) -> JournalFault {
        match fault {
            AppendFault::Fault => JournalFault::Fault,
            AppendFault::Memory => JournalFault::Memory,
        }
    }
}

impl From<BadGroups> for JournalFault {
    ghost from_gives = { λ fault given. given ≡ journal_fault_of fault };

    fn from(fault: BadGroups) -> JournalFault {
        match fault {
            BadGroups::BadRecord(place) => JournalFault::BadRecord(place),
            BadGroups::Memory => JournalFault::Memory,
        }
    }
}

/// A disk that was not opened as a journal: why, and the disk as the call left it.
#[derive(Debug, Drop)]
pub struct NotOpened<D> {
    pub fault: JournalFault,
    pub disk: D,
}
