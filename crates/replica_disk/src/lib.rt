//! The store of a daemon in code: its changes and notes over a journal on a disk.
//!
//! What is learnt or noted counts at once, and is staged for the disk; a commit writes what is staged as one group.
#![tactic(auto)]

mod commits;
mod learning;
mod loading;
mod making;
mod notes;
mod opening;
mod stores;

pub use change_journal::{AppendFault, JournalFault, Known, NotOpened, Note};
pub use learning::Learnt;
pub use making::Made;
pub use replica_store::StoreFault;
pub use stores::Store;
