//! Readers of a follower's versions, each in a thread of its own.
//!
//! It promises that a read waits for nobody and never goes back: what a reader has seen, and what it was told, begins what
//! it reads from, and its answer is the look-up in the last version of that. A publication that finds no memory changes
//! nothing that readers see. What the writer published and what readers have seen are beginnings of one list, whose version
//! numbers rise. It stands on `lsm_edit` for versions with their tables, on `left_right` for two copies of what readers
//! read, and on `logbook` for the one list.
#![tactic(auto)]

mod error;
mod laws;
mod log;
mod publication;
mod reader;
mod rule;
mod start;
mod told;
mod view;
mod writer;

pub use error::{PublishError, ReadError, ReadersError};
pub use laws::reader_limits_are_these;
pub use log::{LogName, NewLog, PublicationLog};
pub use publication::Publication;
pub use reader::FollowerReader;
pub use start::{MAX_READERS, readers};
pub use told::Told;
pub use view::View;
pub use writer::{FollowerWriter, Lists, Publisher};
