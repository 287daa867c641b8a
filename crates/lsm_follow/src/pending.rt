//! The version that a follower is to move to.

ghost use Rattle.std.specs.Prelude.{◌≡◌, ◌≤◌, All, IfOk, min};
ghost use Rattle.lsm_edit.specs.File.{IsFile};
ghost use Rattle.lsm_msg.specs.declared.node.Node.TheVariants as node;
ghost use Rattle.lsm_msg.specs.Messages.{IsMessage, fetches};

use lsm_edit::{FileMeta, Placed, Version, has_file};
use lsm_key::FileNumber;
use lsm_msg::{Body, Message, NodeIndex};
use lsm_table::Table;
use std::alloc::{AllocError, Global};
use std::marker::Model;

/// A version to move to, with what has come of the tables that the follower lacks.
#[derive(Debug, Drop)]
pub(crate) struct Pending {
    pub(crate) target: Version,
    /// The files whose tables have not come, by number.
    pub(crate) missing: Vec<FileMeta>,
    /// Those that have come, with their tables, in the order in which they came.
    pub(crate) received: Vec<Placed>,
}

impl Model for Pending {
    ghost use Rattle.lsm_follow.specs.Followers.{PendingValue};

    ghost Value = { PendingValue };

    ghost view = { λ p. record { target = p.target; missing = p.missing.items; received = p.received.items } };
}

impl Pending {
    ghost use Rattle.std.specs.Prelude.{◌≡◌, ◌<◌, IfNone, IfSome, OnErr, OnOk, length};
    ghost use Rattle.lsm_key.specs.Sets.{IsIn};
    ghost use Rattle.lsm_edit.specs.declared.file.FileMeta.{FileMeta};
    ghost use Rattle.lsm_edit.specs.Version.{FileNumbersRise, has_number};
    ghost use Rattle.std.specs.List.{list_any};
    ghost use Rattle.lsm_follow.specs.Followers.{with_table};
    ghost use Rattle.lsm_follow.specs.Pending.{StandsAt};

    /// The missing file of the number, and where it stands.
    pub(crate) fn find(&self, number: u64) -> Option<(usize, &FileMeta)>
        requires { FileNumbersRise self.now.missing }
        ensures some { IfSome result (λ r. StandsAt self.now.missing r.0 r.1.now × (r.1.now.number ≡ number)) }
        ensures none { IfNone result ((f : FileMeta) → IsIn f self.now.missing → f.number ≡ number → ⊥) }
    {
        let missing = self.missing.as_slice();
        match missing.binary_search_by_key(&number, |file| file.number) {
            Ok(at) => Some((at, &missing[at])),
            Err(_) => None,
        }
    }

    /// Whether a file of the number is missing.
    pub(crate) fn lacks(&self, number: u64) -> bool
        requires { FileNumbersRise self.now.missing }
        ensures { result ≡ list_any (has_number number) self.now.missing }
    {
        has_file(self.missing.as_slice(), number)
    }

    /// Takes the table of a missing file. If memory runs out, nothing changes.
    pub(crate) fn receive(&mut self, at: usize, table: Table) -> Result<(), AllocError>
        requires rising { FileNumbersRise self.old.missing }
        requires within { at < length self.old.missing }
        ensures ok { OnOk result ((f : FileMeta) → StandsAt self.old.missing at f → self.new ≡ with_table (record { meta = f; table = table }) self.old) }
        ensures err { OnErr result (self.new ≡ self.old) }
    {
        self.received.reserve(1)?;
        let meta = self.missing.remove(at);
        self.received.push(Placed { meta, table }).unwrap();
        Ok(())
    }
}

/// A number of tables, as far as a count of four bytes goes.
pub(crate) fn count(tables: usize) -> u32
    ensures { result ≡ min tables 4294967295 }
{
    if tables > u32::MAX as usize {
        u32::MAX
    } else {
        tables as u32
    }
}

/// A request for the table of each file.
pub(crate) fn fetches(
    alloc: Global,
    index: NodeIndex,
    files: &[FileMeta],
) -> Result<Vec<Message>, AllocError>
    requires { All IsFile files.now }
    ensures all { IfOk result (λ sent. sent.items ≡ fetches (node.Follower index) files.now) }
    ensures sound { IfOk result (λ sent. All IsMessage sent.items) }
{
    let mut sent = Vec::with_capacity(alloc, files.len())?;
    for file in files {
        let body = Body::Fetch(FileNumber::new(file.number));
        sent.push(Message::from_follower(index, body))?;
    }
    Ok(sent)
}
