//! What a follower does with a message.

ghost use Rattle.std.specs.Prelude.{◌≡◌, ◌+◌, ◌<◌, ◌≤◌, All, IfOk, IfSome, None, OnErr, Some, [], false, length};
ghost use Rattle.lsm_edit.specs.declared.file.FileMeta.{FileMeta};
ghost use Rattle.lsm_edit.specs.Version.{is_listed};
ghost use Rattle.lsm_edit.specs.Served.{IsAsRecorded};
ghost use Rattle.lsm_msg.specs.declared.node.Node.TheVariants as node;
ghost use Rattle.lsm_msg.specs.Messages.{IsMessage, fetches};
ghost use Rattle.lsm_follow.specs.Followers.{TakesBody, TakesEdit, TakesMissing, after_base, after_gone_file, goes_on, kept_for, missing_of, moves, pending_for, received_of, turns_to, waits, with_table};
ghost use Rattle.lsm_follow.specs.Onward.{IsOnward};
ghost use Rattle.lsm_follow.specs.Pending.{StandsAt, has_come};

use super::Follower;
use crate::change::FollowChange;
use crate::pending::{Pending, count, fetches};
use bytes::Bytes;
use lsm_edit::{Edit, FileMeta, Placed, Room, Version, is_listed, open_as_recorded};
use lsm_key::FileNumber;
use lsm_msg::{Body, Message};
use lsm_table::Table;
use std::alloc::AllocError;

impl Follower {
    /// Takes a message, and returns what it changed and which messages are to be sent. It is for a follower that the message
    /// reached: sender and receiver are not looked at.
    ///
    /// The edit of the next version, if it applies, or a later full version becomes the version to move to, in place of any
    /// other; tables that have come and that it lists are kept. If no table is missing the follower moves at once, otherwise
    /// it asks for each, by number. The table of a missing file is kept if it is as its file record says; with the last one
    /// the follower moves. A missing file that is no longer served ends the wait. Anything else is ignored. If memory runs
    /// out, nothing changes.
    pub fn on_message(
        &mut self,
        message: &Message,
    ) -> Result<(FollowChange, Vec<Message>), AllocError>
        ensures ok { IfOk result (λ r. TakesBody self.old message.now.body (record { change = r.0; sent = r.1.items; follower = self.new })) }
        ensures err { OnErr result (self.new ≡ self.old) }
        ensures onward { IsOnward self.old.served self.new.served }
        ensures sound { IfOk result (λ r. All IsMessage r.1.items) }
    {
        // Proof hint: the follower's invariant.
        let _alloc = &self.alloc;
        match &message.body {
            Body::Edit(edit) => self.on_edit(edit),
            Body::Base(version) => self.on_base(version),
            Body::Table(file, bytes) => self.on_table(*file, bytes),
            Body::Gone(file) => Ok(self.on_gone(*file)),
            Body::Current(_) => Ok(self.stay(FollowChange::Current)),
            _ => Ok(self.stay(FollowChange::Ignored)),
        }
    }

    fn stay(&self, change: FollowChange) -> (FollowChange, Vec<Message>)
        ensures change { result.0 ≡ change }
        ensures sent { result.1.items ≡ [] }
    {
        (change, Vec::new(self.alloc))
    }

    fn on_edit(&mut self, edit: &Edit) -> Result<(FollowChange, Vec<Message>), AllocError>
        ensures ok { IfOk result (λ r. TakesEdit self.old edit.now (record { change = r.0; sent = r.1.items; follower = self.new })) }
        ensures err { OnErr result (self.new ≡ self.old) }
        ensures sound { IfOk result (λ r. All IsMessage r.1.items) }
    {
        if !edit.is_valid() {
            return Ok(self.stay(FollowChange::Ignored));
        }
        if self.served.version().fault_of(edit).is_some() {
            return Ok(self.stay(FollowChange::Ignored));
        }
        let mut target = self.served.version().copy(self.alloc)?;
        target.apply_valid(edit)?;
        self.turn_to(target)
    }

    fn on_base(&mut self, version: &Version) -> Result<(FollowChange, Vec<Message>), AllocError>
        ensures ok { IfOk result (λ r. record { change = r.0; sent = r.1.items; follower = self.new } ≡ after_base self.old version.now) }
        ensures err { OnErr result (self.new ≡ self.old) }
        ensures sound { IfOk result (λ r. All IsMessage r.1.items) }
    {
        if version.number() <= self.served.version().number() {
            return Ok(self.stay(FollowChange::Ignored));
        }
        let target = version.copy(self.alloc)?;
        self.turn_to(target)
    }

    fn on_table(
        &mut self,
        file: FileNumber,
        bytes: &Bytes,
    ) -> Result<(FollowChange, Vec<Message>), AllocError>
        ensures ok { IfOk result (λ r. TakesMissing self.old file bytes.now self.old.pending (record { change = r.0; sent = r.1.items; follower = self.new })) }
        ensures err { OnErr result (self.new ≡ self.old) }
        ensures sound { IfOk result (λ r. All IsMessage r.1.items) }
    {
        let Some(pending) = &self.pending else {
            return Ok(self.stay(FollowChange::Ignored));
        };
        let Some((at, meta)) = pending.find(file.number()) else {
            return Ok(self.stay(FollowChange::Ignored));
        };
        let Some(table) = open_as_recorded(self.alloc, meta, bytes)? else {
            return Ok(self.stay(FollowChange::Ignored));
        };
        if pending.missing.len() > 1 {
            return self.keep(at, table);
        }
        self.finish(at, table)
    }

    fn on_gone(&mut self, file: FileNumber) -> (FollowChange, Vec<Message>)
        ensures ok { record { change = result.0; sent = result.1.items; follower = self.new } ≡ after_gone_file self.old file self.old.pending }
        ensures sound { All IsMessage result.1.items }
    {
        let Some(pending) = &self.pending else {
            return self.stay(FollowChange::Ignored);
        };
        if !pending.lacks(file.number()) {
            return self.stay(FollowChange::Ignored);
        }
        self.pending = None;
        self.stay(FollowChange::Dropped)
    }

    // Turns to a later version, in place of any other.
    fn turn_to(&mut self, target: Version) -> Result<(FollowChange, Vec<Message>), AllocError>
        requires { self.old.served.version.number < target.number }
        ensures ok { IfOk result (λ r. record { change = r.0; sent = r.1.items; follower = self.new } ≡ turns_to self.old target) }
        ensures err { OnErr result (self.new ≡ self.old) }
        ensures sound { IfOk result (λ r. All IsMessage r.1.items) }
    {
        let missing = self.missing_of(&target)?;
        if missing.is_empty() {
            return self.move_to(target);
        }
        self.wait_for(target, missing)
    }

    // The files of a version whose tables are neither served nor have come.
    fn missing_of(&self, target: &Version) -> Result<Vec<FileMeta>, AllocError>
        ensures { IfOk result (λ missing. missing.items ≡ missing_of self.now.served.version target.now (kept_for target.now self.now.pending)) }
    {
        let mut missing = Vec::new(self.alloc);
        for file in target.files() {
            if !self.has(file) {
                let copy = file.clone()?;
                missing.push(copy)?;
            }
        }
        Ok(missing)
    }

    // Whether the table of the file is served or has come.
    fn has(&self, file: &FileMeta) -> bool
        ensures { result ≡ has_come self.now file.now }
    {
        self.served.version().lists(file) || self.has_received(file)
    }

    // Whether the table of the file, which is not served, has come.
    fn has_received(&self, file: &FileMeta) -> bool
        requires { is_listed self.now.served.version.files file.now ≡ false }
        ensures { result ≡ has_come self.now file.now }
    {
        let Some(pending) = &self.pending else {
            return false;
        };
        if !pending.target.lists(file) {
            return false;
        }
        !is_listed(pending.missing.as_slice(), file)
    }

    // Moves to a later version of which no table is missing.
    fn move_to(&mut self, target: Version) -> Result<(FollowChange, Vec<Message>), AllocError>
        requires later { self.old.served.version.number < target.number }
        requires none { (pending_for self.old target).missing ≡ [] }
        ensures ok { IfOk result (λ r. record { change = r.0; sent = r.1.items; follower = self.new } ≡ moves self.old (pending_for self.old target)) }
        ensures err { OnErr result (self.new ≡ self.old) }
        ensures sound { IfOk result (λ r. All IsMessage r.1.items) }
    {
        let room = self.served.make_room(self.count_received())?;
        let received = self.take_received(&target);
        let number = target.number();
        self.served.rebase(target, received, room);
        Ok(self.stay(FollowChange::Version(number)))
    }

    // Waits for the tables that are missing of a later version.
    fn wait_for(
        &mut self,
        target: Version,
        missing: Vec<FileMeta>,
    ) -> Result<(FollowChange, Vec<Message>), AllocError>
        requires later { self.old.served.version.number < target.number }
        requires missing { missing.items ≡ (pending_for self.old target).missing }
        requires some { missing.items ≡ [] → ⊥ }
        ensures ok { IfOk result (λ r. record { change = r.0; sent = r.1.items; follower = self.new } ≡ waits self.old (pending_for self.old target) (fetches (node.Follower self.old.index) missing.items)) }
        ensures err { OnErr result (self.new ≡ self.old) }
        ensures sound { IfOk result (λ r. All IsMessage r.1.items) }
    {
        // Proof hint: the version's invariant.
        let _number = target.number();
        let sent = fetches(self.alloc, self.index, missing.as_slice())?;
        let received = self.take_received(&target);
        let count = count(missing.len());
        self.pending = Some(Pending {
            target,
            missing,
            received,
        });
        Ok((FollowChange::Waiting(count), sent))
    }

    // How many tables have come.
    fn count_received(&self) -> usize
        ensures { result ≡ length (received_of self.now.pending) }
    {
        match &self.pending {
            Some(pending) => pending.received.len(),
            None => 0,
        }
    }

    // Gives up the version that it was to move to, and returns what has come of another one's tables.
    fn take_received(&mut self, target: &Version) -> Vec<Placed>
        ensures received { result.items ≡ kept_for target.now self.old.pending }
        ensures rest { self.new ≡ record self.old { pending = None } }
    {
        let Some(pending) = self.pending.take() else {
            return Vec::new(self.alloc);
        };
        let mut received = pending.received;
        received.retain(|placed| target.lists(&placed.meta));
        received
    }

    // Takes the table of a missing file that is not the last one.
    fn keep(&mut self, at: usize, table: Table) -> Result<(FollowChange, Vec<Message>), AllocError>
        requires { IfSome self.old.pending (λ to. (1 < length to.missing) × ((f : FileMeta) × StandsAt to.missing at f × IsAsRecorded f table)) }
        ensures ok { IfOk result (λ r. IfSome self.old.pending (λ to. (f : FileMeta) → StandsAt to.missing at f → record { change = r.0; sent = r.1.items; follower = self.new } ≡ waits self.old (with_table (record { meta = f; table = table }) to) [])) }
        ensures err { OnErr result (self.new ≡ self.old) }
        ensures sound { IfOk result (λ r. All IsMessage r.1.items) }
    {
        let Some(pending) = &mut self.pending else {
            return Err(AllocError);
        };
        pending.receive(at, table)?;
        let left = count(pending.missing.len());
        Ok(self.stay(FollowChange::Waiting(left)))
    }

    // Takes the table of the last missing file, and moves.
    fn finish(
        &mut self,
        at: usize,
        table: Table,
    ) -> Result<(FollowChange, Vec<Message>), AllocError>
        requires { IfSome self.old.pending (λ to. (length to.missing ≤ 1) × ((f : FileMeta) × StandsAt to.missing at f × IsAsRecorded f table)) }
        ensures ok { IfOk result (λ r. IfSome self.old.pending (λ to. (f : FileMeta) → StandsAt to.missing at f → record { change = r.0; sent = r.1.items; follower = self.new } ≡ moves self.old (with_table (record { meta = f; table = table }) to))) }
        ensures err { OnErr result (self.new ≡ self.old) }
        ensures sound { IfOk result (λ r. All IsMessage r.1.items) }
    {
        let Some(pending) = &mut self.pending else {
            return Err(AllocError);
        };
        let room = self.served.make_room(pending.received.len() + 1)?;
        pending.receive(at, table)?;
        let Some(pending) = self.pending.take() else {
            unreachable!()
        };
        let number = pending.target.number();
        self.served.rebase(pending.target, pending.received, room);
        Ok(self.stay(FollowChange::Version(number)))
    }
}
