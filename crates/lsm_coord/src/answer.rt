//! Answers of the coordinator, as plain data.

ghost use Rattle.std.specs.Prelude.{◌≡◌, ◌↔◌, IfOk, IsTrue};

use crate::{CoordError, Flushed, SnapId};
use bytes::Bytes;
use lsm_claim::JobId;
use lsm_edit::{FileMeta, Listing, same_files};
use lsm_key::{FileNumber, Items, Seq, VersionNumber};
use lsm_msg::Job;
use std::alloc::{AllocError, Global};

/// A listing of the coordinator's current version.
#[derive(Debug, Drop)]
pub struct ShownVersion {
    pub number: VersionNumber,
    /// Every write up to it is in the files.
    pub flushed: Seq,
    /// By number.
    pub files: Items<FileMeta>,
}

/// The answer of a call to the coordinator, so that a history can keep it. A claim is named by its job.
#[derive(Debug, Drop)]
pub enum Answer {
    /// Why the call was refused.
    Refused(CoordError),
    /// The first and the last sequence of a batch.
    Wrote(Seq, Seq),
    /// The last sequence of the frozen memtable.
    Froze(Seq),
    Flushed(Flushed),
    /// A snapshot, and the sequence that it reads at.
    Snapped(SnapId, Seq),
    Released,
    /// The value of a key, if it has one.
    Got(Option<Bytes>),
    /// Keys with their values.
    Scanned(Items<(Bytes, Bytes)>),
    Shown(ShownVersion),
    /// The job that was picked; its claim has the same name.
    Picked(Job),
    /// No job was picked.
    Idle,
    /// The version that an install made, and the numbers of the files that it added.
    Installed(VersionNumber, Items<FileNumber>),
    /// The claim of this name has no live job; carries the current epoch.
    Stale(JobId, u64),
    /// The floor after a trim, and the numbers of the files that it let go.
    Trimmed(VersionNumber, Items<FileNumber>),
}

impl ShownVersion {
    /// A copy of what a version lists. The keys share the bytes.
    pub fn of(alloc: Global, listing: Listing<'_>) -> Result<ShownVersion, AllocError>
        ensures number { IfOk result (λ shown. shown.number ≡ listing.entry.number) }
        ensures flushed { IfOk result (λ shown. shown.flushed ≡ listing.entry.flushed) }
        ensures files { IfOk result (λ shown. shown.files ≡ listing.entry.files.now) }
    {
        let files = listing.files.to_vec(alloc)?;
        Ok(ShownVersion {
            number: listing.number,
            flushed: listing.flushed,
            files: Items::from_vec(files),
        })
    }

    /// The same version. The keys share the bytes.
    pub fn copy(&self, alloc: Global) -> Result<ShownVersion, AllocError>
        ensures { IfOk result (λ copy. copy ≡ self.now) }
    {
        let files = self.files.as_slice().to_vec(alloc)?;
        Ok(ShownVersion {
            number: self.number,
            flushed: self.flushed,
            files: Items::from_vec(files),
        })
    }

    fn same(&self, other: &ShownVersion) -> bool
        ensures { IsTrue result ↔ self.now ≡ other.now }
    {
        self.number == other.number
            && self.flushed == other.flushed
            && same_files(self.files.as_slice(), other.files.as_slice())
    }
}

impl Answer {
    /// The same answer. Keys and values share the bytes.
    pub fn copy(&self, alloc: Global) -> Result<Answer, AllocError>
        ensures { IfOk result (λ copy. copy ≡ self.now) }
    {
        match self {
            Answer::Refused(why) => Ok(Answer::Refused(*why)),
            Answer::Wrote(first, last) => Ok(Answer::Wrote(*first, *last)),
            Answer::Froze(seq) => Ok(Answer::Froze(*seq)),
            Answer::Flushed(flushed) => Ok(Answer::Flushed(*flushed)),
            Answer::Snapped(id, at) => Ok(Answer::Snapped(*id, *at)),
            Answer::Released => Ok(Answer::Released),
            Answer::Got(value) => Ok(Answer::Got(copied_value(value)?)),
            Answer::Scanned(pairs) => Ok(Answer::Scanned(copied_pairs(pairs, alloc)?)),
            Answer::Shown(version) => Ok(Answer::Shown(version.copy(alloc)?)),
            Answer::Picked(job) => Ok(Answer::Picked(job.copy(alloc)?)),
            Answer::Idle => Ok(Answer::Idle),
            Answer::Installed(number, files) => {
                Ok(Answer::Installed(*number, copied_numbers(files, alloc)?))
            }
            Answer::Stale(claim, epoch) => Ok(Answer::Stale(*claim, *epoch)),
            Answer::Trimmed(floor, files) => {
                Ok(Answer::Trimmed(*floor, copied_numbers(files, alloc)?))
            }
        }
    }

    /// Whether two answers are the same.
    pub fn same(&self, other: &Answer) -> bool
        ensures { IsTrue result ↔ self.now ≡ other.now }
    {
        match (self, other) {
            (Answer::Refused(a), Answer::Refused(b)) => a == b,
            (Answer::Wrote(a, p), Answer::Wrote(b, q)) => a == b && p == q,
            (Answer::Froze(a), Answer::Froze(b)) => a == b,
            (Answer::Flushed(a), Answer::Flushed(b)) => a == b,
            (Answer::Snapped(a, p), Answer::Snapped(b, q)) => a == b && p == q,
            (Answer::Released, Answer::Released) => true,
            (Answer::Got(a), Answer::Got(b)) => a == b,
            (Answer::Scanned(a), Answer::Scanned(b)) => same_pairs(a.as_slice(), b.as_slice()),
            (Answer::Shown(a), Answer::Shown(b)) => a.same(b),
            (Answer::Picked(a), Answer::Picked(b)) => a.same(b),
            (Answer::Idle, Answer::Idle) => true,
            (Answer::Installed(a, f), Answer::Installed(b, g)) => {
                a == b && same_file_numbers(f.as_slice(), g.as_slice())
            }
            (Answer::Stale(a, p), Answer::Stale(b, q)) => a == b && p == q,
            (Answer::Trimmed(a, f), Answer::Trimmed(b, g)) => {
                a == b && same_file_numbers(f.as_slice(), g.as_slice())
            }
            _ => false,
        }
    }
}

fn copied_value(value: &Option<Bytes>) -> Result<Option<Bytes>, AllocError>
    ensures { IfOk result (λ copy. copy ≡ value.now) }
{
    value.clone()
}

fn copied_pairs(
    pairs: &Items<(Bytes, Bytes)>,
    alloc: Global,
) -> Result<Items<(Bytes, Bytes)>, AllocError>
    ensures { IfOk result (λ copy. copy ≡ pairs.now) }
{
    Ok(Items::from_vec(pairs.as_slice().to_vec(alloc)?))
}

fn copied_numbers(
    numbers: &Items<FileNumber>,
    alloc: Global,
) -> Result<Items<FileNumber>, AllocError>
    ensures { IfOk result (λ copy. copy ≡ numbers.now) }
{
    Ok(Items::from_vec(numbers.as_slice().to_vec(alloc)?))
}

fn same_file_numbers(numbers: &[FileNumber], others: &[FileNumber]) -> bool
    ensures { IsTrue result ↔ numbers.now ≡ others.now }
{
    numbers == others
}

fn same_pairs(pairs: &[(Bytes, Bytes)], others: &[(Bytes, Bytes)]) -> bool
    ensures { IsTrue result ↔ pairs.now ≡ others.now }
{
    if pairs.len() != others.len() {
        return false;
    }
    for (i, (key, value)) in pairs.iter().enumerate() {
        let (other_key, other_value) = &others[i];
        if key != other_key || value != other_value {
            return false;
        }
    }
    true
}
