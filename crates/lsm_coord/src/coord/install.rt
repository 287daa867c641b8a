//! Installs: the result of a job replaces its inputs.

ghost use Rattle.std.specs.Prelude.{◌≡◌, ◌↔◌, ℕ, ◌<◌, ◌≤◌, ◌^◌, IfErr, IsTrue, IfOk, None, OnErr, find, length, map, true};
ghost use Rattle.std.specs.Option.{option_copied};
ghost use Rattle.lsm_key.specs.Sets.{IsIn};
ghost use Rattle.lsm_claim.specs.declared.job.LiveJob.{LiveJob};
ghost use Rattle.lsm_claim.specs.Jobs.{same_job_id};
ghost use Rattle.lsm_table.specs.Tables.{IsTable, Opened};
ghost use Rattle.lsm_edit.specs.Edit.{IsEdit};
ghost use Rattle.lsm_edit.specs.Version.{apply_fault};
ghost use Rattle.lsm_msg.specs.Legal.{IsLegal};
ghost use Rattle.lsm_coord.specs.Contract.Installing.{AreAscending, Became, HasNumbers, HoldsSoundMerge, IsDone, Rejects, install_edit_of, is_table_inside, number_fault};
ghost use Rattle.lsm_coord.specs.Contract.Memory.{IsJobWant};
ghost use Rattle.lsm_coord.specs.Contract.Replies.{install_reply};
ghost use Rattle.lsm_coord.specs.Contract.Shows.{Follows};
ghost use Rattle.lsm_coord.specs.Contract.Sound.{KeepsSound};
ghost use Rattle.lsm_coord.specs.Inner.Putting.{PutLeaves, PutsOutputs};
ghost use Rattle.lsm_coord.specs.Model.Event.{Deliver};

use super::Coord;
use super::outputs::{open_outputs, records_of};
use lsm_claim::{Claim, Ending, JobId, LiveJob, Want};
use lsm_edit::{Edit, FileMeta, Version};
use lsm_key::{FileNumber, Items, MAX_NUMBER, VersionNumber};
use lsm_msg::JobResult;
use lsm_table::Table;
use lsm_vault::{Vault, VaultError};
use lsm_versions::VersionSet;
use std::alloc::{AllocError, AllocFailed, Global};
use thiserror::Error;

/// Why a result is not installed: the first reason that holds. The claim is handed back, and can be used again.
#[derive(Clone, Copy, Debug, PartialEq, Eq, Error)]
pub enum InstallError {
    /// It names another job than the claim does. Install the one of the claim's own job, or give the claim back.
    #[error("the result is of another job")]
    WrongJob,
    /// A table is damaged, of another block target than the store's, or has keys out of place. Have the job done again,
    /// or give the claim back.
    #[error("the tables are no outputs of the job")]
    BadResult,
    /// The next version or a new file would have a number above `MAX_NUMBER`. Give the claim back: nothing can be
    /// installed any more.
    #[error("the version or file numbers are exhausted")]
    NumbersExhausted,
    #[error("out of memory")]
    OutOfMemory,
    /// The vault's device failed. The install may be tried again.
    #[error("the vault failed")]
    Device,
}

/// What became of a claim and its result.
pub enum Install {
    /// The outputs are in the version of this number, under these file numbers, and the claim is settled.
    Done(VersionNumber, Items<FileNumber>),
    /// The claim's job is no longer running. The claim is consumed; carries the current epoch.
    Stale(JobId, u64),
    /// The result is not installed, the version is as before, and the claim is handed back.
    Kept(Claim, InstallError),
}

// The version that an install made, and the files that it added.
#[derive(Drop)]
struct Put {
    number: VersionNumber,
    files: Items<FileNumber>,
}

impl From<AllocError> for InstallError {
    ghost use Rattle.std.specs.Prelude.{◌≡◌};
    ghost use Rattle.lsm_coord.specs.declared.coord.install.InstallError.TheVariants.{OutOfMemory};

    ghost from_gives = { λ _ e. e ≡ OutOfMemory };

    fn from(_e: AllocError) -> InstallError {
        InstallError::OutOfMemory
    }
}

impl<T: Drop> From<AllocFailed<T>> for InstallError {
    ghost use Rattle.std.specs.Prelude.{◌≡◌};
    ghost use Rattle.lsm_coord.specs.declared.coord.install.InstallError.TheVariants.{OutOfMemory};

    ghost from_gives = { λ _ e. e ≡ OutOfMemory };

    fn from(_e: AllocFailed<T>) -> InstallError {
        InstallError::OutOfMemory
    }
}

impl From<VaultError> for InstallError {
    ghost use Rattle.std.specs.Prelude.{◌≡◌};
    ghost use Rattle.lsm_coord.specs.Contract.Replies.{install_error};

    ghost from_gives = { λ why e. e ≡ install_error why };

    fn from(why: VaultError) -> InstallError {
        match why {
            VaultError::OutOfMemory => InstallError::OutOfMemory,
            VaultError::Device => InstallError::Device,
        }
    }
}

impl<V: Vault> Coord<V> {
    /// Replaces the inputs of a job by its outputs, one level deeper, and settles its claim. Level, inputs and keys are
    /// those that the book has under the claim's name. A claim whose job is not live is consumed and nothing else
    /// changes. If the result is of another job or invalid, if file numbers are exhausted, memory runs out or the device
    /// fails, nothing changes, but that the vault may have outputs, and the claim is handed back: its job is still live, and
    /// it still has to be settled.
    ///
    /// Of the outputs' contents it tests only the keys and the block target: that they are what a merge keeps of the inputs is the worker's
    /// responsibility. The inputs' tables stay in memory, and are served, until `Coord::trim` raises the floor past the
    /// last version that lists them.
    pub fn install(&mut self, claim: Claim, made: &JobResult) -> Install
        ensures became { Became self.old claim made.now result self.new }
        ensures failures { self.old.failures ≤ self.new.failures }
        ensures step { (message : ℕ) → (IsDone result → HoldsSoundMerge self.old claim.id made.now) → Follows self.old (Deliver message) (install_reply result) self.new }
        ensures sound { (IsDone result → HoldsSoundMerge self.old claim.id made.now) → KeepsSound self.old self.new }
    {
        let id = claim.id();
        // Proof hint: the version and its places are sound.
        let _listing = self.versions.served().listing();
        match job_named(self.book.live(), id) {
            None => {
                let epoch = self.book.epoch();
                // A stale claim counts as neither ending.
                self.book.settle(claim, Ending::Installed);
                Install::Stale(id, epoch)
            }
            Some(job) => match put_outputs(
                self.alloc,
                &mut self.versions,
                self.limits.block,
                job,
                made,
            ) {
                Ok(put) => {
                    self.book.settle(claim, Ending::Installed);
                    Install::Done(put.number, put.files)
                }
                Err(why) => Install::Kept(claim, why),
            },
        }
    }
}

// The live job of a name.
fn job_named(jobs: &[LiveJob], id: JobId) -> Option<&LiveJob>
    ensures { option_copied result ≡ find (λ j. same_job_id j.id id) jobs.now }
{
    jobs.iter().find(|job| job.id == id)
}

// Makes the next version, in which the outputs replace the inputs. A refusal changes nothing, but may have put tables.
fn put_outputs<V: Vault>(
    alloc: Global,
    versions: &mut VersionSet<V>,
    block: u32,
    job: &LiveJob,
    made: &JobResult,
) -> Result<Put, InstallError>
    requires epoch { 1 ≤ versions.old.served.version.epoch }
    requires legal { IsLegal versions.old.served.version.files job.now.want }
    requires orderly { IsJobWant job.now.want }
    ensures ok { IfOk result (λ put. PutsOutputs block versions.old job.now made.now put versions.new) }
    ensures left { IfErr result (λ e. PutLeaves made.now e versions.old versions.new) }
    ensures why { IfErr result (Rejects block versions.old.served.version job.now made.now) }
{
    let want = &job.want;
    if !are_same(made.job, job.id) {
        return Err(InstallError::WrongJob);
    }
    let tables = open_outputs(alloc, block, &want.hull, made.tables.as_slice())?;
    let version = versions.version();
    match number_fault(version, tables.len()) {
        Some(why) => return Err(why),
        None => {}
    }
    let number = VersionNumber::new(version.number() + 1);
    let edit = edit_of(alloc, version, want, &tables)?;
    let files = numbers_of(alloc, edit.added.as_slice())?;
    versions.log_and_apply(&edit, tables)?;
    Ok(Put {
        number,
        files: Items::from_vec(files),
    })
}

// Why the next version, with this many new files, has no numbers, if it has none.
fn number_fault(version: &Version, files: usize) -> Option<InstallError>
    ensures { result ≡ number_fault version.now files }
{
    if version.number() < MAX_NUMBER && files as u64 <= MAX_NUMBER - version.next_file() {
        return None;
    }
    Some(InstallError::NumbersExhausted)
}

fn are_same(a: JobId, b: JobId) -> bool
    ensures { IsTrue result ↔ (a ≡ b) }
{
    a == b
}

// The edit that replaces the inputs by the outputs.
fn edit_of(
    alloc: Global,
    version: &Version,
    want: &Want,
    tables: &[Table],
) -> Result<Edit, AllocError>
    requires fits { HasNumbers version.now tables.now }
    requires epoch { 1 ≤ version.now.epoch }
    requires legal { IsLegal version.now.files want.now }
    requires orderly { IsJobWant want.now }
    requires few { length tables.now < 2 ^ 32 }
    requires sound { (t : Opened) → IsIn t tables.now → IsTable t.bytes t.entries }
    requires inside { (t : Opened) → IsIn t tables.now → is_table_inside want.now.hull t ≡ true }
    requires ascending { AreAscending tables.now }
    ensures edit { IfOk result (λ edit. edit ≡ install_edit_of version.now want.now tables.now) }
    ensures sound { IfOk result IsEdit }
    ensures applies { IfOk result (λ edit. apply_fault version.now edit ≡ None) }
{
    let files = records_of(alloc, want.level + 1, version.next_file(), tables)?;
    let removed = copy_of(alloc, &want.files)?;
    Ok(Edit::install(version, removed, Items::from_vec(files)))
}

// The same numbers.
fn copy_of(alloc: Global, numbers: &Items<u64>) -> Result<Items<u64>, AllocError>
    ensures { IfOk result (λ copy. copy ≡ numbers.now) }
{
    let copy = numbers.as_slice().to_vec(alloc)?;
    Ok(Items::from_vec(copy))
}

// The numbers of files.
fn numbers_of(alloc: Global, files: &[FileMeta]) -> Result<Vec<FileNumber>, AllocError>
    ensures { IfOk result (λ numbers. numbers.items ≡ map (λ f. f.number) files.now) }
{
    files
        .iter()
        .map(|file| FileNumber::new(file.number))
        .collect(alloc)
}
