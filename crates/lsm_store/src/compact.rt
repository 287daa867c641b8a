//! Compactions: one that is due, from its pick to its install.

ghost use Rattle.std.specs.Prelude.{◌≡◌, ℕ, ◌<◌, false, IfErr, IfOk, IfSome, None, OnErr};
ghost use Rattle.std.specs.Option.{option_copied_mut};
ghost use Rattle.lsm_claim.specs.Book.{holds};
ghost use Rattle.lsm_coord.specs.declared.coord.install.Install.TheVariants as became;
ghost use Rattle.lsm_coord.specs.Model.Changes.{IsIndex};
ghost use Rattle.lsm_coord.specs.Contract.Installing.{Became, HoldsSoundMerge};
ghost use Rattle.lsm_coord.specs.Contract.Shows.{Follows, Shows};
ghost use Rattle.lsm_coord.specs.Contract.Sound.{KeepsSound};
ghost use Rattle.lsm_coord.specs.Model.Event.{Deliver, Installed};
ghost use Rattle.lsm_coord.specs.Model.State.{State};
ghost use Rattle.lsm_store.specs.Compacting.{AreServed, CompactionRefuses, CompactionRefusesAfter, Compacts, CompactsAfter, GivesBack, IsLeft, IsCompacted, KeptBack, Merges, tables_at};

use lsm_claim::Claim;
use lsm_coord::{Coord, CoordError, Install};
use lsm_edit::FileMeta;
use lsm_key::{FileNumber, Items, VersionNumber};
use lsm_merge::{MergeError, merge};
use lsm_msg::{Job, JobResult};
use lsm_pick::CompactPointers;
use lsm_table::Table;
use lsm_vault::Vault;
use std::alloc::{AllocError, Global};

/// Runs the next compaction, if a level needs one: picks its job, merges the tables that the coordinator serves, and
/// installs the outputs. Returns the number of the new version and its new files, or `None` if nothing is picked.
/// `None` also if two inputs share an internal key; that cannot happen in a coordinator that represents a valid state.
/// A refusal leaves the version as it was, and no claim behind; the vault may have outputs. The inputs' tables stay in memory, and are served, until
/// `Coord::trim` raises the floor past the last version that lists them.
pub fn compact_once<V: Vault>(
    alloc: Global,
    coord: &mut Coord<V>,
) -> Result<Option<(VersionNumber, Vec<FileNumber>)>, CoordError>
    ensures ok { IfOk result (Compacts coord.old coord.new) }
    ensures err { OnErr result (IsLeft coord.old coord.new) }
    ensures refused { IfErr result (CompactionRefuses coord.old) }
    ensures device { IfErr result (λ e. e ≡ CoordError.Device → coord.old.failures < coord.new.failures) }
    ensures step { (dispatcher message : ℕ) → IsIndex dispatcher → (s : State) → Shows coord.old s → IsCompacted dispatcher message s result coord.new }
    ensures sound { KeepsSound coord.old coord.new }
{
    compact_in(alloc, coord, None)
}

/// `compact_once` in the order of the pointers, if there are any. They follow each job whose result is installed.
pub(crate) fn compact_in<V: Vault>(
    alloc: Global,
    coord: &mut Coord<V>,
    pointers: Option<&mut CompactPointers>,
) -> Result<Option<(VersionNumber, Vec<FileNumber>)>, CoordError>
    ensures ok { IfOk result (CompactsAfter (option_copied_mut pointers.entry) coord.old coord.new) }
    ensures err { OnErr result (IsLeft coord.old coord.new) }
    ensures refused { IfErr result (CompactionRefusesAfter (option_copied_mut pointers.entry) coord.old) }
    ensures device { IfErr result (λ e. e ≡ CoordError.Device → coord.old.failures < coord.new.failures) }
    ensures step { (dispatcher message : ℕ) → IsIndex dispatcher → (s : State) → Shows coord.old s → IsCompacted dispatcher message s result coord.new }
    ensures sound { KeepsSound coord.old coord.new }
{
    // Proof hint: the coordinator's invariant.
    let _listing = coord.show();
    let Some((claim, job)) = coord.pick_after(pointers.as_deref())? else {
        return Ok(None);
    };
    match result_of(alloc, coord, &job) {
        Ok(Some(made)) => {
            let installed = install(coord, claim, &made);
            follow(pointers, &job, installed.is_ok());
            installed
        }
        // Two inputs share an entry: never in a coordinator that represents a valid state.
        Ok(None) => {
            coord.give_back(claim);
            Ok(None)
        }
        Err(error) => {
            coord.give_back(claim);
            Err(error.into())
        }
    }
}

// Moves the pointers, if there are any, on to the end of a job whose result was installed.
fn follow(pointers: Option<&mut CompactPointers>, job: &Job, installed: bool) {
    match pointers {
        Some(pointers) if installed => pointers.follow(job.level(), job.inputs()),
        _ => {}
    }
}

/// Installs the result of a picked job. If it is refused, its claim is given back.
fn install<V: Vault>(
    coord: &mut Coord<V>,
    claim: Claim,
    made: &JobResult,
) -> Result<Option<(VersionNumber, Vec<FileNumber>)>, CoordError>
    ensures done { IfOk result (λ answer. IfSome answer (λ r. Became coord.old claim made.now (became.Done r.0 r.1.items) coord.new)) }
    ensures step { (message : ℕ) → HoldsSoundMerge coord.old claim.id made.now → IfOk result (λ answer. IfSome answer (λ r. Follows coord.old (Deliver message) (Installed r.0 r.1.items) coord.new)) }
    ensures stale { IfOk result (λ answer. answer ≡ None → holds coord.old.book claim.id ≡ false) }
    ensures err { OnErr result (GivesBack coord.old claim.id made.now coord.new) }
    ensures refused { IfErr result (KeptBack coord.old claim made.now) }
    ensures device { IfErr result (λ e. e ≡ CoordError.Device → coord.old.failures < coord.new.failures) }
    ensures sound { HoldsSoundMerge coord.old claim.id made.now → KeepsSound coord.old coord.new }
{
    match coord.install(claim, made) {
        Install::Done(number, files) => Ok(Some((number, files.into_vec()))),
        // A claim that was just picked is live.
        Install::Stale(_, _) => Ok(None),
        Install::Kept(claim, why) => {
            coord.give_back(claim);
            Err(why.into())
        }
    }
}

/// The result of a job's merge, from the tables that the coordinator serves: none is read again. `None` if two inputs
/// share an internal key, or if the version does not list all inputs any more.
pub fn result_of<V: Vault>(
    alloc: Global,
    coord: &Coord<V>,
    job: &Job,
) -> Result<Option<JobResult>, AllocError>
    ensures { IfOk result (λ made. AreServed coord.now job.now → Merges (tables_at coord.now.served.places job.now.inputs) job.now made) }
{
    // Proof hint: the coordinator's invariant.
    let _listing = coord.show();
    let tables = tables_of(alloc, coord, job.inputs())?;
    match merge(alloc, tables.as_slice(), job) {
        Ok(outputs) => Ok(Some(JobResult {
            job: job.id(),
            tables: Items::from_vec(outputs),
        })),
        Err(MergeError::OutOfMemory) => Err(AllocError),
        // A file of the job is gone.
        Err(MergeError::WrongInputs) => Ok(None),
        Err(MergeError::SameEntry) => Ok(None),
    }
}

/// The tables of files, in their order, which share what the coordinator serves: none is read again. A file that is gone
/// has none.
fn tables_of<V: Vault>(
    alloc: Global,
    coord: &Coord<V>,
    files: &[FileMeta],
) -> Result<Vec<Table>, AllocError>
    ensures { IfOk result (λ tables. tables.items ≡ tables_at coord.now.served.places files.now) }
{
    let mut tables = Vec::with_capacity(alloc, files.len())?;
    for file in files {
        if let Some(table) = coord.served().table(file.number) {
            tables.push(table.copy()?)?;
        }
    }
    Ok(tables)
}
