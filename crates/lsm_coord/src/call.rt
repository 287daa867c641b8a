//! Calls of the coordinator, as plain data.

ghost use Rattle.std.specs.Prelude.{◌≡◌, ◌↔◌, IfOk, IsTrue};

use crate::SnapId;
use bytes::Bytes;
use lsm_claim::JobId;
use lsm_key::{Items, Op, VersionNumber};
use lsm_msg::JobResult;
use std::alloc::{AllocError, Global};

/// What a scan reads: the first `limit` keys at or after `lo` and before `hi`, latest or at a snapshot.
#[derive(Debug, Drop)]
pub struct ScanRange {
    pub lo: Bytes,
    pub hi: Bytes,
    pub at: Option<SnapId>,
    /// In keys.
    pub limit: u64,
}

/// A call to the coordinator, so that a history can keep it. A claim is named by its job.
#[derive(Debug, Drop)]
pub enum Call {
    /// Apply the operations of a batch.
    Write(Items<Op>),
    Freeze,
    Flush,
    Snap,
    Release(SnapId),
    /// Read a key, latest or at a snapshot.
    Get(Bytes, Option<SnapId>),
    Scan(ScanRange),
    /// List the current version.
    Show,
    /// Claim the next job.
    Pick,
    /// Install the result of a job, under the claim of this name.
    Install(JobId, JobResult),
    /// Raise the floor to a version.
    Trim(VersionNumber),
}

impl ScanRange {
    /// The same range. The keys share the bytes.
    pub fn copy(&self) -> Result<ScanRange, AllocError>
        ensures { IfOk result (λ copy. copy ≡ self.now) }
    {
        let lo = self.lo.clone()?;
        let hi = self.hi.clone()?;
        Ok(ScanRange {
            lo,
            hi,
            at: self.at,
            limit: self.limit,
        })
    }

    fn same(&self, other: &ScanRange) -> bool
        ensures { IsTrue result ↔ self.now ≡ other.now }
    {
        self.lo == other.lo
            && self.hi == other.hi
            && self.at == other.at
            && self.limit == other.limit
    }
}

impl Call {
    /// The same call. Keys, values and tables share the bytes.
    pub fn copy(&self, alloc: Global) -> Result<Call, AllocError>
        ensures { IfOk result (λ copy. copy ≡ self.now) }
    {
        match self {
            Call::Write(ops) => {
                let ops = ops.as_slice().to_vec(alloc)?;
                Ok(Call::Write(Items::from_vec(ops)))
            }
            Call::Freeze => Ok(Call::Freeze),
            Call::Flush => Ok(Call::Flush),
            Call::Snap => Ok(Call::Snap),
            Call::Release(id) => Ok(Call::Release(*id)),
            Call::Get(key, at) => Ok(Call::Get(key.clone()?, *at)),
            Call::Scan(range) => Ok(Call::Scan(range.copy()?)),
            Call::Show => Ok(Call::Show),
            Call::Pick => Ok(Call::Pick),
            Call::Install(claim, made) => Ok(Call::Install(*claim, made.copy(alloc)?)),
            Call::Trim(to) => Ok(Call::Trim(*to)),
        }
    }

    /// Whether two calls are the same.
    pub fn same(&self, other: &Call) -> bool
        ensures { IsTrue result ↔ self.now ≡ other.now }
    {
        match (self, other) {
            (Call::Write(a), Call::Write(b)) => same_ops(a.as_slice(), b.as_slice()),
            (Call::Freeze, Call::Freeze) => true,
            (Call::Flush, Call::Flush) => true,
            (Call::Snap, Call::Snap) => true,
            (Call::Release(a), Call::Release(b)) => a == b,
            (Call::Get(a, p), Call::Get(b, q)) => a == b && p == q,
            (Call::Scan(a), Call::Scan(b)) => a.same(b),
            (Call::Show, Call::Show) => true,
            (Call::Pick, Call::Pick) => true,
            (Call::Install(a, r), Call::Install(b, s)) => a == b && r.same(s),
            (Call::Trim(a), Call::Trim(b)) => a == b,
            _ => false,
        }
    }
}

fn same_ops(ops: &[Op], others: &[Op]) -> bool
    ensures { IsTrue result ↔ ops.now ≡ others.now }
{
    if ops.len() != others.len() {
        return false;
    }
    for (i, op) in ops.iter().enumerate() {
        if !same_op(op, &others[i]) {
            return false;
        }
    }
    true
}

fn same_op(op: &Op, other: &Op) -> bool
    ensures { IsTrue result ↔ op.now ≡ other.now }
{
    match (op, other) {
        (Op::Put(a, v), Op::Put(b, w)) => a == b && v == w,
        (Op::Delete(a), Op::Delete(b)) => a == b,
        _ => false,
    }
}
