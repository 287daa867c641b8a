//! Whether two lists are the same: comparisons with a contract, for the comparison of whole jobs and results.

ghost use Rattle.std.specs.Prelude.{◌≡◌, ◌↔◌, IsTrue};

use bytes::Bytes;
use lsm_key::{KeyRange, Seq};

pub(crate) fn same_ranges(rs: &[KeyRange], ss: &[KeyRange]) -> bool
    ensures { IsTrue result ↔ rs.now ≡ ss.now }
{
    rs == ss
}

pub(crate) fn same_tables(ts: &[Bytes], us: &[Bytes]) -> bool
    ensures { IsTrue result ↔ ts.now ≡ us.now }
{
    ts == us
}

pub(crate) fn same_points(ps: &[Seq], qs: &[Seq]) -> bool
    ensures { IsTrue result ↔ ps.now ≡ qs.now }
{
    ps == qs
}
