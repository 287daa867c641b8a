//! The versions of one key, the oldest first.

ghost use Rattle.std.specs.Prelude.{◌≡◌, filter, length, nat_lt, reverse};
ghost use Rattle.std.specs.Option.{option_copied};
ghost use Rattle.lsm_key.specs.Visible.{latest};
ghost use Rattle.lsm_mem.specs.Buckets.{are_of, chain_of_versions};
ghost use Rattle.lsm_mem.specs.Chains.{SequencesRise, chains_from, entries_in, is_older, is_written};

use lsm_key::{Entry, Seq};

/// The last one of a sequence at most `at`.
pub(crate) fn newest_at(versions: &[Entry], at: Seq) -> Option<&Entry>
    requires { SequencesRise versions.now }
    ensures { option_copied result ≡ latest (is_written at) versions.now }
{
    let place = versions.partition_point(|entry| entry.ikey.seq <= at);
    if place == 0 {
        return None;
    }
    Some(&versions[place - 1])
}

/// Removes those whose sequence is at least `first`. Returns whether any is left. Allocates nothing.
pub(crate) fn keep_older(versions: &mut Vec<Entry>, first: Seq) -> bool
    ensures kept { versions.new.items ≡ filter (is_older first) versions.old.items }
    ensures left { result ≡ nat_lt 0 (length versions.new.items) }
{
    versions.retain(|entry| entry.ikey.seq < first);
    !versions.is_empty()
}

/// Whether they are those of this key. No version is of no key.
pub(crate) fn are_of(versions: &[Entry], key: &[u8]) -> bool
    ensures { result ≡ are_of versions.now key.now }
{
    match versions.first() {
        Some(first) => key.cmp(first.ikey.key.as_slice()).is_eq(),
        None => false,
    }
}

/// The versions if their key is at or after `lo`, else none.
pub(crate) fn versions_from<'a>(versions: &'a [Entry], lo: &[u8]) -> &'a [Entry]
    ensures { reverse result.now ≡ entries_in (chains_from lo.now (chain_of_versions versions.now)) }
{
    match versions.first() {
        Some(first) if lo.cmp(first.ikey.key.as_slice()).is_le() => versions,
        _ => &[],
    }
}
