//! How many records the vault's log has, and cuts of it.

ghost use Rattle.std.specs.Prelude.{◌≡◌, ◌+◌, ◌≤◌, ◌⊎◌, ℕ, IfSome, Some, drop, length};

use lsm_vault::Vault;
use lsm_versions::VersionSet;

/// The count after one record more; it is not known any more where it does not fit.
pub(super) fn one_more(count: Option<usize>) -> Option<usize>
    ensures { IfSome result (λ n. (m : ℕ) × (count ≡ Some m) × (n ≡ m + 1)) }
{
    match count {
        Some(n) => n.checked_add(1),
        None => None,
    }
}

/// Cuts this many first records from the vault's log, and returns the count of those that are left. It cuts none if their number is
/// not known. A refusal of the vault is not reported: it only leaves the log longer.
pub(super) fn cut_log<V: Vault>(
    versions: &mut VersionSet<V>,
    logged: Option<usize>,
    upto: Option<usize>,
) -> Option<usize>
    requires { IfSome logged (λ n. n ≡ length versions.old.stored.log) }
    ensures rest { versions.new ≡ record versions.old { stored = record versions.old.stored { log = versions.new.stored.log }; failures = versions.new.failures } }
    ensures cut { (versions.new.stored.log ≡ versions.old.stored.log) ⊎ ((n : ℕ) × (upto ≡ Some n) × (versions.new.stored.log ≡ drop n versions.old.stored.log)) }
    ensures left { IfSome result (λ n. n ≡ length versions.new.stored.log) }
    ensures failures { versions.old.failures ≤ versions.new.failures }
{
    let Some(count) = upto else {
        return logged;
    };
    match versions.cut_log(count) {
        Ok(()) => match logged {
            Some(n) => Some(n.saturating_sub(count)),
            None => None,
        },
        Err(_) => logged,
    }
}
