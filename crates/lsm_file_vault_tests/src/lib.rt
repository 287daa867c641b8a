//! Tests of `lsm_file_vault` by its public calls, of what no program shows: tables that are put again, put empty and removed, a log that
//! is appended to, synced and cut, and the texts of calls. Damage, failing calls, stops, the layout of files and the texts of refusals
//! are tried on the program (`tests/crash`).
//!
//! They are a crate of their own, so that `lsm_file_vault` is proved once. It has no code beside them.
#![tactic(auto)]

#[cfg(test)]
mod tests;
