//! The options that set the limits of a store.

ghost use Rattle.std.specs.Prelude.{◌≡◌, ◌↔◌, IfSome, IsSome, unwrap_or};
ghost use Rattle.lsm_key.specs.Limits.{AreLimits};
ghost use Rattle.lsm_key.specs.declared.limits.TheConstants.{DEFAULT_L0, DEFAULT_BASE, DEFAULT_BLOCK};

use clap::{Arg, ArgMatches, value_parser};
use lsm_key::{DEFAULT_BASE, DEFAULT_BLOCK, DEFAULT_L0, Limits};
use std::alloc::Global;

// The texts of the defaults are tested with the rest of the help: a text can't be made of a constant.
const L0_HELP: &str = "Level 0 is due from this many files on, 1 to 1000 [default: 4]";

const BASE_HELP: &str =
    "Level 1 is due past this many bytes, 1 to 1000000000000; each deeper level holds ten times as many [default: 10485760]";

const BLOCK_HELP: &str =
    "A block of a table is closed once it has this many bytes, 1 to 16777216 [default: 4096]";

/// The files of level 0 from which on it is due.
pub fn l0<'a>(alloc: Global) -> Arg<'a> {
    Arg::new(alloc, "l0")
        .long("l0")
        .value_name("N")
        .help(L0_HELP)
        .value_parser(value_parser!(u64).range(1..=1000))
}

/// The bytes of level 1 past which it is due.
pub fn base<'a>(alloc: Global) -> Arg<'a> {
    Arg::new(alloc, "base")
        .long("base")
        .value_name("N")
        .help(BASE_HELP)
        .value_parser(value_parser!(u64).range(1..=1_000_000_000_000))
}

/// The bytes from which on a block of a table is closed.
pub fn block<'a>(alloc: Global) -> Arg<'a> {
    Arg::new(alloc, "block")
        .long("block")
        .value_name("N")
        .help(BLOCK_HELP)
        .value_parser(value_parser!(u64).range(1..=16_777_216))
}

/// The limits of these numbers, each its default if it is not given, or `None` if one is outside its range.
pub fn limits_from(l0: Option<u64>, base: Option<u64>, block: Option<u64>) -> Option<Limits>
    ensures within { IsSome result ↔ AreLimits (unwrap_or l0 DEFAULT_L0) (unwrap_or base DEFAULT_BASE) (unwrap_or block DEFAULT_BLOCK) }
    ensures l0 { IfSome result (λ limits. limits.l0 ≡ unwrap_or l0 DEFAULT_L0) }
    ensures base { IfSome result (λ limits. limits.base ≡ unwrap_or base DEFAULT_BASE) }
    ensures block { IfSome result (λ limits. limits.block ≡ unwrap_or block DEFAULT_BLOCK) }
{
    match u32::try_from(block.unwrap_or(u64::from(DEFAULT_BLOCK))) {
        Ok(block) => Limits::new(
            l0.unwrap_or(DEFAULT_L0),
            base.unwrap_or(DEFAULT_BASE),
            block,
        ),
        Err(_) => None,
    }
}

/// The limits that the options of a subcommand ask for.
pub fn limits_in(options: &ArgMatches<'_>) -> Option<Limits> {
    limits_from(
        options.get_one("l0"),
        options.get_one("base"),
        options.get_one("block"),
    )
}
