//! Shortening a schedule that has a wrong answer.

use crate::alphabet::{Alphabet, Choice};
use crate::play::Taken;
use crate::wrong::{Wrong, examine};
use lsm_key::Limits;
use std::alloc::{AllocError, Global};

/// The choices without the one at a place. Later messages get the numbers that they have without those that it sent, whose
/// deliveries are left out too.
pub(crate) fn without(
    alloc: Global,
    choices: &[Taken],
    at: usize,
) -> Result<Vec<Taken>, AllocError> {
    let mut rest = Vec::new(alloc);
    let from = choices.get(at).map_or(0, |taken| taken.sent);
    let to = choices
        .get(at.saturating_add(1))
        .map_or(from, |taken| taken.sent);
    for (i, taken) in choices.iter().enumerate() {
        if i == at {
            continue;
        }
        let choice = match taken.choice {
            Choice::Deliver(message) if message > to => {
                Choice::Deliver(message - to.saturating_sub(from))
            }
            Choice::Deliver(message) if message > from && i > at => continue,
            choice => choice,
        };
        rest.push(Taken {
            choice,
            sent: taken.sent,
        })?;
    }
    Ok(rest)
}

/// Leaves out what can be left out of a schedule with a wrong answer, one choice after another, from the last one back.
pub(crate) fn shorten(
    alloc: Global,
    limits: Limits,
    alphabet: Alphabet,
    wrong: Wrong,
) -> Result<Wrong, AllocError> {
    let mut shortest = wrong;
    let len = shortest.taken.len();
    // Each round but the last leaves out one choice or more.
    for _ in 0..len {
        let before = shortest.taken.len();
        shortest = shorten_once(alloc, limits, alphabet, shortest)?;
        if shortest.taken.len() >= before {
            break;
        }
    }
    Ok(shortest)
}

// One round over all choices.
fn shorten_once(
    alloc: Global,
    limits: Limits,
    alphabet: Alphabet,
    wrong: Wrong,
) -> Result<Wrong, AllocError> {
    let mut shortest = wrong;
    for at in (0..shortest.taken.len()).rev() {
        if at >= shortest.taken.len() {
            continue;
        }
        let rest = without(alloc, shortest.taken.as_slice(), at)?;
        if let Some(shorter) = examine(alloc, limits, alphabet, rest.as_slice())? {
            shortest = shorter;
        }
    }
    Ok(shortest)
}
