//! Schedules by chance, for more events than can be exhausted.

use crate::alphabet::Choice;
use crate::play::{Halt, Play};
use lsm_vault::MemoryVault;
use lsm_world::World;
use rand_core::{Rng, SeedableRng};
use rand_xoshiro::Xoshiro256PlusPlus;

/// Up to this many events every schedule is run.
pub const MAX_EXHAUSTED: u32 = 9;

/// How many schedules by chance are run of each alphabet.
pub(crate) const RANDOM_SCHEDULES: u64 = 10_000;

/// Three of four deliveries by chance are of one of the last messages, of which this is the number.
const RECENT: u64 = 6;

/// The generator of a schedule.
pub(crate) fn generator(seed: u64) -> Xoshiro256PlusPlus {
    Xoshiro256PlusPlus::seed_from_u64(seed)
}

impl Play {
    // A choice by chance: a delivery or not, each as often; of the deliveries mostly one of the last messages.
    fn any_choice(&self, rng: &mut Xoshiro256PlusPlus) -> Choice {
        let others = self.others();
        let deliveries = self.choices().saturating_sub(others);
        let is_delivery = rng.next_u64() % 2 == 0;
        if deliveries == 0 || (!is_delivery && others > 0) {
            return self.choice(below(rng, others));
        }
        let among = if rng.next_u64() % 4 == 0 {
            deliveries
        } else {
            deliveries.min(RECENT)
        };
        let back = below(rng, among).saturating_add(1);
        self.choice(others.saturating_add(deliveries.saturating_sub(back)))
    }

    /// Runs a schedule of this many events by chance, and probes the nodes after each.
    pub(crate) fn wander(
        &mut self,
        world: &mut World<MemoryVault>,
        rng: &mut Xoshiro256PlusPlus,
        events: u32,
    ) -> Result<(), Halt> {
        self.unlimited();
        self.set_up(world)?;
        for _ in 0..events {
            let choice = self.any_choice(rng);
            self.take(world, choice, true)?;
        }
        Ok(())
    }
}

// A number below a limit, or 0 if that is 0.
fn below(rng: &mut Xoshiro256PlusPlus, limit: u64) -> u64 {
    if limit == 0 {
        0
    } else {
        rng.next_u64() % limit
    }
}
