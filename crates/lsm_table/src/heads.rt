//! The entries of several sources, in one order.

ghost use Rattle.std.specs.Prelude.{◌≡◌, ◌∷◌, ◌++◌, [], false, ℕ, ◌<◌, IfOk, IfSome, IsFalse, IsOk, List, OnOk, option_copied};
ghost use Rattle.std.specs.List.{insert};
ghost use Rattle.std.specs.Vec.{vec_capacity, vec_len};
ghost use Rattle.lsm_key.specs.declared.entry.Entry.{Entry};
ghost use Rattle.lsm_key.specs.Places.{all_entries};
ghost use Rattle.lsm_key.specs.Sets.{IsIn};
ghost use Rattle.lsm_key.specs.Order.{precedes};
ghost use Rattle.lsm_table.specs.Heads.{AdvancesHeads, AllInOrder, PutInOrder, AreTurned, first_of, lists_ahead};

use crate::head::Head;
use std::alloc::{AllocError, Global};
use std::marker::Model;

/// Several sources, each read up to its next entry. They stand from the last in order to the first.
///
/// Invariant: no head's entry comes before that of a head behind it, so the next entry of all is the last head's.
#[derive(Drop)]
pub struct Heads<H: Head> {
    heads: Vec<H>,
}

impl<H: Head> Model for Heads<H> {
    ghost use Rattle.std.specs.Prelude.{List};
    ghost use Rattle.lsm_table.specs.Heads.{AreTurned};

    ghost Value = { List H };

    ghost view = { λ h. h.heads.items };

    ghost invariant = { λ h. AreTurned H.entry h.heads.items };
}

impl<H: Head> Heads<H> {
    /// Puts heads in order.
    pub fn new(alloc: Global, heads: Vec<H>) -> Result<Heads<H>, AllocError>
        ensures { IfOk result (λ placed. PutInOrder H.entry H.left heads.items placed) }
    {
        let mut placed = Vec::with_capacity(alloc, heads.len())?;
        for head in heads {
            put_head(&mut placed, head)?;
        }
        Ok(Heads { heads: placed })
    }

    /// The head whose entry is the next of all.
    pub fn first(&self) -> Option<&H>
        ensures first { option_copied result ≡ first_of self.now }
        ensures least { IfSome result (λ h. AllInOrder (lists_ahead H.entry H.left self.now) → (e : Entry) → IsIn e (all_entries (lists_ahead H.entry H.left self.now)) → precedes e (H.entry h.now) ≡ false) }
    {
        self.heads.last()
    }

    /// Goes on to the entry after the next one of all. Allocates nothing.
    pub fn advance(&mut self)
        ensures { AdvancesHeads H.entry H.left self.old (first_of self.old) self.new }
    {
        advance_last(&mut self.heads);
    }
}

// Lets the last head go on.
fn advance_last<H: Head>(heads: &mut Vec<H>)
    requires { AreTurned H.entry heads.old.items }
    ensures turned { AreTurned H.entry heads.new.items }
    ensures advances { AdvancesHeads H.entry H.left heads.old.items (first_of heads.old.items) heads.new.items }
{
    let Some(first) = heads.last_mut() else {
        return;
    };
    if !first.advance() {
        heads.pop();
        return;
    }
    if !is_overtaken(heads.as_slice()) {
        return;
    }
    let Some(head) = heads.pop() else {
        return;
    };
    match put_head(heads, head) {
        Ok(()) => {}
        Err(_) => unreachable!(),
    }
}

// Whether the last head but one comes before the last.
fn is_overtaken<H: Head>(heads: &[H]) -> bool
    ensures { IsFalse result → (last : H) (others : List H) → heads.now ≡ others ++ last ∷ [] → AreTurned H.entry others → AreTurned H.entry heads.now }
{
    let count = heads.len();
    count > 1 && heads[count - 2].precedes(&heads[count - 1])
}

// Puts a head in its place. If there is room, no memory is taken.
fn put_head<H: Head>(heads: &mut Vec<H>, head: H) -> Result<(), AllocError>
    requires { AreTurned H.entry heads.old.items }
    ensures put { OnOk result ((place : ℕ) × (heads.new.items ≡ insert heads.old.items place head) × AreTurned H.entry heads.new.items) }
    ensures room { vec_len heads.old < vec_capacity heads.old → IsOk result }
{
    let place = heads.partition_point(|other| head.precedes(other));
    Ok(heads.insert(place, head)?)
}
