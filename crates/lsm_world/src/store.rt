//! The nodes of a store, whether its coordinator is up or down.

ghost use Rattle.std.specs.Prelude.{◌≡◌, ◌+◌, ◌≤◌, IsSome, None, Some};
ghost use Rattle.lsm_coord.specs.Contract.Restarts.{seat_of};
ghost use Rattle.lsm_coord.specs.Model.State.{State};
ghost use Rattle.lsm_world.specs.declared.event.Event.TheVariants.{RestartCoordinator};
ghost use Rattle.lsm_world.specs.Asks.Store.{AsksStore, restart_answer, restarted_as};
ghost use Rattle.lsm_world.specs.Events.{event_of};
ghost use Rattle.lsm_world.specs.History.{History, IsStoreHistory};
ghost use Rattle.lsm_world.specs.Inner.Storing.{IsIdleWhileDown, store_in, store_of};
ghost use Rattle.lsm_world.specs.Memory.{IsNotShort};
ghost use Rattle.lsm_world.specs.Nodes.{store_with};
ghost use Rattle.lsm_world.specs.Replies.{reply_of};
ghost use Rattle.lsm_world.specs.Schedules.{IsPlain, device_failures};
ghost use Rattle.lsm_world.specs.Shown.{FollowsStore, ShowsStore};

use crate::coordinator;
use crate::event::Event;
use crate::network::Network;
use crate::nodes::Nodes;
use crate::refusal::Refusal;
use crate::reply::Reply;
use crate::stopped::Stopped;
use lsm_coord::{Desk, Seat};
use lsm_vault::Vault;
use lsm_versions::OpenError;
use std::alloc::Global;
use std::mem;

/// The nodes of a store.
pub(crate) enum Store<V: Vault> {
    /// The coordinator is up.
    Up(Nodes<V>),
    /// It is down, since an opening was refused.
    Down(Stopped<V>),
}

impl<V: Vault> Store<V> {
    ghost use Rattle.std.specs.Prelude.{◌≡◌, ◌+◌, ◌≤◌};
    ghost use Rattle.lsm_coord.specs.Contract.Restarts.{seat_of};
    ghost use Rattle.lsm_coord.specs.Model.State.{State};
    ghost use Rattle.lsm_world.specs.declared.event.Event.TheVariants.{RestartCoordinator};
    ghost use Rattle.lsm_world.specs.Asks.Store.{AsksStore};
    ghost use Rattle.lsm_world.specs.Events.{event_of};
    ghost use Rattle.lsm_world.specs.History.{History, IsDownHistory};
    ghost use Rattle.lsm_world.specs.Inner.Storing.{IsFitWhileUp, store_of};
    ghost use Rattle.lsm_world.specs.Replies.{reply_of};
    ghost use Rattle.lsm_world.specs.Schedules.{IsFitBy, IsPlain, device_failures};
    ghost use Rattle.lsm_world.specs.Shown.{FollowsStore, ShowsStore};

    // Opens the coordinator over what its vault has.
    fn restart(self, alloc: Global) -> (Store<V>, Reply)
        requires { (s : State) × ShowsStore (store_of self) s }
        ensures asks { AsksStore (store_of self) RestartCoordinator result.1 (store_of result.0) }
        ensures follows { FollowsStore (store_of self) (event_of RestartCoordinator) (reply_of result.1) (store_of result.0) }
        ensures plain { IsPlain result.1 }
        ensures counted { device_failures result.1 + (store_of self).seat.failures ≤ (store_of result.0).seat.failures }
    {
        let (seat, desk, network) = self.parts();
        let (seat, opened) = seat.restart(alloc);
        let reply = restarted(&seat, opened);
        let store = seated(alloc, seat, desk, network);
        (store, reply)
    }

    // The seat, and what goes on without a coordinator.
    fn parts(self) -> (Seat<V>, Desk, Network)
        ensures seat { seat_of V.stored V.failures result.0 ≡ (store_of self).seat }
        ensures desk { result.1 ≡ (store_of self).desk }
        ensures network { result.2 ≡ (store_of self).network }
        ensures history { (h : History) × IsDownHistory h (store_of self).seat.stored (store_of self).desk (store_of self).network }
        ensures fit { IsFitWhileUp (store_of self).seat.core }
    {
        match self {
            Store::Up(nodes) => {
                let (coord, desk, network) = nodes.parts();
                (Seat::Up(coord), desk, network)
            }
            Store::Down(stopped) => stopped.parts(),
        }
    }

    /// Proof hint: the nodes' invariant.
    pub(crate) fn known(&self)
        requires { (s : State) × ShowsStore (store_of self.now) s }
        ensures fit { IsFitBy (store_of self.now).seat.core (store_of self.now).seat }
    {
        match self {
            Store::Up(nodes) => nodes.known(),
            Store::Down(stopped) => stopped.known(),
        }
    }

    /// Gives back each claim that a dispatcher holds, and hands over the vault.
    pub(crate) fn close(self) -> V
        ensures vault { V.stored result ≡ (store_of self).seat.stored }
        ensures failures { V.failures result ≡ (store_of self).seat.failures }
    {
        let (seat, desk, network) = self.parts();
        drop(network);
        let mut seat = seat;
        desk.close(&mut seat);
        seat.close()
    }
}

/// Lets one node of the store in its place answer an event.
pub(crate) fn answer<V: Vault>(place: &mut Option<Store<V>>, alloc: Global, event: &Event) -> Reply
    requires some { IsSome place.old }
    requires shown { (s : State) × ShowsStore (store_in place.old) s }
    ensures some { IsSome place.new }
    ensures asks { AsksStore (store_in place.old) event.now result (store_in place.new) }
    ensures follows { FollowsStore (store_in place.old) (event_of event.now) (reply_of result) (store_in place.new) }
    ensures plain { IsPlain result }
    ensures counted { device_failures result + (store_in place.old).seat.failures ≤ (store_in place.new).seat.failures }
    ensures memory { IsNotShort event.now result }
{
    match event {
        Event::RestartCoordinator => {
            let Some(store) = place.take() else {
                unreachable!()
            };
            let (store, reply) = store.restart(alloc);
            put(place, store);
            reply
        }
        _ => match place {
            Some(Store::Up(nodes)) => nodes.answer(event),
            Some(Store::Down(stopped)) => stopped.answer(event),
            None => unreachable!(),
        },
    }
}

// Puts a store into its place.
fn put<V: Vault>(place: &mut Option<Store<V>>, store: Store<V>)
    requires { place.old ≡ None }
    ensures { place.new ≡ Some store }
{
    match mem::replace(place, Some(store)) {
        None => {}
        Some(_before) => unreachable!(),
    }
}

// A store with this seat.
fn seated<V: Vault>(alloc: Global, seat: Seat<V>, desk: Desk, network: Network) -> Store<V>
    requires idle { IsIdleWhileDown (seat_of V.stored V.failures seat).core (seat_of V.stored V.failures seat).book }
    requires history { (h : History) × IsStoreHistory h (store_with (seat_of V.stored V.failures seat) desk network) }
    ensures { store_of result ≡ store_with (seat_of V.stored V.failures seat) desk network }
{
    match seat {
        Seat::Up(coord) => Store::Up(Nodes::of(alloc, coord, desk, network)),
        Seat::Down(vault, book, limits) => Store::Down(Stopped::of(
            alloc, vault, book, limits, desk, network,
        )),
    }
}

// The reply to an opening.
fn restarted<V: Vault>(seat: &Seat<V>, opened: Result<(), OpenError>) -> Reply
    ensures { result ≡ restart_answer opened (seat_of V.stored V.failures seat.now).core }
{
    match opened {
        Err(why) => Reply::Refused(Refusal::Open(why)),
        Ok(()) => restarted_seat(seat),
    }
}

// The reply to an opening that succeeded.
fn restarted_seat<V: Vault>(seat: &Seat<V>) -> Reply
    ensures { result ≡ restarted_as (seat_of V.stored V.failures seat.now).core }
{
    match seat {
        Seat::Up(coord) => coordinator::restarted(coord),
        Seat::Down(_, _, _) => Reply::Ignored,
    }
}
