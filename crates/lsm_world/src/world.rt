//! The world: the nodes of a store, under one schedule.

ghost use Rattle.std.specs.Prelude.{◌≡◌, ◌⊎◌, ◌+◌, ◌≤◌, ◌++◌, ◌∷◌, [], All, IfErr, IfOk, OnErr, length, sum_by};
ghost use Rattle.std.specs.List.{zip};
ghost use Rattle.lsm_edit.specs.Edits.{RemovedOnce};
ghost use Rattle.lsm_vault.specs.Stored.{empty_vault};
ghost use Rattle.lsm_versions.specs.declared.error.OpenError.TheVariants.{Device, OutOfMemory};
ghost use Rattle.lsm_versions.specs.Manifest.{read_edits};
ghost use Rattle.lsm_versions.specs.Opening.{CountsRefusal};
ghost use Rattle.lsm_world.specs.Asks.Store.{AsksIfTaken};
ghost use Rattle.lsm_world.specs.Events.{event_of};
ghost use Rattle.lsm_world.specs.Headline.{FollowerReadsAreNewest, GiveOneAnswer, ReadsAreNewest, ScansAreNewest, ShowOneListing};
ghost use Rattle.lsm_world.specs.Memory.{IsNotShort};
ghost use Rattle.lsm_world.specs.Replies.{reply_of};
ghost use Rattle.lsm_world.specs.Schedules.{AskedAll, IsNew, IsPlain, IsTaken, IsTraced, IsWorld, RunsTo, device_failures, model_steps};
ghost use Rattle.lsm_world.specs.Shown.{FollowsStore};

use crate::event::Event;
use crate::nodes::Nodes;
use crate::refusal::Refusal;
use crate::reply::Reply;
use crate::store::{Store, answer};
use lsm_coord::Coord;
use lsm_key::Limits;
use lsm_vault::Vault;
use lsm_versions::OpenError;
use std::alloc::{AllocError, Global};
use std::marker::Model;

/// A store with its coordinator, four dispatchers, four workers and four followers, and a network that may lose, repeat, reorder
/// and delay what they send. Messages are numbered from 1 and stay, so that each may be delivered whenever, and as often as, the
/// schedule says. It is a model of the network, not a node: it keeps the bytes of every message. It is not `Drop`: `close`
/// ends it.
///
/// Invariant: the store is there, and the events that were taken led from a new store, with some replies, to a state of
/// the model that it shows.
pub struct World<V: Vault> {
    alloc: Global,
    // It is `Some` between calls.
    store: Option<Store<V>>,
    trace: Vec<Event>,
}

impl<V: Vault> Model for World<V> {
    ghost use Rattle.std.specs.Prelude.{IsSome};
    ghost use Rattle.std.specs.Coded.{codes};
    ghost use Rattle.lsm_vault.specs.Stored.{vault_code};
    ghost use Rattle.lsm_world.specs.Inner.Storing.{store_in};
    ghost use Rattle.lsm_world.specs.Schedules.{IsReached, WorldValue};

    ghost Value = { WorldValue };

    ghost coded = { Prim.hlevel (codes, vault_code) };

    ghost view = { λ w. record { nodes = store_in w.store; trace = w.trace.items } };

    ghost invariant = { λ w. IsSome w.store × IsReached (record { nodes = store_in w.store; trace = w.trace.items }) };
}

impl<V: Vault> World<V> {
    /// The nodes of a new store, over a vault that has nothing yet: no edit, no table and no record of a log. It is refused only if
    /// memory runs out or the device fails, and then the vault, which still has nothing, is handed back.
    pub fn new(alloc: Global, vault: V, limits: Limits) -> Result<World<V>, (OpenError, V)>
        requires { V.stored vault ≡ empty_vault }
        ensures new { IfOk result (IsNew limits) }
        ensures failures { IfOk result (λ w. V.failures vault ≤ w.nodes.seat.failures) }
        ensures refused { IfErr result (λ e. (e.0 ≡ OutOfMemory) ⊎ (e.0 ≡ Device)) }
        ensures left { IfErr result (λ e. V.stored e.1 ≡ empty_vault) }
        ensures counted { IfErr result (λ e. CountsRefusal e.0 (V.failures vault) (V.failures e.1)) }
    {
        match Coord::open(alloc, vault, limits) {
            Ok(coord) => Ok(World {
                alloc,
                store: Some(Store::Up(Nodes::new(alloc, coord))),
                trace: Vec::new(alloc),
            }),
            Err((why, vault)) => Err((why, vault)),
        }
    }

    /// Lets one event happen. If there is no memory for its place in the trace, it is not taken (`Refusal::NotTaken`), and
    /// nothing happens; otherwise it is in the trace, also if it is refused.
    pub fn step(&mut self, event: Event) -> Reply
        // One node is asked, and the reply is its answer. None is asked if the event is not taken.
        ensures asks { AsksIfTaken self.old.nodes event result self.new.nodes }
        // From each state that is shown before, the event and its reply are a step to one that is shown after.
        ensures step { FollowsStore self.old.nodes (event_of event) (reply_of result) self.new.nodes }
        // The event is the last of the trace, unless it is not taken.
        ensures trace { IsTaken self.old event result self.new }
        // Some refusals never come.
        ensures plain { IsPlain result }
        // The vault counts a failure more where its device is said to have failed, and never fewer.
        ensures counted { device_failures result + self.old.nodes.seat.failures ≤ self.new.nodes.seat.failures }
        // An event that takes no memory but for its place in the trace is not refused for want of it once it is taken.
        ensures memory { IsNotShort event result }
    {
        match self.trace.reserve(1) {
            Err(_) => return Reply::Refused(Refusal::NotTaken),
            Ok(()) => {}
        }
        let reply = answer(&mut self.store, self.alloc, &event);
        self.trace.push_reserved(event);
        reply
    }

    // The same of an event that is lent.
    fn step_of(&mut self, event: &Event) -> Reply
        ensures asks { AsksIfTaken self.old.nodes event.now result self.new.nodes }
        ensures step { FollowsStore self.old.nodes (event_of event.now) (reply_of result) self.new.nodes }
        ensures trace { IsTaken self.old event.now result self.new }
        ensures plain { IsPlain result }
        ensures counted { device_failures result + self.old.nodes.seat.failures ≤ self.new.nodes.seat.failures }
    {
        match event.copy(self.alloc) {
            Err(_) => Reply::Refused(Refusal::NotTaken),
            Ok(event) => self.step(event),
        }
    }

    /// Lets events happen, in order, and returns the reply to each. Memory for the replies is taken before the first event; if
    /// there is none, nothing happens.
    ///
    /// Whatever the events are, on a new world:
    /// Each get at the coordinator gives the newest accepted write of its key, no later than its point (`reads`), and each scan
    /// gives the first keys of its range that have a value, each with that value (`scans`).
    /// Each read at a follower gives the newest accepted write of its key, no later than the flushed sequence of the follower's
    /// version (`follower_reads`).
    /// Nodes that show one version number show one listing, and followers at one version give one answer (`one_listing`,
    /// `one_answer`).
    /// No file is merged twice: none is removed by two of the vault's edits (`world`).
    /// No manifest and no log is found bad, no table is missing, no result is refused as of another job or as none of its job
    /// (`plain`), and a device is said to have failed only where the vault counted a failure (`counted`).
    pub fn run(&mut self, events: &[Event]) -> Result<Vec<Reply>, AllocError>
        // As many replies as events, so that `zip` puts each event beside its reply.
        ensures each { IfOk result (λ replies. length replies.items ≡ length events.now) }
        ensures asks { IfOk result (λ replies. AskedAll self.old.nodes (zip events.now replies.items) self.new.nodes) }
        ensures run { IfOk result (λ replies. RunsTo self.old.nodes (zip events.now replies.items) self.new.nodes) }
        ensures trace { IfOk result (λ replies. IsTraced self.old.trace (zip events.now replies.items) self.new.trace) }
        ensures plain { IfOk result (λ replies. All IsPlain replies.items) }
        ensures counted { IfOk result (λ replies. sum_by device_failures replies.items + self.old.nodes.seat.failures ≤ self.new.nodes.seat.failures) }
        ensures err { OnErr result (self.new ≡ self.old) }
        // Whatever happened, what every world is.
        ensures world { IsWorld self.new }
        // The headline, of a new world: what the replies say, whatever the events were.
        ensures reads { IfOk result (λ replies. (due : Limits) → IsNew due self.old → ReadsAreNewest (model_steps (zip events.now replies.items))) }
        ensures scans { IfOk result (λ replies. (due : Limits) → IsNew due self.old → ScansAreNewest (model_steps (zip events.now replies.items))) }
        ensures follower_reads { IfOk result (λ replies. (due : Limits) → IsNew due self.old → FollowerReadsAreNewest (model_steps (zip events.now replies.items))) }
        ensures one_listing { IfOk result (λ replies. (due : Limits) → IsNew due self.old → ShowOneListing (model_steps (zip events.now replies.items))) }
        ensures one_answer { IfOk result (λ replies. (due : Limits) → IsNew due self.old → GiveOneAnswer (model_steps (zip events.now replies.items))) }
    {
        self.known();
        let mut replies = Vec::with_capacity(self.alloc, events.len())?;
        for event in events {
            let reply = self.step_of(event);
            replies.push_reserved(reply);
        }
        self.known();
        Ok(replies)
    }

    /// The events that were taken, in order, refused ones too. The clause `world` says what holds of every world.
    pub fn trace(&self) -> &[Event]
        ensures trace { result.now ≡ self.now.trace }
        ensures world { IsWorld self.now }
    {
        self.known();
        self.trace.as_slice()
    }

    // Proof hint: the world's invariant.
    fn known(&self)
        ensures { IsWorld self.now }
    {
        match &self.store {
            Some(store) => store.known(),
            None => unreachable!(),
        }
    }

    /// Ends it, and hands over the vault. Each claim that a dispatcher holds is given back.
    pub fn close(self) -> V
        ensures vault { V.stored result ≡ self.nodes.seat.stored }
        ensures failures { V.failures result ≡ self.nodes.seat.failures }
        // No file was merged twice.
        ensures once { RemovedOnce (read_edits (V.stored result).edits) }
    {
        self.known();
        let World {
            alloc: _,
            store,
            trace: _,
        } = self;
        let Some(store) = store else { unreachable!() };
        store.close()
    }
}
