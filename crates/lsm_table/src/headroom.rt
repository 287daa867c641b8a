//! Bytes with room before them.

ghost use Rattle.std.specs.Prelude.{◌≡◌, ◌≤◌, ◌+◌, ◌++◌, [], length, IfOk, OnOk, OnErr};
ghost use Rattle.bytes.specs.Filled.{MakesSpare};

use bytes::{BufMut, Bytes, BytesMut};
use std::alloc::{AllocError, Global};
use std::marker::Model;

/// Bytes that grow at their end, and room before them: what fits into it is put in front of them without a copy of them (Linux,
/// `skb_reserve`: headroom).
///
/// Invariant: the room is a beginning of what is held.
#[derive(Drop)]
pub(crate) struct WithHeadroom {
    /// The room, and then the bytes.
    held: BytesMut,
    /// How many bytes the room has.
    room: usize,
}

impl Model for WithHeadroom {
    ghost use Rattle.std.specs.Prelude.{◌≤◌, drop, length};
    ghost use Rattle.bytes.specs.Filled.{Filled};

    ghost Value = { Filled };

    ghost view = { λ b. record { items = drop b.room b.held.items; spare = b.held.spare } };

    ghost invariant = { λ b. b.room ≤ length b.held.items };
}

impl WithHeadroom {
    /// No bytes, and no room.
    pub(crate) fn new(alloc: Global) -> WithHeadroom
        ensures items { result.items ≡ [] }
    {
        WithHeadroom {
            held: BytesMut::new(alloc),
            room: 0,
        }
    }

    /// How many bytes there are.
    pub(crate) fn len(&self) -> usize
        ensures value { result ≡ length self.now.items }
    {
        self.held.len() - self.room
    }

    /// The bytes.
    pub(crate) fn as_slice(&self) -> &[u8]
        ensures { result.now ≡ self.now.items }
    {
        &self.held.as_slice()[self.room..]
    }

    /// Leaves no bytes and no room. Keeps the memory.
    pub(crate) fn clear(&mut self)
        ensures items { self.new.items ≡ [] }
    {
        self.held.clear();
        self.room = 0;
    }

    /// Makes this room before no bytes, and takes memory for as many bytes as are expected after it.
    pub(crate) fn make_room(&mut self, room: usize, expected: usize) -> Result<(), AllocError>
        ensures items { self.new.items ≡ [] }
    {
        self.held.clear();
        self.room = 0;
        self.held.reserve(room.saturating_add(expected))?;
        self.held.advance_mut(room);
        self.room = room;
        Ok(())
    }

    /// Takes memory for more bytes. A refusal changes nothing.
    pub(crate) fn reserve(&mut self, additional: usize) -> Result<(), AllocError>
        ensures items { self.new.items ≡ self.old.items }
        ensures spare { MakesSpare result self.old.spare self.new.spare additional }
    {
        self.held.reserve(additional)
    }

    /// Appends bytes, for which there is memory.
    pub(crate) fn extend_reserved(&mut self, more: &[u8])
        requires { length more.now ≤ self.old.spare }
        ensures items { self.new.items ≡ self.old.items ++ more.now }
        ensures spare { self.new.spare + length more.now ≡ self.old.spare }
    {
        self.held.extend_reserved(more);
    }

    /// Takes the bytes out, behind a front. They are copied only if the front has more bytes than the room. A refusal leaves the bytes.
    pub(crate) fn take_behind(&mut self, alloc: Global, front: &[u8]) -> Result<Bytes, AllocError>
        ensures whole { IfOk result (λ whole. whole ≡ front.now ++ self.old.items) }
        ensures taken { OnOk result (self.new.items ≡ []) }
        ensures err { OnErr result (self.new.items ≡ self.old.items) }
    {
        if front.len() > self.room {
            return self.copy_behind(alloc, front);
        }
        let start = self.room - front.len();
        self.held.as_mut_slice()[start..self.room].copy_from_slice(front);
        self.held.advance(start);
        self.room = front.len();
        let whole = self.held.freeze_to(self.held.len())?;
        self.room = 0;
        Ok(whole)
    }

    // The same by a copy.
    fn copy_behind(&mut self, alloc: Global, front: &[u8]) -> Result<Bytes, AllocError>
        ensures whole { IfOk result (λ whole. whole ≡ front.now ++ self.old.items) }
        ensures taken { OnOk result (self.new.items ≡ []) }
        ensures err { OnErr result (self.new.items ≡ self.old.items) }
    {
        let len = front.len().saturating_add(self.len());
        let mut out = BytesMut::with_capacity(alloc, len)?;
        out.put_slice(front)?;
        out.put_slice(self.as_slice())?;
        let whole = out.freeze()?;
        self.clear();
        Ok(whole)
    }
}
