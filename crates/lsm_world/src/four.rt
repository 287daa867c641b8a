//! Four of a kind, by index from 1.

use lsm_msg::NodeIndex;
use std::marker::Model;
use std::mem;

/// Four values, numbered from 1 as workers and followers are.
#[derive(Debug, Drop)]
pub(crate) struct Four<T> {
    first: T,
    second: T,
    third: T,
    fourth: T,
}

impl<T> Model for Four<T> {
    ghost use Rattle.std.specs.Prelude.{List, [], ◌∷◌};

    ghost Value = { List T };

    ghost view = { λ f. f.first ∷ f.second ∷ f.third ∷ f.fourth ∷ [] };
}

impl<T> Four<T> {
    ghost use Rattle.std.specs.Prelude.{◌≡◌, ◌∷◌, [], Some};
    ghost use Rattle.lsm_world.specs.Nodes.{at_index, with_index};

    /// These four.
    pub(crate) fn new(first: T, second: T, third: T, fourth: T) -> Four<T>
        ensures { result ≡ first ∷ second ∷ third ∷ fourth ∷ [] }
    {
        Four {
            first,
            second,
            third,
            fourth,
        }
    }

    /// The one of an index.
    pub(crate) fn get(&self, index: NodeIndex) -> &T
        ensures { at_index self.now index ≡ Some result.now }
    {
        match index.number() {
            1 => &self.first,
            2 => &self.second,
            3 => &self.third,
            _ => &self.fourth,
        }
    }

    /// Puts another one in the place of an index, and hands over the one that was there.
    pub(crate) fn replace(&mut self, index: NodeIndex, with: T) -> T
        ensures before { at_index self.old index ≡ Some result }
        ensures after { self.new ≡ with_index self.old index with }
    {
        match index.number() {
            1 => mem::replace(&mut self.first, with),
            2 => mem::replace(&mut self.second, with),
            3 => mem::replace(&mut self.third, with),
            _ => mem::replace(&mut self.fourth, with),
        }
    }
}
