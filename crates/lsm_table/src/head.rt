//! What a merge of several sources asks of each.

ghost use Rattle.std.specs.Prelude.{◌≡◌};
ghost use Rattle.lsm_key.specs.Order.{precedes};
ghost use Rattle.lsm_table.specs.Heads.{IsRefilled};

/// A source of entries in order, read up to its next entry.
pub trait Head: Drop {
    ghost use Rattle.std.specs.Prelude.{List};
    ghost use Rattle.lsm_key.specs.declared.entry.Entry.{Entry};

    /// The next entry.
    ghost entry: { Self → Entry };

    /// Those that the source has left behind it.
    ghost left: { Self → List Entry };

    /// Puts the source's next entry in place of the entry, if there is one. Allocates nothing.
    fn advance(&mut self) -> bool
        ensures { IsRefilled (left self.old) result (entry self.new) (left self.new) };

    /// Whether its entry comes before another one's, by key and sequence.
    fn precedes(&self, other: &Self) -> bool
        ensures { result ≡ precedes (entry self.now) (entry other.now) };
}
