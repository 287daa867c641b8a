//! Numbers of files and of versions: types of their own, so that neither is taken for the other.

use std::marker::Model;

/// The number of a file, which no other file ever has.
///
/// Invariant: it is less than 2^64.
#[derive(Clone, Copy, Debug, PartialEq, Eq, PartialOrd, Ord)]
pub struct FileNumber {
    number: u64,
}

impl Model for FileNumber {
    ghost use Rattle.std.specs.Prelude.{ℕ, ◌<◌, ◌^◌};

    ghost Value = { ℕ };

    ghost view = { λ n. n.number };

    ghost invariant = { λ n. n.number < 2 ^ 64 };

    ghost inverse = { λ n. record { number = n } };
}

impl FileNumber {
    ghost use Rattle.std.specs.Prelude.{◌≡◌};

    /// The number of a file.
    pub fn new(number: u64) -> FileNumber
        ensures { result ≡ number }
    {
        FileNumber { number }
    }

    /// As an integer.
    pub fn number(self) -> u64
        ensures { result ≡ self }
    {
        self.number
    }
}

/// The number of a version.
///
/// Invariant: it is less than 2^64.
#[derive(Clone, Copy, Debug, PartialEq, Eq, PartialOrd, Ord)]
pub struct VersionNumber {
    number: u64,
}

impl Model for VersionNumber {
    ghost use Rattle.std.specs.Prelude.{ℕ, ◌<◌, ◌^◌};

    ghost Value = { ℕ };

    ghost view = { λ n. n.number };

    ghost invariant = { λ n. n.number < 2 ^ 64 };

    ghost inverse = { λ n. record { number = n } };
}

impl VersionNumber {
    ghost use Rattle.std.specs.Prelude.{◌≡◌};

    /// The number of a version.
    pub fn new(number: u64) -> VersionNumber
        ensures { result ≡ number }
    {
        VersionNumber { number }
    }

    /// As an integer.
    pub fn number(self) -> u64
        ensures { result ≡ self }
    {
        self.number
    }
}
