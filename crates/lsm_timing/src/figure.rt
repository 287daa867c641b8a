//! Figures: how long something took, and a checksum of its results, by which two runs can be compared.

use crate::bench::Bench;
use std::io;
use std::time::Duration;

/// A figure that is being taken.
#[derive(Clone, Copy)]
pub(crate) struct Figure {
    name: &'static str,
    start: Duration,
}

impl Figure {
    /// Starts the clock.
    pub(crate) fn begin(bench: Bench, name: &'static str) -> io::Result<Figure> {
        let start = bench.now()?;
        Ok(Figure { name, start })
    }

    /// Stops the clock, and prints the figure: for `count` of them, with a checksum of their results.
    pub(crate) fn end(self, bench: Bench, count: u64, checksum: u64) -> io::Result<()> {
        let nanoseconds = bench.now()?.saturating_sub(self.start).as_nanos();
        tell(bench, self.name, count, checksum, nanoseconds)
    }
}

/// Prints a figure: how many nanoseconds or bytes, for `count` of them, with a checksum of their results.
pub(crate) fn tell(
    bench: Bench,
    name: &'static str,
    count: u64,
    checksum: u64,
    amount: u128,
) -> io::Result<()> {
    println!(bench.rt; "{name} {count} {checksum}")?;
    eprintln!(bench.rt; "{name} {count} {amount}")
}

/// A checksum with some more bytes in it: their length and their ends, so that it costs no pass over them.
pub(crate) fn with_bytes(checksum: u64, bytes: &[u8]) -> u64 {
    let ends = match bytes {
        [] => 0,
        [only] => *only as u64,
        [first, .., last] => *first as u64 * 256 + *last as u64,
    };
    with_number(with_number(checksum, bytes.len() as u64), ends)
}

/// A checksum with one more number in it.
pub(crate) fn with_number(checksum: u64, number: u64) -> u64 {
    checksum.wrapping_mul(31).wrapping_add(number)
}
