//! The command `import`: the pairs of lines, in batches.

use crate::opening::FolderStore;
use crate::session::console::{NextLine, read_line};
use crate::session::request::{FaultyLine, LineFault};
use crate::{CommandError, Screen};
use lsm_io::write_out;
use lsm_key::{Batch, KeyError, MAX_BATCH_OPS, Op, Refused};
use lsm_line::{Call, Words, put, write_line_end, write_number, write_text};
use lsm_options::REFUSED;
use lsm_store::{Store, StoreError};
use lsm_vault::Vault;
use std::alloc::Global;
use std::fmt;
use std::io::{BufRead, BufReader, Write};
use std::process::ExitCode;

/// How much is read at once. In bytes.
const BUFFER_BYTES: usize = 65_536;

/// A batch that weighs as much is written: another pair may not fit, which weighs some 70,000 bytes at most.
const FULL_WEIGHT: usize = 3_900_000;

/// What an import has done.
#[derive(Clone, Copy)]
struct Imported {
    /// How many pairs of its lines are in the store.
    pairs: u64,
    /// The line at which it ended, if it did so before its input.
    faulty: Option<FaultyLine>,
}

impl fmt::Display for Imported {
    fn fmt<W: fmt::Write>(&self, f: &mut fmt::Formatter<W>) -> fmt::Result {
        write!(
            f,
            "pairs of the lines before it that are in the store: {}",
            self.pairs
        )
    }
}

/// Puts the pairs of the lines of standard input, syncs them once at their end, and writes how many they are. At a line that is no
/// put it ends, and reports the line and how many pairs of the lines before it are in the store.
pub(crate) fn import<W: Write>(
    rt: &HostRuntime,
    store: &mut FolderStore,
    screen: &Screen<'_>,
    writer: &mut W,
) -> Result<ExitCode, CommandError> {
    let alloc = rt.alloc();
    let Ok(reader) = BufReader::with_capacity(alloc, BUFFER_BYTES, rt.reader()) else {
        return Err(CommandError::OutOfMemory);
    };
    let mut reader = reader;
    let imported = import_lines(alloc, store, &mut reader)?;
    if let Some(faulty) = imported.faulty {
        screen.report(&faulty);
        screen.report(&imported);
        return Ok(ExitCode::from(REFUSED));
    }
    let mut out = Vec::new(alloc);
    write_text(&mut out, "pairs ")?;
    write_number(&mut out, imported.pairs)?;
    write_line_end(&mut out)?;
    write_out(writer, &mut out)?;
    Ok(ExitCode::SUCCESS)
}

// Puts the pairs of lines, up to one that is faulty, and syncs them.
fn import_lines<V: Vault, R: BufRead>(
    alloc: Global,
    store: &mut Store<V>,
    reader: &mut R,
) -> Result<Imported, CommandError> {
    let mut pending = Pending::new(alloc);
    let mut line = Vec::new(alloc);
    pending.take_lines(store, reader, &mut line)
}

// What came of a line.
#[derive(Clone, Copy)]
enum Taken {
    Line,
    End,
    Faulty(LineFault),
}

// The pairs that are not in the store yet, and how many there were.
#[derive(Drop)]
struct Pending {
    alloc: Global,
    batch: Batch,
    // With those of the batch.
    pairs: u64,
}

impl Pending {
    fn new(alloc: Global) -> Pending {
        Pending {
            alloc,
            batch: Batch::new(alloc),
            pairs: 0,
        }
    }

    // Takes lines, up to one that is faulty, and syncs their pairs. What is dear to drop is lent here, so that no refusal drops it.
    fn take_lines<V: Vault, R: BufRead>(
        &mut self,
        store: &mut Store<V>,
        reader: &mut R,
        line: &mut Vec<u8>,
    ) -> Result<Imported, CommandError> {
        let mut faulty = None;
        for number in 1..u64::MAX {
            match self.take_line(store, reader, line)? {
                Taken::Line => {}
                Taken::End => break,
                Taken::Faulty(fault) => {
                    faulty = Some(FaultyLine { number, fault });
                    break;
                }
            }
        }
        self.write(store)?;
        if let Err(why) = store.sync() {
            return Err(CommandError::NotSynced(why));
        }
        let pairs = self.pairs;
        Ok(Imported { pairs, faulty })
    }

    // Takes the next line.
    fn take_line<V: Vault, R: BufRead>(
        &mut self,
        store: &mut Store<V>,
        reader: &mut R,
        line: &mut Vec<u8>,
    ) -> Result<Taken, CommandError> {
        match read_line(reader, line)? {
            NextLine::End => return Ok(Taken::End),
            NextLine::TooLong | NextLine::MaybeCut => return Ok(Taken::Faulty(LineFault::TooLong)),
            NextLine::Line => {}
        }
        match put_in(self.alloc, line) {
            Ok(None) => Ok(Taken::Line),
            Ok(Some(op)) => self.add(store, op),
            Err(Refused::OutOfMemory) => Err(CommandError::OutOfMemory),
            Err(Refused::Fault(fault)) => Ok(Taken::Faulty(fault)),
        }
    }

    // Adds a put, behind those that are written first if the batch is full.
    fn add<V: Vault>(&mut self, store: &mut Store<V>, op: Op) -> Result<Taken, CommandError> {
        if self.batch.ops().len() >= MAX_BATCH_OPS || self.batch.weight() >= FULL_WEIGHT {
            self.write(store)?;
        }
        match self.batch.push(op) {
            Ok(()) => {
                self.pairs = self.pairs.saturating_add(1);
                Ok(Taken::Line)
            }
            Err(KeyError::OutOfMemory) => Err(CommandError::OutOfMemory),
            Err(why) => Ok(Taken::Faulty(LineFault::Key(why))),
        }
    }

    // Writes the batch, if it has a pair.
    fn write<V: Vault>(&mut self, store: &mut Store<V>) -> Result<(), StoreError> {
        if self.batch.ops().is_empty() {
            return Ok(());
        }
        store.write(&self.batch)?;
        self.batch = Batch::new(self.alloc);
        Ok(())
    }
}

// The put of a line, or `None` if it has no command.
fn put_in(alloc: Global, line: &[u8]) -> Result<Option<Op>, Refused<LineFault>> {
    let mut words = Words::new(line);
    let Some(name) = words.next() else {
        return Ok(None);
    };
    if matches!(name.first(), Some(b'#')) {
        return Ok(None);
    }
    if name != b"put".as_slice() {
        return Err(Refused::Fault(LineFault::NotAPut));
    }
    match put(alloc, words) {
        Ok(Call::Write(ops)) => Ok(ops.into_vec().pop()),
        Ok(_) => Err(Refused::Fault(LineFault::NotAPut)),
        Err(Refused::OutOfMemory) => Err(Refused::OutOfMemory),
        Err(Refused::Fault(reason)) => Err(Refused::Fault(LineFault::Words(reason))),
    }
}
