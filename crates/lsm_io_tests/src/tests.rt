//! What no clause says: which calls of a reader and a writer are made, since no statement of the runtime's streams names one.

use lsm_io::{
    CountedReader, CountedWriter, Sink, SinkError, SourceError, StreamError, read_all, read_to_end,
    write_all, write_kept, write_out, write_whole,
};
use std::io;
use std::io::{ErrorKind, Read, Write};
use std::test::Fail;

const BYTES: &[u8] = b"one by one";

/// Gives `BYTES`, one at each read that is not interrupted, and then an end or a fault.
#[derive(Drop)]
struct Dripping {
    at: usize,
    interrupted: usize,
    fails: bool,
}

impl Dripping {
    fn new(fails: bool) -> Dripping {
        Dripping {
            at: 0,
            interrupted: 2,
            fails,
        }
    }
}

impl Read for Dripping {
    fn read(&mut self, buf: &mut [u8]) -> io::Result<usize> {
        if self.interrupted > 0 {
            self.interrupted -= 1;
            return Err(io::Error::from(ErrorKind::Interrupted));
        }
        let Some(byte) = BYTES.get(self.at) else {
            if self.fails {
                return Err(io::Error::from(ErrorKind::TimedOut));
            }
            return Ok(0);
        };
        let Some(place) = buf.first_mut() else {
            return Ok(0);
        };
        *place = *byte;
        self.at += 1;
        self.interrupted = 2;
        Ok(1)
    }
}

/// Takes bytes, one at each write that is not interrupted, until it is full, and counts how often it is flushed.
#[derive(Drop)]
struct Sipping {
    taken: [u8; 10],
    len: usize,
    room: usize,
    interrupted: usize,
    flushes: usize,
    fails: bool,
}

impl Sipping {
    fn new(room: usize, fails: bool) -> Sipping {
        Sipping {
            taken: [0; 10],
            len: 0,
            room,
            interrupted: 2,
            flushes: 0,
            fails,
        }
    }
}

impl Write for Sipping {
    fn write(&mut self, buf: &[u8]) -> io::Result<usize> {
        if self.interrupted > 0 {
            self.interrupted -= 1;
            return Err(io::Error::from(ErrorKind::Interrupted));
        }
        if self.len >= self.room {
            return Ok(0);
        }
        let (Some(byte), Some(place)) = (buf.first(), self.taken.get_mut(self.len)) else {
            return Ok(0);
        };
        *place = *byte;
        self.len += 1;
        self.interrupted = 2;
        Ok(1)
    }

    fn flush(&mut self) -> io::Result<()> {
        self.flushes = self.flushes.saturating_add(1);
        if self.fails {
            return Err(io::Error::from(ErrorKind::BrokenPipe));
        }
        Ok(())
    }
}

#[test]
fn a_read_that_is_interrupted_is_made_again(rt: HostRuntime) -> Result<(), Fail> {
    let alloc = rt.alloc();
    let counted = read_to_end(alloc, &mut CountedReader::new(Dripping::new(false)))?;
    assert!(rt; counted.as_slice() == BYTES);
    let all = read_all(alloc, &mut Dripping::new(false))?;
    assert!(rt; all.as_slice() == BYTES);
    Ok(())
}

#[test]
fn a_read_that_fails_is_a_fault(rt: HostRuntime) {
    let alloc = rt.alloc();
    let counted = read_to_end(alloc, &mut CountedReader::new(Dripping::new(true)));
    assert_eq!(rt; counted.err(), Some(SourceError::ReadFault));
    let all = read_all(alloc, &mut Dripping::new(true));
    assert_eq!(rt; all.err(), Some(StreamError::ReadFault));
}

#[test]
fn what_is_kept_is_written_and_flushed(rt: HostRuntime) -> Result<(), Fail> {
    let mut out = Vec::from_slice(rt.alloc(), BYTES)?;
    let mut writer = Sipping::new(10, false);
    assert_eq!(rt;
        write_kept(&mut CountedWriter::new(&mut writer), &mut out),
        Ok(())
    );
    assert!(rt; writer.taken.as_slice() == BYTES);
    assert_eq!(rt; (out.len(), writer.flushes), (0, 1));
    out.extend_from_slice(BYTES)?;
    let mut plain = Sipping::new(10, false);
    assert_eq!(rt; write_out(&mut plain, &mut out), Ok(()));
    assert!(rt; plain.taken.as_slice() == BYTES);
    assert_eq!(rt; (out.len(), plain.flushes), (0, 1));
    Ok(())
}

#[test]
fn a_flush_that_fails_is_a_fault(rt: HostRuntime) -> Result<(), Fail> {
    let mut out = Vec::from_slice(rt.alloc(), BYTES)?;
    let mut writer = Sipping::new(10, true);
    let mut sink = CountedWriter::new(&mut writer);
    assert_eq!(rt; sink.flush(), Err(SinkError::WriteFault));
    assert_eq!(rt; write_kept(&mut sink, &mut out), Err(SinkError::WriteFault));
    assert_eq!(rt; writer.flushes, 2);
    let mut plain = Sipping::new(10, true);
    assert_eq!(rt;
        write_out(&mut plain, &mut out),
        Err(StreamError::WriteFault)
    );
    assert_eq!(rt; plain.flushes, 1);
    Ok(())
}

#[test]
fn a_writer_that_takes_nothing_is_a_fault(rt: HostRuntime) {
    let mut writer = Sipping::new(3, false);
    let answer = write_whole(&mut CountedWriter::new(&mut writer), BYTES);
    assert_eq!(rt; answer, Err(SinkError::WriteFault));
    assert!(rt; &writer.taken[..3] == b"one".as_slice());
    let mut plain = Sipping::new(3, false);
    assert_eq!(rt; write_all(&mut plain, BYTES), Err(StreamError::WriteFault));
    assert!(rt; &plain.taken[..3] == b"one".as_slice());
}
