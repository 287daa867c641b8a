//! Operations as words: puts and deletions as scripts and dumps have them, over the words of their keys and values.

use crate::word::Word;
use lsm_key::Op;
use std::fmt;

/// An operation as a script has it: `put K V` or `del K`.
#[derive(Clone, Copy)]
pub struct Operation<'a>(pub &'a Op);

impl fmt::Display for Operation<'_> {
    fn fmt<W: fmt::Write>(&self, f: &mut fmt::Formatter<W>) -> fmt::Result {
        match self.0 {
            Op::Put(key, value) => {
                write!(f, "put {} {}", Word(key.as_slice()), Word(value.as_slice()))
            }
            Op::Delete(key) => write!(f, "del {}", Word(key.as_slice())),
        }
    }
}

/// Operations as a script has them behind the word `batch`: a space and the operation for each.
#[derive(Clone, Copy)]
pub struct Operations<'a>(pub &'a [Op]);

impl fmt::Display for Operations<'_> {
    fn fmt<W: fmt::Write>(&self, f: &mut fmt::Formatter<W>) -> fmt::Result {
        for op in self.0 {
            write!(f, " {}", Operation(op))?;
        }
        Ok(())
    }
}
