//! The fields of an entry by their names, as the bytes of a block have them: a value of one may break its rule.

use bytes::{BufMut, BytesMut};
use std::alloc::{AllocError, Global};

/// A field of an entry, and its value there. The last byte of a trailer is its kind, those before it are the sequence.
#[derive(Clone, Copy, Debug)]
pub(crate) enum Field {
    KeyLength(u16),
    Key(&'static [u8]),
    Sequence(u64),
    Kind(u8),
    ValueLength(u32),
    Value(&'static [u8]),
}

/// All fields of an entry, in their order.
pub(crate) type EntryFields = [Field; 6];

/// The entries with some fields of theirs changed: which entry, and the field with its other value.
pub(crate) fn changed(
    alloc: Global,
    entries: &[EntryFields],
    changes: &[(usize, Field)],
) -> Result<Vec<EntryFields>, AllocError> {
    let mut changed = Vec::from_slice(alloc, entries)?;
    for (at, field) in changes {
        if let Some(entry) = changed.get_mut(*at) {
            set(entry, *field);
        }
    }
    Ok(changed)
}

// Gives a field of an entry this value.
fn set(entry: &mut EntryFields, field: Field) {
    let place = match field {
        Field::KeyLength(_) => 0,
        Field::Key(_) => 1,
        Field::Sequence(_) => 2,
        Field::Kind(_) => 3,
        Field::ValueLength(_) => 4,
        Field::Value(_) => 5,
    };
    entry[place] = field;
}

/// The bytes of fields, one behind the other.
pub(crate) fn bytes_of(alloc: Global, fields: &[Field]) -> Result<Vec<u8>, AllocError> {
    let mut out = BytesMut::new(alloc);
    for field in fields {
        put(&mut out, *field)?;
    }
    Vec::from_slice(alloc, out.as_slice())
}

fn put(out: &mut BytesMut, field: Field) -> Result<(), AllocError> {
    match field {
        Field::KeyLength(length) => out.put_u16(length),
        Field::Key(bytes) | Field::Value(bytes) => out.put_slice(bytes),
        Field::Sequence(sequence) => out.put_slice(&sequence.to_be_bytes()[1..]),
        Field::Kind(kind) => out.put_u8(kind),
        Field::ValueLength(length) => out.put_u32(length),
    }
}
