//! Tables by number, in memory, apart from the vaults since those in memory and in a folder both hold them.

ghost use Rattle.std.specs.Prelude.{◌≡◌, None, IfOk, IsSome, OnOk, OnErr};
ghost use Rattle.std.specs.Ordering.{nat_cmp};
ghost use Rattle.std.specs.FinMap as map;
ghost use Rattle.std.specs.BTreeMap as tree;
ghost use Rattle.lsm_vault.specs.Restored.{restored};

use bytes::Bytes;
use lsm_key::FileNumber;
use std::alloc::{AllocError, Global};
use std::collections::BTreeMap;
use std::marker::Model;

/// The bytes of tables, by file number.
#[derive(Drop)]
pub struct Tables {
    by_number: BTreeMap<u64, Bytes>,
}

impl Model for Tables {
    ghost use Rattle.std.specs.FinMap as map;
    ghost use Rattle.lsm_vault.specs.Stored.{TableMap, table_map_code};

    ghost Value = { TableMap };

    ghost coded = { table_map_code };

    ghost view = { λ t. map.from_entries t.by_number.entries };
}

impl Tables {
    /// No table. Allocates nothing.
    pub fn new(alloc: Global) -> Tables
        ensures { result ≡ map.empty }
    {
        Tables {
            by_number: BTreeMap::new(alloc),
        }
    }

    /// Stores a table under a number, and returns the one that it had. In place of one that is there it takes no memory, and so
    /// never fails.
    pub fn insert(&mut self, number: FileNumber, table: Bytes) -> Result<Option<Bytes>, AllocError>
        ensures before { IfOk result (λ before. before ≡ map.get self.old number) }
        ensures ok { OnOk result (self.new ≡ map.insert self.old number table) }
        ensures err { OnErr result (self.new ≡ self.old) }
        ensures absent { OnErr result (map.get self.old number ≡ None) }
    {
        Ok(self.by_number.insert(number.number(), table)?)
    }

    /// Undoes an `insert`, by what that returned. Takes no memory.
    pub fn put_back(&mut self, number: FileNumber, before: Option<Bytes>)
        requires { IsSome (map.get self.old number) }
        ensures { self.new ≡ restored self.old number before }
    {
        match before {
            None => self.remove(number),
            Some(table) => drop(self.insert(number, table)),
        }
    }

    /// Removes the table of a number, if there is one.
    pub fn remove(&mut self, number: FileNumber)
        ensures { self.new ≡ map.remove self.old number }
    {
        self.by_number.remove(&number.number());
    }

    /// The table of a number, if there is one.
    pub fn get(&self, number: FileNumber) -> Result<Option<Bytes>, AllocError>
        ensures { IfOk result (λ found. found ≡ map.get self.now number) }
    {
        match self.by_number.get(&number.number()) {
            None => Ok(None),
            Some(table) => Ok(Some(table.clone()?)),
        }
    }

    /// The numbers of all tables, ascending.
    pub fn numbers(&self, alloc: Global) -> Result<Vec<FileNumber>, AllocError>
        ensures { IfOk result (λ all. all.items ≡ map.keys self.now) }
    {
        let numbers = numbers_of(alloc, &self.by_number)?;
        file_numbers(alloc, numbers.as_slice())
    }
}

// The keys of a map, ascending.
fn numbers_of(alloc: Global, tables: &BTreeMap<u64, Bytes>) -> Result<Vec<u64>, AllocError>
    ensures keys { IfOk result (λ all. all.items ≡ tree.keys tables.now) }
    ensures ordered { tree.IsOrdered nat_cmp tables.now }
{
    tables.keys().copied().collect(alloc)
}

// The same numbers, as numbers of files.
fn file_numbers(alloc: Global, numbers: &[u64]) -> Result<Vec<FileNumber>, AllocError>
    ensures { IfOk result (λ all. all.items ≡ numbers.now) }
{
    let mut files = Vec::with_capacity(alloc, numbers.len())?;
    for number in numbers {
        files.push(FileNumber::new(*number))?;
    }
    Ok(files)
}
