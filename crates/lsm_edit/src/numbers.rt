//! Files by their numbers, which rise, so that each look-up is a binary search.

ghost use Rattle.std.specs.Prelude.{◌≡◌, not, nat_eq};
ghost use Rattle.std.specs.List.{list_any};
ghost use Rattle.std.specs.List.Sorted.{IsNonDecreasing};
ghost use Rattle.lsm_edit.specs.Version.{has_number, is_listed, FileNumbersRise};

use crate::FileMeta;

/// Whether the number is one of these, which ascend.
pub fn is_among(numbers: &[u64], number: u64) -> bool
    requires { IsNonDecreasing numbers.now }
    ensures { result ≡ list_any (λ n. nat_eq number n) numbers.now }
{
    numbers.binary_search(&number).is_ok()
}

// Whether one of the numbers is no file's.
pub(crate) fn lacks(files: &[FileMeta], numbers: &[u64]) -> bool
    requires { FileNumbersRise files.now }
    ensures { result ≡ list_any (λ n. not (list_any (has_number n) files.now)) numbers.now }
{
    numbers.iter().any(|number| !has_file(files, *number))
}

/// Whether the number is one of the files', whose numbers rise. O(log n).
pub fn has_file(files: &[FileMeta], number: u64) -> bool
    requires { FileNumbersRise files.now }
    ensures { result ≡ list_any (has_number number) files.now }
{
    files
        .binary_search_by_key(&number, |file| file.number)
        .is_ok()
}

/// Whether the file is one of these, whose numbers rise, by its whole record. O(log n).
pub fn is_listed(files: &[FileMeta], file: &FileMeta) -> bool
    requires { FileNumbersRise files.now }
    ensures { result ≡ is_listed files.now file.now }
{
    match files.binary_search_by_key(&file.number, |other| other.number) {
        Ok(at) => *file == files[at],
        Err(_) => false,
    }
}
