//! The line of a listing. It stands apart from the other lines, since it goes over the levels and their files.

ghost use Rattle.std.specs.Prelude.{◌≡◌, ◌++◌, OnOk, IfOk, map};
ghost use Rattle.lsm_coord.specs.Contract.Shows.{place_of};
ghost use Rattle.lsm_line.specs.Lines.{level_files, level_text, levels_text, shown_text};

use crate::text::{write_number, write_numbers, write_text};
use lsm_coord::ShownVersion;
use lsm_edit::FileMeta;
use lsm_key::{ALL_LEVELS, FileNumber};
use std::alloc::{AllocError, Global};

/// ` L0 F,F,..`, or nothing for a level without files
fn write_level(out: &mut Vec<u8>, level: u64, files: &[FileNumber]) -> Result<(), AllocError>
    ensures { OnOk result (out.new.items ≡ out.old.items ++ level_text level files.now) }
{
    if files.is_empty() {
        return Ok(());
    }
    write_text(out, " L")?;
    write_number(out, level)?;
    write_text(out, " ")?;
    write_numbers(out, files)
}

/// The files of a level, in the order of the listing.
fn level_files(alloc: Global, level: u8, files: &[FileMeta]) -> Result<Vec<FileNumber>, AllocError>
    ensures { IfOk result (λ numbers. numbers.items ≡ level_files level (map place_of files.now)) }
{
    let mut numbers = Vec::new(alloc);
    for file in files {
        if file.level == level {
            numbers.push(FileNumber::new(file.number))?;
        }
    }
    Ok(numbers)
}

/// Each of these levels that has files.
fn write_levels(
    alloc: Global,
    out: &mut Vec<u8>,
    levels: &[u8],
    files: &[FileMeta],
) -> Result<(), AllocError>
    ensures { OnOk result (out.new.items ≡ out.old.items ++ levels_text (map place_of files.now) levels.now) }
{
    for level in levels {
        let numbers = level_files(alloc, *level, files)?;
        write_level(out, u64::from(*level), &numbers)?;
    }
    Ok(())
}

/// `show N flushed S`, and each level with files
pub fn write_shown(alloc: Global, out: &mut Vec<u8>, shown: &ShownVersion) -> Result<(), AllocError>
    ensures { OnOk result (out.new.items ≡ out.old.items ++ shown_text shown.now.number shown.now.flushed (map place_of shown.now.files)) }
{
    write_text(out, "show ")?;
    write_number(out, shown.number.number())?;
    write_text(out, " flushed ")?;
    write_number(out, shown.flushed.number())?;
    write_levels(alloc, out, &ALL_LEVELS, shown.files.as_slice())
}
