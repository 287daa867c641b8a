//! The lines of a session's answers, made of the same pieces as those of scripts.

ghost use Rattle.std.specs.Prelude.{◌≡◌, ◌++◌, ◌∷◌, [], OnOk};
ghost use Rattle.lsm_commands.specs.AnswerLines.{answer_text, refusal_text};

use super::answer::Answer;
use lsm_line::{
    coord_name, key_name, write_got, write_line_end, write_number, write_released, write_scanned,
    write_shown, write_snapped, write_text, write_wrote,
};
use lsm_store::StoreError;
use std::alloc::{AllocError, Global};

/// Appends the line of an answer: as scripts print it, or `flushed S`.
pub(crate) fn write_answer(
    alloc: Global,
    out: &mut Vec<u8>,
    answer: &Answer,
) -> Result<(), AllocError>
    ensures { OnOk result (out.new.items ≡ out.old.items ++ answer_text answer.now ++ 10 ∷ []) }
{
    match answer {
        Answer::Wrote(first, last) => write_wrote(out, *first, *last)?,
        Answer::Stored(last) => {
            write_text(out, "flushed ")?;
            write_number(out, last.number())?;
        }
        Answer::Snapped(id, seq) => write_snapped(out, *id, *seq)?,
        Answer::Released(id) => write_released(out, *id)?,
        Answer::Got(value) => write_got(out, value)?,
        Answer::Scanned(pairs) => write_scanned(out, pairs.as_slice())?,
        Answer::Shown(shown) => write_shown(alloc, out, shown)?,
        Answer::Refused(why) => write_refused(out, *why)?,
    }
    write_line_end(out)
}

/// Appends `refused Name`, without the end of a line.
pub(crate) fn write_refused(out: &mut Vec<u8>, why: StoreError) -> Result<(), AllocError>
    ensures { OnOk result (out.new.items ≡ out.old.items ++ refusal_text why) }
{
    write_text(out, "refused ")?;
    match why {
        StoreError::Key(why) => write_text(out, key_name(why)),
        StoreError::Coord(why) => write_text(out, coord_name(why)),
    }
}
