//! Installs as plain data, in memory that is taken before them.

ghost use Rattle.std.specs.Prelude.{◌≡◌, IfOk, length};
ghost use Rattle.lsm_coord.specs.declared.call.Call.TheVariants as call;
ghost use Rattle.lsm_nodes.specs.Answers.{HasFewFiles, IsRoom, install_answer};

use crate::answers::{calls_of, refused};
use crate::twice::Twice;
use lsm_claim::JobId;
use lsm_coord::{Answer, Call, CoordError, Install};
use lsm_key::{FileNumber, Items};
use lsm_msg::JobResult;
use std::alloc::{AllocError, Global};

/// Room for the numbers of an install's files, twice.
pub(crate) type Rooms = (Vec<FileNumber>, Vec<FileNumber>);

/// The call of an install, and room for as many file numbers as the result has tables.
pub(crate) fn install_calls(
    alloc: Global,
    id: JobId,
    made: &JobResult,
) -> Result<(Twice<Call>, Rooms), AllocError>
    ensures call { IfOk result (λ r. r.0 ≡ call.Install id made.now) }
    ensures room { IfOk result (λ r. IsRoom (length made.now.tables) r.1.0 × IsRoom (length made.now.tables) r.1.1) }
{
    let calls = calls_of(alloc, Call::Install(id, made.copy(alloc)?))?;
    let one = room_for(alloc, made.tables.len())?;
    let other = room_for(alloc, made.tables.len())?;
    Ok((calls, (one, other)))
}

// Room for this many numbers.
fn room_for(alloc: Global, count: usize) -> Result<Vec<FileNumber>, AllocError>
    ensures { IfOk result (IsRoom count) }
{
    let mut room: Vec<FileNumber> = Vec::new(alloc);
    room.reserve(count)?;
    Ok(room)
}

/// The answer of an install, in the room for its numbers. Allocates nothing.
pub(crate) fn install_answers(outcome: &Install, count: usize, rooms: Rooms) -> Twice<Answer>
    requires one { IsRoom count rooms.0 }
    requires other { IsRoom count rooms.1 }
    requires few { HasFewFiles count outcome.now }
    ensures { result ≡ install_answer outcome.now }
{
    match outcome {
        Install::Done(number, files) => {
            let (one, other) = rooms;
            Twice::new(
                Answer::Installed(*number, numbers_in(one, files.as_slice())),
                Answer::Installed(*number, numbers_in(other, files.as_slice())),
            )
        }
        Install::Stale(id, epoch) => {
            Twice::new(Answer::Stale(*id, *epoch), Answer::Stale(*id, *epoch))
        }
        Install::Kept(_, why) => refused(CoordError::from(*why)),
    }
}

// The numbers, in a vector that has room for them.
fn numbers_in(room: Vec<FileNumber>, numbers: &[FileNumber]) -> Items<FileNumber>
    requires { IsRoom (length numbers.now) room }
    ensures { result ≡ numbers.now }
{
    let mut copy = room;
    for number in numbers {
        copy.push_reserved(*number);
    }
    Items::from_vec(copy)
}
