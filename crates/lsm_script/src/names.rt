//! Which words name commands and nodes, and which lines are comments.

ghost use Rattle.std.specs.Prelude.{◌≡◌};
ghost use Rattle.lsm_line.specs.Numbers.{number};
ghost use Rattle.lsm_script.specs.Nodes.{index_of, node_index, worker_index, follower_index};
ghost use Rattle.lsm_script.specs.Script.{read_command, is_comment};

use crate::command::Command;
use lsm_line::read_number;
use lsm_msg::NodeIndex;

/// The command of this name.
#[tactic(auto, unfolding(crate::specs::Script::read_command))]
pub fn read_command(word: &[u8]) -> Option<Command>
    ensures { result ≡ read_command word.now }
{
    if word == b"put".as_slice() {
        Some(Command::Put)
    } else if word == b"del".as_slice() {
        Some(Command::Delete)
    } else if word == b"batch".as_slice() {
        Some(Command::Batch)
    } else if word == b"freeze".as_slice() {
        Some(Command::Freeze)
    } else if word == b"flush".as_slice() {
        Some(Command::Flush)
    } else if word == b"snap".as_slice() {
        Some(Command::Snap)
    } else if word == b"release".as_slice() {
        Some(Command::Release)
    } else if word == b"get".as_slice() {
        Some(Command::Get)
    } else if word == b"scan".as_slice() {
        Some(Command::Scan)
    } else if word == b"show".as_slice() {
        Some(Command::Show)
    } else if word == b"trim".as_slice() {
        Some(Command::Trim)
    } else if word == b"pick".as_slice() {
        Some(Command::Pick)
    } else if word == b"giveup".as_slice() {
        Some(Command::GiveUp)
    } else if word == b"deliver".as_slice() {
        Some(Command::Deliver)
    } else if word == b"restart".as_slice() {
        Some(Command::Restart)
    } else if word == b"ask".as_slice() {
        Some(Command::Ask)
    } else if word == b"read".as_slice() {
        Some(Command::Read)
    } else {
        None
    }
}

/// Whether a line whose first word is this one is a comment.
pub fn is_comment(word: &[u8]) -> bool
    ensures { result ≡ is_comment word.now }
{
    match word.first() {
        Some(byte) => *byte == b'#',
        None => false,
    }
}

/// The index of a dispatcher, a worker or a follower.
pub fn read_index(word: &[u8]) -> Option<NodeIndex>
    ensures { result ≡ index_of (number word.now) }
{
    let number = u8::try_from(read_number(word)?).ok()?;
    NodeIndex::new(number)
}

/// The index of a node that this letter and an index name.
fn node_index(letter: u8, word: &[u8]) -> Option<NodeIndex>
    ensures { result ≡ node_index letter word.now }
{
    let (first, digits) = word.split_first()?;
    if *first != letter {
        return None;
    }
    read_index(digits)
}

/// The index of the worker of this name.
pub fn worker_index(word: &[u8]) -> Option<NodeIndex>
    ensures { result ≡ worker_index word.now }
{
    node_index(b'w', word)
}

/// The index of the follower of this name.
pub fn follower_index(word: &[u8]) -> Option<NodeIndex>
    ensures { result ≡ follower_index word.now }
{
    node_index(b'f', word)
}
