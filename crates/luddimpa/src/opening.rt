//! Reading a table and a message in memory that the caller keeps.

ghost use Rattle.std.specs.Prelude.{◌≡◌, IfOk, List, Ok};
ghost use Rattle.lsm_key.specs.declared.entry.Entry.{Entry};
ghost use Rattle.lsm_key.specs.Reading.{Gives};
ghost use Rattle.lsm_msg.specs.declared.message.Message.{Message};
ghost use Rattle.lsm_msg.specs.Messages.{IsSpelled};
ghost use Rattle.lsm_msg.specs.MessageReading.{read_message};
ghost use Rattle.lsm_table.specs.Tables.{IsTable};
ghost use Rattle.lsm_table.specs.TableReading.{read_table};

use bytes::Bytes;
use lsm_key::{MAX_TABLE_BYTES, Refused, know_slice};
use lsm_msg::{MAX_MESSAGE_BYTES, Message, MsgError, MsgFault, decode};
use lsm_table::{Table, TableError, TableFault};
use std::alloc::Global;

/// The table that the bytes encode, all of them, in a copy; they are not copied if they are too many for a table.
#[tactic(auto, unfolding(lsm_table::specs::TableReading::read_table))]
pub(crate) fn open_table(alloc: Global, bytes: &[u8]) -> Result<Table, TableError>
    ensures found { IfOk result (λ t. (t.bytes ≡ bytes.now) × IsTable bytes.now t.entries) }
    ensures only { (es : List Entry) → IsTable bytes.now es → Gives (λ t. t.entries) result (Ok es) }
    ensures exact { Gives (λ t. t.entries) result (read_table bytes.now) }
{
    know_slice(bytes);
    if bytes.len() > MAX_TABLE_BYTES {
        return Err(Refused::Fault(TableFault::TooLarge));
    }
    Table::open(alloc, Bytes::copy_from_slice(alloc, bytes)?)
}

/// The message that the bytes encode, in a copy; they are not copied if they are too many for a message.
#[tactic(auto, unfolding(lsm_msg::specs::MessageReading::read_message))]
pub(crate) fn read_message(alloc: Global, bytes: &[u8]) -> Result<Message, MsgError>
    ensures found { IfOk result (λ m. IsSpelled bytes.now m) }
    ensures only { (m : Message) → IsSpelled bytes.now m → Gives (λ x. x) result (Ok m) }
    ensures exact { Gives (λ x. x) result (read_message bytes.now) }
{
    know_slice(bytes);
    if bytes.len() > MAX_MESSAGE_BYTES {
        return Err(Refused::Fault(MsgFault::TooLarge));
    }
    decode(alloc, Bytes::copy_from_slice(alloc, bytes)?)
}
