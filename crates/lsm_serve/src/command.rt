//! The commands, by their names, in which case does not count.

ghost use Rattle.std.specs.Prelude.{◌≡◌, ◌↔◌, IfNone, IfSome, IsTrue};
ghost use Rattle.lsm_serve.specs.Commands.{IsCalled, IsNoCommand, command_name};

use std::fmt;
use std::fmt::Display;

/// A command.
#[derive(Clone, Copy, Debug, PartialEq, Eq)]
pub enum Command {
    /// `PING [message]`: the message, or `PONG`.
    Ping,
    /// `ECHO message`: the message.
    Echo,
    /// `SET key value`: puts the key. Redis's options are a syntax error.
    Set,
    /// `GET key`: its value, or null.
    Get,
    /// `DEL key ..`: deletes each key that has a value, in turn, each by a write of its own; how many they were.
    Delete,
    /// `EXISTS key ..`: how many of these keys have a value. A key that is named twice counts twice.
    Exists,
    /// `MGET key ..`: the value of each key, or null.
    MultiGet,
    /// `MSET key value ..`: puts all keys as one batch, all or nothing.
    MultiSet,
    /// `RANGE lo hi limit`: the first `limit` keys at or after `lo` and before `hi`, each with its value behind it. Not of Redis.
    Range,
    /// `SAVE`: brings all that the store holds into tables.
    Save,
    /// `INFO ..`: figures of the store.
    Info,
    /// `COMMAND ..`: an empty array. Clients ask for it before they begin.
    Describe,
    /// `CONFIG ..`: an empty array. Clients ask for it before they begin.
    Config,
    /// `SELECT 0`: there is one database.
    Select,
    /// `QUIT`: ends the stream.
    Quit,
}

impl Command {
    /// Its name, in lower case.
    pub fn name(self) -> &'static str
        ensures { result.now ≡ command_name self }
    {
        match self {
            Command::Ping => "ping",
            Command::Echo => "echo",
            Command::Set => "set",
            Command::Get => "get",
            Command::Delete => "del",
            Command::Exists => "exists",
            Command::MultiGet => "mget",
            Command::MultiSet => "mset",
            Command::Range => "range",
            Command::Save => "save",
            Command::Info => "info",
            Command::Describe => "command",
            Command::Config => "config",
            Command::Select => "select",
            Command::Quit => "quit",
        }
    }

    /// Whether it has this name, in either case.
    pub(crate) fn is_called(self, name: &[u8]) -> bool
        ensures { IsTrue result ↔ IsCalled name.now self }
    {
        name.eq_ignore_ascii_case(self.name().as_bytes())
    }

    /// The command of this name, in either case.
    pub fn of(name: &[u8]) -> Option<Command>
        ensures some { IfSome result (IsCalled name.now) }
        ensures none { IfNone result (IsNoCommand name.now) }
    {
        if Command::Get.is_called(name) {
            return Some(Command::Get);
        }
        if Command::Set.is_called(name) {
            return Some(Command::Set);
        }
        if Command::MultiGet.is_called(name) {
            return Some(Command::MultiGet);
        }
        if Command::MultiSet.is_called(name) {
            return Some(Command::MultiSet);
        }
        if Command::Delete.is_called(name) {
            return Some(Command::Delete);
        }
        if Command::Exists.is_called(name) {
            return Some(Command::Exists);
        }
        if Command::Range.is_called(name) {
            return Some(Command::Range);
        }
        if Command::Ping.is_called(name) {
            return Some(Command::Ping);
        }
        if Command::Echo.is_called(name) {
            return Some(Command::Echo);
        }
        if Command::Save.is_called(name) {
            return Some(Command::Save);
        }
        if Command::Info.is_called(name) {
            return Some(Command::Info);
        }
        if Command::Describe.is_called(name) {
            return Some(Command::Describe);
        }
        if Command::Config.is_called(name) {
            return Some(Command::Config);
        }
        if Command::Select.is_called(name) {
            return Some(Command::Select);
        }
        if Command::Quit.is_called(name) {
            return Some(Command::Quit);
        }
        None
    }
}

impl Display for Command {
    fn fmt<W: fmt::Write>(&self, f: &mut fmt::Formatter<W>) -> fmt::Result {
        f.write_str(self.name())
    }
}
