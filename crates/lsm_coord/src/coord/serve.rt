//! Answers to messages: the tables that others fetch, and the edits and versions that followers ask for. They change
//! nothing.

ghost use Rattle.std.specs.Prelude.{◌≡◌, ℕ, ◌<◌, Some, IfOk, IfErr, IfSome, IsSome};
ghost use Rattle.lsm_msg.specs.declared.node.Node.TheVariants.{Coordinator};
ghost use Rattle.lsm_msg.specs.Messages.{IsBody, IsFileNumber, IsMessage};
ghost use Rattle.lsm_versions.specs.Retention.{bytes_at};
ghost use Rattle.lsm_coord.specs.Model.Event.{Deliver, Other};
ghost use Rattle.lsm_coord.specs.Model.State.{State};
ghost use Rattle.lsm_coord.specs.Contract.Shows.{Follows, Shows};
ghost use Rattle.lsm_coord.specs.Contract.Serving.{Serves, TakesMemory, after_version, answer_message, table_body};

use super::Coord;
use lsm_key::{FileNumber, VersionNumber};
use lsm_msg::{Body, Message, Node};
use lsm_vault::Vault;
use std::alloc::AllocError;

impl<V: Vault> Coord<V> {
    /// Replies to `Fetch`: the table if some version from the floor on lists the file, else `Gone`. Replies to `Ask`: that the
    /// follower is up to date, or the next edit if that is one from the floor on, else the whole current version. Ignores other
    /// messages. What is answered may be sent. Tables, edits and versions share their bytes.
    pub fn serve(&self, message: &Message) -> Result<Option<Message>, AllocError>
        ensures step { (number : ℕ) → Follows self.now (Deliver number) Other self.now }
        ensures ok { IfOk result (λ answer. answer ≡ answer_message self.now message.now message.now.body) }
        ensures listed { IfOk result (λ answer. (s : State) → Shows self.now s → Serves s message.now.body answer) }
        ensures sound { IsMessage message.now → IfOk result (λ answer. IfSome answer IsMessage) }
        ensures err { IfErr result (λ e. TakesMemory self.now message.now.body) }
    {
        // Proof hint: the retired files are those of earlier versions.
        let _served = self.versions.served();
        match &message.body {
            Body::Fetch(file) => Ok(Some(answer_to(message, self.file_body(*file)?))),
            Body::Ask(number) => Ok(Some(answer_to(message, self.body_after(*number)?))),
            _ => Ok(None),
        }
    }

    // What a follower at a version is told: that it is up to date, the next edit, or the whole current version.
    fn body_after(&self, number: VersionNumber) -> Result<Body, AllocError>
        ensures ok { IfOk result (λ body. after_version self.now number ≡ Some body) }
        ensures sound { IfOk result IsBody }
        ensures err { IfErr result (λ e. number < self.now.served.version.number) }
    {
        let version = self.versions.version();
        let current = version.number();
        if current <= number.number() {
            return Ok(Body::Current(VersionNumber::new(current)));
        }
        if self.versions.floor().number() <= number.number() + 1 {
            return Ok(Body::Edit(self.versions.edit_after(number)?));
        }
        Ok(Body::Base(version.copy(self.alloc)?))
    }

    // The table of a file, or that it is gone.
    fn file_body(&self, file: FileNumber) -> Result<Body, AllocError>
        ensures ok { IfOk result (λ body. body ≡ table_body file (bytes_at self.now.served.places self.now.retired file)) }
        ensures sound { IsFileNumber file → IfOk result IsBody }
        ensures err { IfErr result (λ e. IsSome (bytes_at self.now.served.places self.now.retired file)) }
    {
        match self.versions.bytes_of(file.number()) {
            Some(bytes) => Ok(Body::Table(file, bytes.clone()?)),
            None => Ok(Body::Gone(file)),
        }
    }
}

// The coordinator's answer to a message.
fn answer_to(message: &Message, body: Body) -> Message
    ensures { result ≡ record { src = Coordinator; dst = message.now.src; body = body } }
{
    Message {
        src: Node::Coordinator,
        dst: message.src,
        body,
    }
}
