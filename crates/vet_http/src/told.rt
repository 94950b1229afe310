//! The replies to a command: its outcome, or a refusal.
//!
//! An outcome is sent after the command's change is kept, when it is too late to answer that memory ran out. So room is
//! reserved before the command runs, and the reply is written into it, even the one that says that memory ran out.
ghost use Rattle.std.specs.Prelude.{◌≡◌, ◌⊎◌, ◌≤◌, [], IfOk, OnErr, length};
ghost use Rattle.vet_http.specs.ReplyRoom.{HasRoom};
ghost use Rattle.vet_requests.specs.Reply.{text_reply};
ghost use Rattle.vet_http.specs.Told.{outcome_reply, refusal_reply};

use std::alloc::{AllocError, Global};
use vet_base::refusal::Refusal;
use vet_register::command::Outcome;
use vet_reports::outcome_text::{MOST_OUTCOME_BYTES, outcome_text_is_short, write_outcome};
use vet_reports::refusal_text::{lines_by_example, refusal_text};
use vet_requests::content_type::ContentType;
use vet_requests::reply::{Reply, room_for};
use vet_requests::status::Status;

/// The reply to a refusal. Fails only if memory runs out.
#[tactic(auto, unfolding(crate::specs::Told::refusal_reply))]
pub fn refusal_reply(alloc: Global, refusal: &Refusal) -> Result<Reply, AllocError>
    ensures { IfOk result (λ r. r ≡ refusal_reply refusal.now) }
{
    let line = refusal_text(alloc, refusal)?;
    Reply::with(
        alloc,
        Status::of_refusal(refusal),
        ContentType::Text,
        line.as_str(),
    )
}

/// Room for the reply to a command.
pub(crate) struct ReplyRoom {
    line: String,
    text: String,
}

impl Drop for ReplyRoom {
    fn drop(self) {
        let ReplyRoom { line: _, text: _ } = self;
    }
}

impl ReplyRoom {
    /// Reserves the room. Fails only if memory runs out.
    pub(crate) fn take(alloc: Global) -> Result<ReplyRoom, AllocError>
        ensures { IfOk result HasRoom }
    {
        let line = String::with_capacity(alloc, MOST_OUTCOME_BYTES)?;
        let text = room_for(alloc, MOST_OUTCOME_BYTES)?;
        Ok(ReplyRoom { line, text })
    }

    /// The reply to a command that was not refused. Takes no memory.
    #[tactic(auto, unfolding(crate::specs::Told::outcome_reply))]
    pub(crate) fn of_outcome(self, outcome: &Outcome) -> Reply
        requires { HasRoom self }
        ensures { result ≡ outcome_reply outcome.now }
    {
        outcome_text_is_short(outcome);
        let ReplyRoom { line, text } = self;
        let mut line = line;
        write_outcome(&mut line, outcome);
        Reply::in_room(text, Status::Ok, ContentType::Text, "", line.as_str())
    }

    /// The reply to a refusal. If memory runs out for its text, it is the reply that says so. For `NoMemory` and
    /// `StoreRefused` it takes no memory.
    pub(crate) fn of_refusal(self, alloc: Global, refusal: &Refusal) -> Reply
        requires { HasRoom self }
        ensures { (result ≡ refusal_reply refusal.now) ⊎ (result ≡ refusal_reply Refusal.NoMemory) }
    {
        match refusal {
            Refusal::NoMemory => self.no_memory(),
            Refusal::StoreRefused => self.store_refused(),
            _ => self.unless_no_memory(refusal_reply(alloc, refusal)),
        }
    }

    // The reply that was made, or, if memory ran out for it, the one that says so.
    fn unless_no_memory(self, made: Result<Reply, AllocError>) -> Reply
        requires { HasRoom self }
        ensures made { IfOk made (λ reply. result ≡ reply) }
        ensures none { OnErr made (result ≡ refusal_reply Refusal.NoMemory) }
    {
        match made {
            Ok(reply) => reply,
            Err(_) => self.no_memory(),
        }
    }

    // The reply that says that memory ran out.
    #[tactic(auto, unfolding(crate::specs::Told::refusal_reply))]
    fn no_memory(self) -> Reply
        requires { HasRoom self }
        ensures { result ≡ refusal_reply Refusal.NoMemory }
    {
        lines_by_example();
        self.of_line("refused 29 NoMemory\n")
    }

    // The reply to the store's refusal.
    fn store_refused(self) -> Reply
        requires { HasRoom self }
        ensures { result ≡ refusal_reply Refusal.StoreRefused }
    {
        self.of_line("refused 30 StoreRefused\n")
    }

    // The reply with the line of either refusal.
    fn of_line(self, line: &str) -> Reply
        requires room { HasRoom self }
        requires short { length line.now ≤ MOST_OUTCOME_BYTES }
        ensures { result ≡ text_reply Status.ServiceUnavailable line.now }
    {
        let ReplyRoom { line: _, text } = self;
        Reply::in_room(
            text,
            Status::ServiceUnavailable,
            ContentType::Text,
            "",
            line,
        )
    }
}
