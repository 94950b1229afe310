//! Replies.
//!
//! **The bytes of a reply are those of its definition: the line of its status, the lines of its fields, an empty line
//! and the body. `Content-Length` gives the length of the body.**
//!
//! A command is answered after its change is kept, when it is too late to say that memory ran out. So room is reserved
//! first, and head and body are written into it.
ghost use Rattle.std.specs.Prelude.{◌≡◌, ◌+◌, ◌≤◌, ◌++◌, [], IfOk, codes, length, string_bytes};
ghost use Rattle.std.specs.Prelude.{string_capacity, string_len};
ghost use Rattle.vet_requests.specs.Reply.{allow_line, field_line, fixed_body, not_allowed, plain_reply, reply_head};
ghost use Rattle.vet_requests.specs.Reply.{reply_with, status_line, text_reply};
ghost use Rattle.vet_requests.specs.ReplyByExample as example;
ghost use Rattle.vet_requests.specs.Route.{asked_at, told_methods};

use crate::content_type::ContentType;
use crate::route::Route;
use crate::status::Status;
use itoa::Buffer;
use std::alloc::{AllocError, Global};
use std::marker::Model;

/// A reply: its status, and all its bytes, which include the status.
pub struct Reply {
    pub status: Status,
    pub bytes: ReplyBytes,
}

impl Drop for Reply {
    fn drop(self) {
        let Reply {
            status: _,
            bytes: _,
        } = self;
    }
}

/// The bytes of a reply.
#[derive(Drop)]
pub struct ReplyBytes {
    text: String,
}

impl Model for ReplyBytes {
    ghost use Rattle.std.specs.Prelude.{ℕ, List, string_bytes};

    ghost Value = { List ℕ };

    ghost view = { λ b. string_bytes b.text };
}

impl ReplyBytes {
    /// The bytes.
    pub fn as_slice(&self) -> &[u8]
        ensures { result.now ≡ self.now }
    {
        self.text.as_bytes()
    }
}

/// More bytes than any head has.
pub const MOST_REPLY_HEAD_BYTES: usize = 160;

/// The most bytes that the list of a target's methods takes.
pub(crate) const MOST_ALLOW_BYTES: usize = 8;

impl Reply {
    /// The reply with a body. Fails only if memory runs out.
    pub fn with(
        alloc: Global,
        status: Status,
        kind: ContentType,
        body: &str,
    ) -> Result<Reply, AllocError>
        ensures { IfOk result (λ r. r ≡ reply_with status kind [] body.now) }
    {
        Reply::laid_out(alloc, status, kind, "", body)
    }

    /// The reply of a status with its fixed body. Fails only if memory runs out.
    pub fn plain(alloc: Global, status: Status) -> Result<Reply, AllocError>
        ensures { IfOk result (λ r. r ≡ plain_reply status) }
    {
        Reply::laid_out(alloc, status, ContentType::Text, "", fixed_body(status))
    }

    /// The reply to a method that a target lacks, with the methods that it has. Fails only if memory runs out.
    pub fn not_allowed(alloc: Global, methods: &str) -> Result<Reply, AllocError>
        requires { length methods.now ≤ MOST_ALLOW_BYTES }
        ensures { IfOk result (λ r. r ≡ not_allowed methods.now) }
    {
        let status = Status::MethodNotAllowed;
        Reply::laid_out(
            alloc,
            status,
            ContentType::Text,
            methods,
            fixed_body(status),
        )
    }

    fn laid_out(
        alloc: Global,
        status: Status,
        kind: ContentType,
        methods: &str,
        body: &str,
    ) -> Result<Reply, AllocError>
        requires { length methods.now ≤ MOST_ALLOW_BYTES }
        ensures { IfOk result (λ r. r ≡ reply_with status kind methods.now body.now) }
    {
        let text = room_for(alloc, body.len())?;
        Ok(Reply::in_room(text, status, kind, methods, body))
    }

    /// The reply with a body, in a text that has room for both. Takes no memory.
    pub fn in_room(
        text: String,
        status: Status,
        kind: ContentType,
        methods: &str,
        body: &str,
    ) -> Reply
        requires empty { string_bytes text ≡ [] }
        requires room { MOST_REPLY_HEAD_BYTES + length body.now ≤ string_capacity text }
        requires short { length methods.now ≤ MOST_ALLOW_BYTES }
        ensures { result ≡ reply_with status kind methods.now body.now }
    {
        let mut text = text;
        push_head(&mut text, status, kind, methods, body.len());
        push_word(&mut text, body);
        Reply {
            status,
            bytes: ReplyBytes { text },
        }
    }
}

/// Room for a reply whose body has this many bytes.
pub fn room_for(alloc: Global, bytes: usize) -> Result<String, AllocError>
    requires { bytes ≤ 9223372036854775807 }
    ensures empty { IfOk result (λ t. string_bytes t ≡ []) }
    ensures room { IfOk result (λ t. MOST_REPLY_HEAD_BYTES + bytes ≤ string_capacity t) }
{
    String::with_capacity(alloc, MOST_REPLY_HEAD_BYTES + bytes)
}

/// The fixed body of a status, which may be empty.
fn fixed_body(status: Status) -> &'static str
    ensures { result.now ≡ fixed_body status }
{
    match status {
        Status::BadRequest => "bad request\n",
        Status::NotFound => "not found\n",
        Status::MethodNotAllowed => "method not allowed\n",
        Status::ContentTooLarge => "too large\n",
        _ => "",
    }
}

// Adds the head of a reply whose body has this many bytes.
fn push_head(text: &mut String, status: Status, kind: ContentType, methods: &str, bytes: usize)
    requires room { string_len text.old + MOST_REPLY_HEAD_BYTES ≤ string_capacity text.old }
    requires short { length methods.now ≤ MOST_ALLOW_BYTES }
    ensures bytes { string_bytes text.new ≡ string_bytes text.old ++ reply_head status kind methods.now bytes }
    ensures len { string_len text.new ≤ string_len text.old + MOST_REPLY_HEAD_BYTES }
    ensures capacity { string_capacity text.old ≤ string_capacity text.new }
{
    let mut digits = Buffer::new();
    push_status(text, status);
    push_field(text, "Content-Type", kind.text());
    push_field(text, "Content-Length", digits.format(bytes));
    push_allow(text, methods);
    push_field(text, "Connection", "close");
    push_word(text, "\r\n");
}

// Adds the line of a status.
fn push_status(text: &mut String, status: Status)
    requires { string_len text.old + 36 ≤ string_capacity text.old }
    ensures bytes { string_bytes text.new ≡ string_bytes text.old ++ status_line status }
    ensures len { string_len text.new ≤ string_len text.old + 36 }
    ensures capacity { string_capacity text.old ≤ string_capacity text.new }
{
    let mut digits = Buffer::new();
    push_word(text, "HTTP/1.1 ");
    push_word(text, digits.format(status.number()));
    push_word(text, " ");
    push_word(text, status.phrase());
    push_word(text, "\r\n");
}

// Adds the line of the methods of a target, if there are any.
fn push_allow(text: &mut String, methods: &str)
    requires { string_len text.old + length methods.now + 9 ≤ string_capacity text.old }
    ensures bytes { string_bytes text.new ≡ string_bytes text.old ++ allow_line methods.now }
    ensures len { string_len text.new ≤ string_len text.old + length methods.now + 9 }
    ensures capacity { string_capacity text.old ≤ string_capacity text.new }
{
    if !methods.is_empty() {
        push_field(text, "Allow", methods);
    }
}

// Adds the line of a field.
fn push_field(text: &mut String, name: &str, value: &str)
    requires { string_len text.old + length name.now + length value.now + 4 ≤ string_capacity text.old }
    ensures bytes { string_bytes text.new ≡ string_bytes text.old ++ field_line name.now value.now }
    ensures len { string_len text.new ≡ string_len text.old + length name.now + length value.now + 4 }
    ensures capacity { string_capacity text.old ≤ string_capacity text.new }
{
    push_word(text, name);
    push_word(text, ": ");
    push_word(text, value);
    push_word(text, "\r\n");
}

// Adds a text for which there is room.
fn push_word(text: &mut String, word: &str)
    requires { string_len text.old + length word.now ≤ string_capacity text.old }
    ensures bytes { string_bytes text.new ≡ string_bytes text.old ++ word.now }
    ensures len { string_len text.new ≡ string_len text.old + length word.now }
    ensures capacity { string_capacity text.old ≤ string_capacity text.new }
{
    let _ = text.push_str(word);
}

/// Replies by example. Does nothing.
pub fn replies_by_example()
    ensures done { (text_reply Status.Ok (codes "done 1 moves 0\n")).bytes ≡ example.first_done }
    ensures not_allowed { (not_allowed (told_methods (asked_at Route.Project))).bytes ≡ example.other_method }
    ensures not_implemented { (plain_reply Status.NotImplemented).bytes ≡ example.head_alone }
{}
