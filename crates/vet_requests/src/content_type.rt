//! The kinds of text that the body of a reply can be.
ghost use Rattle.std.specs.Prelude.{◌≡◌, ◌≤◌, length};
ghost use Rattle.vet_requests.specs.Reply.{type_text};

/// The kind of text that a body is.
#[derive(Clone, Copy)]
pub enum ContentType {
    /// Lines for people. An empty body is of this kind too.
    Text,
    /// CSV (RFC 4180).
    Csv,
    /// TOML.
    Toml,
}

impl ContentType {
    /// The value of the field `Content-Type` (RFC 9110, media type).
    pub fn text(self) -> &'static str
        ensures text { result.now ≡ type_text self }
        ensures short { length result.now ≤ 25 }
    {
        match self {
            ContentType::Text => "text/plain; charset=utf-8",
            ContentType::Csv => "text/csv; charset=utf-8",
            ContentType::Toml => "application/toml",
        }
    }
}
