//! The words of commands, and of the kinds of entries.
ghost use Rattle.std.specs.Prelude.{◌≡◌};
ghost use Rattle.vet_documents.specs.CommandWord.{beside, commands, desk_commands, kinds};

/// The command of a document, by its word.
#[derive(Clone, Copy)]
pub(crate) enum CommandWord {
    SetCriterion,
    RemoveCriterion,
    AddEntry,
    DropEntry,
    SetPolicy,
    DropPolicy,
    SetPeer,
    DropPeer,
    ImportPeer,
    SetPublishers,
    LoadProject,
    DropProject,
    ReplaceFiles,
    ClosePeriod,
    SetDay,
    AddMember,
    OpenReview,
    AssignReview,
    FinishReview,
    WithdrawReview,
}

impl CommandWord {
    /// The command of a word. A new command adds a row here, and a row in the reader of documents.
    pub(crate) fn of_word(word: &str) -> Option<CommandWord>
        ensures { result ≡ beside word.now commands }
    {
        match word {
            "set-criterion" => Some(CommandWord::SetCriterion),
            "remove-criterion" => Some(CommandWord::RemoveCriterion),
            "add-entry" => Some(CommandWord::AddEntry),
            "drop-entry" => Some(CommandWord::DropEntry),
            "set-policy" => Some(CommandWord::SetPolicy),
            "drop-policy" => Some(CommandWord::DropPolicy),
            "set-peer" => Some(CommandWord::SetPeer),
            "drop-peer" => Some(CommandWord::DropPeer),
            "import-peer" => Some(CommandWord::ImportPeer),
            "set-publishers" => Some(CommandWord::SetPublishers),
            "load-project" => Some(CommandWord::LoadProject),
            "drop-project" => Some(CommandWord::DropProject),
            "replace-files" => Some(CommandWord::ReplaceFiles),
            "close-period" => Some(CommandWord::ClosePeriod),
            "set-day" => Some(CommandWord::SetDay),
            _ => CommandWord::of_desk_word(word),
        }
    }

    /// The command of a word, among those to the review desk.
    fn of_desk_word(word: &str) -> Option<CommandWord>
        ensures { result ≡ beside word.now desk_commands }
    {
        match word {
            "add-member" => Some(CommandWord::AddMember),
            "open-review" => Some(CommandWord::OpenReview),
            "assign-review" => Some(CommandWord::AssignReview),
            "finish-review" => Some(CommandWord::FinishReview),
            "withdraw-review" => Some(CommandWord::WithdrawReview),
            _ => None,
        }
    }
}

/// The kind of an entry, by its word.
#[derive(Clone, Copy)]
pub(crate) enum KindWord {
    Full,
    Delta,
    Violation,
    Wildcard,
    Trusted,
    Exemption,
}

impl KindWord {
    /// The kind of a word.
    pub(crate) fn of_word(word: &str) -> Option<KindWord>
        ensures { result ≡ beside word.now kinds }
    {
        match word {
            "full" => Some(KindWord::Full),
            "delta" => Some(KindWord::Delta),
            "violation" => Some(KindWord::Violation),
            "wildcard" => Some(KindWord::Wildcard),
            "trusted" => Some(KindWord::Trusted),
            "exemption" => Some(KindWord::Exemption),
            _ => None,
        }
    }
}
