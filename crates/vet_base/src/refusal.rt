//! The reasons for which a call is refused.
ghost use Rattle.std.specs.Prelude.{◌≡◌};
ghost use Rattle.vet_base.specs.Refusal.{limit_word, refusal_name, refusal_number};

use crate::key_text::KeyText;
use crate::name::Name;
use std::alloc::{AllocError, AllocFailed};

/// The reason for which a call is refused, in the order of the refusals' numbers. The fields of a refusal are what it
/// reports besides its number and name.
#[derive(Drop, PartialEq, Eq)]
pub enum Refusal {
    /// A text is not a name.
    BadName,
    /// A text is not a version.
    BadVersion,
    /// A text is not a version requirement.
    BadRequirement,
    /// A text is not a day.
    BadDay,
    /// A text is not a delta between two versions.
    BadDelta,
    /// No criterion has this name.
    UnknownCriterion(Name),
    /// A built-in criterion would be set or removed.
    BuiltInCriterion,
    /// Something that is held names the criterion.
    CriterionInUse,
    /// There would be more criteria than a table can hold.
    TooManyCriteria,
    /// No own entry has this number.
    UnknownEntry,
    /// The last day of a window is before its first, or that of an exemption before the day of the command.
    EmptyWindow,
    /// The last day of a window is more than 366 days after the day of the command.
    WindowTooLong,
    /// No peer has this name.
    UnknownPeer,
    /// No policy has this key.
    UnknownPolicy,
    /// No project has this name.
    UnknownProject,
    /// An edge in this record of a dependency table names a node that the table lacks.
    UnknownNode(u64),
    /// A node in this record of a dependency table is third-party here and was first-party in an earlier record, or
    /// the other way round.
    TwoParties(u64),
    /// Something exceeds its limit.
    TooLarge(Limit),
    /// No member has this name.
    UnknownMember,
    /// No review has this number.
    UnknownReview,
    /// The review is finished or withdrawn.
    ReviewClosed,
    /// The review would be finished by anyone other than the member it is assigned to, or withdrawn while it is
    /// assigned to another.
    NotYours,
    /// The entry that would finish the review does not end in its version.
    WrongTarget,
    /// A review would be opened without criteria, or of a pair that no project demands.
    NotDemanded,
    /// There is no room for the moves that the command would record.
    MovesFull,
    /// The bytes are not a TOML document.
    TomlRefused,
    /// The bytes are not a dependency table, because of this record.
    CsvRefused(u64),
    /// The value in this table at this key does not belong there, or is missing.
    FieldRefused(KeyText, KeyText),
    /// Memory ran out.
    NoMemory,
    /// The store refused.
    StoreRefused,
    /// The tables are not those of a register.
    NotARegister,
    /// The day of `SetDay` is before the register's day.
    DayGoesBack,
}

/// The thing that exceeds its limit. The limits are in `limits`.
#[derive(Clone, Copy, PartialEq, Eq)]
pub enum Limit {
    /// A free text.
    Text,
    /// The further criteria in the file of a peer.
    PeerCriteria,
    /// The nodes of a project.
    Nodes,
    /// The edges of a project.
    Edges,
    /// The peers.
    Peers,
    /// The entries.
    Entries,
    /// The publisher records.
    Publishers,
    /// The policies.
    Policies,
    /// The projects.
    Projects,
    /// The members.
    Members,
    /// The reviews.
    Reviews,
    /// A file, standard input or a body.
    Input,
    /// The step of the register.
    Step,
    /// The number of an entry or of a review.
    Number,
}

impl Limit {
    /// The word that a refusal prints.
    pub fn word(self) -> &'static str
        ensures { result.now ≡ limit_word self }
    {
        match self {
            Limit::Text => "text",
            Limit::PeerCriteria => "peer-criteria",
            Limit::Nodes => "nodes",
            Limit::Edges => "edges",
            Limit::Peers => "peers",
            Limit::Entries => "entries",
            Limit::Publishers => "publishers",
            Limit::Policies => "policies",
            Limit::Projects => "projects",
            Limit::Members => "members",
            Limit::Reviews => "reviews",
            Limit::Input => "input",
            Limit::Step => "step",
            Limit::Number => "number",
        }
    }
}

impl Refusal {
    /// The refusal's number, from 1 to 32.
    pub fn number(&self) -> u8
        ensures { result ≡ refusal_number self.now }
    {
        let RefusalRow(number, _) = self.row();
        number
    }

    /// The refusal's name.
    pub fn name(&self) -> &'static str
        ensures { result.now ≡ refusal_name self.now }
    {
        let RefusalRow(_, name) = self.row();
        name
    }

    fn row(&self) -> RefusalRow
        ensures number { result.0 ≡ refusal_number self.now }
        ensures name { result.1.now ≡ refusal_name self.now }
    {
        match self {
            Refusal::BadName => RefusalRow(1, "BadName"),
            Refusal::BadVersion => RefusalRow(2, "BadVersion"),
            Refusal::BadRequirement => RefusalRow(3, "BadRequirement"),
            Refusal::BadDay => RefusalRow(4, "BadDay"),
            Refusal::BadDelta => RefusalRow(5, "BadDelta"),
            Refusal::UnknownCriterion(_) => RefusalRow(6, "UnknownCriterion"),
            Refusal::BuiltInCriterion => RefusalRow(7, "BuiltInCriterion"),
            Refusal::CriterionInUse => RefusalRow(8, "CriterionInUse"),
            Refusal::TooManyCriteria => RefusalRow(9, "TooManyCriteria"),
            Refusal::UnknownEntry => RefusalRow(10, "UnknownEntry"),
            Refusal::EmptyWindow => RefusalRow(11, "EmptyWindow"),
            Refusal::WindowTooLong => RefusalRow(12, "WindowTooLong"),
            Refusal::UnknownPeer => RefusalRow(13, "UnknownPeer"),
            Refusal::UnknownPolicy => RefusalRow(14, "UnknownPolicy"),
            Refusal::UnknownProject => RefusalRow(15, "UnknownProject"),
            Refusal::UnknownNode(_) => RefusalRow(16, "UnknownNode"),
            Refusal::TwoParties(_) => RefusalRow(17, "TwoParties"),
            Refusal::TooLarge(_) => RefusalRow(18, "TooLarge"),
            Refusal::UnknownMember => RefusalRow(19, "UnknownMember"),
            Refusal::UnknownReview => RefusalRow(20, "UnknownReview"),
            Refusal::ReviewClosed => RefusalRow(21, "ReviewClosed"),
            Refusal::NotYours => RefusalRow(22, "NotYours"),
            Refusal::WrongTarget => RefusalRow(23, "WrongTarget"),
            Refusal::NotDemanded => RefusalRow(24, "NotDemanded"),
            Refusal::MovesFull => RefusalRow(25, "MovesFull"),
            Refusal::TomlRefused => RefusalRow(26, "TomlRefused"),
            Refusal::CsvRefused(_) => RefusalRow(27, "CsvRefused"),
            Refusal::FieldRefused(_, _) => RefusalRow(28, "FieldRefused"),
            Refusal::NoMemory => RefusalRow(29, "NoMemory"),
            Refusal::StoreRefused => RefusalRow(30, "StoreRefused"),
            Refusal::NotARegister => RefusalRow(31, "NotARegister"),
            Refusal::DayGoesBack => RefusalRow(32, "DayGoesBack"),
        }
    }
}

// A row of the table of refusals: the number, and the name.
struct RefusalRow(u8, &'static str);

impl From<AllocError> for Refusal {
    ghost use Rattle.vet_base.specs.declared.refusal.Refusal.TheVariants.{NoMemory};

    ghost from_gives = { λ _ e. e ≡ NoMemory };

    fn from(_error: AllocError) -> Refusal {
        Refusal::NoMemory
    }
}

impl<T: Drop> From<AllocFailed<T>> for Refusal {
    ghost use Rattle.vet_base.specs.declared.refusal.Refusal.TheVariants.{NoMemory};

    ghost from_gives = { λ _ e. e ≡ NoMemory };

    fn from(_error: AllocFailed<T>) -> Refusal {
        Refusal::NoMemory
    }
}
