//! The keys that have a meaning, table by table.
ghost use Rattle.std.specs.Prelude.{◌≡◌, map, IfOk};
ghost use Rattle.toml.specs.View.{table_view};
ghost use Rattle.vet_files.specs.Keys.{is_key, keys_of, unknown_keys};
ghost use Rattle.vet_files.specs.Notices.{only_keys};

use crate::notices::Notices;
use std::alloc::AllocError;
use toml::Table;

// The keys, as the files spell them.
pub const AUDIT_AS_CRATES_IO: &str = "audit-as-crates-io";

pub const AUDITS: &str = "audits";

pub const CARGO_VET: &str = "cargo-vet";

pub const CRITERIA: &str = "criteria";

pub const CRITERIA_MAP: &str = "criteria-map";

pub const DEFAULT_CRITERIA: &str = "default-criteria";

pub const DELTA: &str = "delta";

pub const DEPENDENCY_CRITERIA: &str = "dependency-criteria";

pub const DESCRIPTION: &str = "description";

pub const DESCRIPTION_URL: &str = "description-url";

pub const DEV_CRITERIA: &str = "dev-criteria";

pub const END: &str = "end";

pub const EXCLUDE: &str = "exclude";

pub const EXEMPTIONS: &str = "exemptions";

pub const IMPLIES: &str = "implies";

pub const IMPORTABLE: &str = "importable";

pub const IMPORTS: &str = "imports";

pub const NOTES: &str = "notes";

pub const POLICY: &str = "policy";

pub const PUBLISHER: &str = "publisher";

pub const RENEW: &str = "renew";

pub const START: &str = "start";

pub const SUGGEST: &str = "suggest";

pub const TRUSTED: &str = "trusted";

pub const URL: &str = "url";

pub const USER_ID: &str = "user-id";

pub const USER_LOGIN: &str = "user-login";

pub const USER_NAME: &str = "user-name";

pub const VERSION: &str = "version";

pub const VIOLATION: &str = "violation";

pub const WHEN: &str = "when";

pub const WHO: &str = "who";

pub const WILDCARD_AUDITS: &str = "wildcard-audits";

/// The path of a file's top-level table.
pub const TOP: &str = "top";

/// The tables of the three files.
#[derive(Clone, Copy)]
pub enum TableKind {
    AuditsFile,
    Criterion,
    Audit,
    Wildcard,
    Trusted,
    ConfigFile,
    CargoVet,
    Peer,
    Policy,
    Exemption,
    ImportsFile,
    Publisher,
}

impl TableKind {
    /// The keys for which a table of this kind has a meaning.
    fn keys(self) -> &'static [&'static str]
        ensures { map (λ name. name.now) result.now ≡ keys_of self }
    {
        match self {
            TableKind::AuditsFile => &[CRITERIA, AUDITS, WILDCARD_AUDITS, TRUSTED],
            TableKind::Criterion => &[DESCRIPTION, DESCRIPTION_URL, IMPLIES],
            TableKind::Audit => &[CRITERIA, VERSION, DELTA, VIOLATION, WHO, NOTES, IMPORTABLE],
            TableKind::Wildcard => &[CRITERIA, USER_ID, START, END, WHO, RENEW, NOTES],
            TableKind::Trusted => &[CRITERIA, USER_ID, START, END, NOTES],
            TableKind::ConfigFile => &[CARGO_VET, DEFAULT_CRITERIA, IMPORTS, POLICY, EXEMPTIONS],
            TableKind::CargoVet => &[VERSION],
            TableKind::Peer => &[URL, EXCLUDE, CRITERIA_MAP],
            TableKind::Policy => &[
                AUDIT_AS_CRATES_IO,
                CRITERIA,
                DEV_CRITERIA,
                DEPENDENCY_CRITERIA,
                NOTES,
            ],
            TableKind::Exemption => &[VERSION, CRITERIA, SUGGEST, NOTES],
            TableKind::ImportsFile => &[PUBLISHER, AUDITS],
            TableKind::Publisher => &[VERSION, WHEN, USER_ID, USER_LOGIN, USER_NAME],
        }
    }

    /// Whether a table of this kind has a meaning for a key.
    pub fn has_key(self, key: &str) -> bool
        ensures { result ≡ is_key self key.now }
    {
        self.keys().contains(&key)
    }
}

/// The number of a table's keys that have no meaning.
pub(crate) fn unknown_keys(kind: TableKind, table: &Table) -> Result<Notices, AllocError>
    ensures { IfOk result (λ n. n ≡ only_keys (unknown_keys kind (table_view table.now))) }
{
    let mut notices = Notices::none();
    'keys: for (key, _value) in table.iter() {
        if !kind.has_key(key.as_str()) {
            notices = notices.and(Notices::key())?;
        }
    }
    Ok(notices)
}
