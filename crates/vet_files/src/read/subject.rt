//! The subjects of audits.
ghost use Rattle.std.specs.Prelude.{◌≡◌};
ghost use Rattle.vet_files.specs.Audits.{audit_kind};

use vet_base::delta::Delta;
use vet_base::req::Req;
use vet_base::version::VetVersion;
use vet_entries::kind::{Audit, Kind};

/// The key that gives the subject of an audit.
#[derive(Clone, Copy)]
pub(crate) enum SubjectKey {
    Version,
    Delta,
    Violation,
}

/// The subject of an audit (The Cargo Vet Book, audit entries).
pub(crate) enum Subject {
    Full(VetVersion),
    Delta(Delta),
    Violation(Req),
}

impl Drop for Subject {
    fn drop(self) {
        match self {
            Subject::Full(_) => {}
            Subject::Delta(_) => {}
            Subject::Violation(_) => {}
        }
    }
}

impl Subject {
    /// The kind of an audit with this subject.
    pub(crate) fn with_audit(self, audit: Audit) -> Kind
        ensures { result ≡ audit_kind self audit }
    {
        match self {
            Subject::Full(version) => Kind::Full(version, audit),
            Subject::Delta(delta) => Kind::Delta(delta, audit),
            Subject::Violation(req) => Kind::Violation(req, audit),
        }
    }
}
