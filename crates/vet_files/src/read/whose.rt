//! The authors of audits files.

/// The author whose words an audits file uses.
#[derive(Clone, Copy)]
pub(crate) enum Whose {
    /// The organisation itself.
    Ours,
    /// A peer. Its trusted publishers, and audits that are not importable, are skipped.
    Peers,
}
