//! What a register has only one of. The one row of `meta` holds it.
use vet_graph::standing::Counts;
use vet_register::tool_settings::ToolSettings;
use vet_tables::version::TablesVersion;

/// The numbers that a register has once.
#[derive(Clone, Copy)]
pub(crate) struct MetaNumbers {
    pub(crate) step: u64,
    pub(crate) next_entry: u64,
    pub(crate) next_review: u64,
    pub(crate) moves_limit: usize,
}

/// Everything that a register has only one of, and the version of its tables.
#[derive(Drop)]
pub(crate) struct Meta {
    pub(crate) version: TablesVersion,
    pub(crate) numbers: MetaNumbers,
    pub(crate) first: Counts,
    pub(crate) settings: ToolSettings,
}
