//! Config files.
ghost use Rattle.std.specs.Prelude.{◌≡◌, IfErr, IfOk, Some, string_bytes};
ghost use Rattle.toml.specs.Parse.{parse_document};
ghost use Rattle.toml.specs.View.{table_view};
ghost use Rattle.vet_base.specs.Gives.{Gives};
ghost use Rattle.vet_files.specs.Config.{config_file_told, config_lists_told, config_told, vet_version_told};
ghost use Rattle.vet_files.specs.ConfigTable.{config_table};
ghost use Rattle.vet_files.specs.Notices.{sum_of_notices};
ghost use Rattle.vet_files.specs.ReadAgain.{GivesBack};
ghost use Rattle.vet_files.specs.SameContent.{AreUndated, IsConfig, SameConfig};

use crate::field::optional;
use crate::found::Found;
use crate::keys::{CARGO_VET, DEFAULT_CRITERIA, EXEMPTIONS, TOP, TableKind, VERSION, unknown_keys};
use crate::listed::Listed;
use crate::notices::Notices;
use crate::read::document::{read_document, table_at};
use crate::read::package_entries::{ReadEntry, read_entries};
use crate::read::peers::read_peers;
use crate::read::policies::read_policies;
use crate::write::config_table::config_table;
use crate::write::print::print;
use std::alloc::Global;
use toml::Table;
use vet_base::names::Names;
use vet_base::refusal::Refusal;
use vet_base::text::Text;
use vet_demand::policies::Policies;
use vet_entries::entry::Entry;
use vet_entries::peer_settings::PeerSettings;

/// The content of a config file: peers in the order of their names' bytes, policies in the order of their keys, and
/// exemptions in the order of reading, each once. They may include exemptions with a last day, which no file has.
#[derive(Drop)]
pub struct ConfigContent {
    /// The version of cargo-vet that the file names.
    pub vet_version: Option<Text>,
    /// The criteria of a new audit for which no others are given. None of them is looked up.
    pub default_criteria: Option<Names>,
    pub peers: Listed<PeerSettings>,
    pub policies: Policies,
    pub exemptions: Listed<Entry>,
}

/// Reads the content of a config file (The Cargo Vet Book, config file).
///
/// Refused: `TomlRefused` if the bytes are not a TOML document in UTF-8; otherwise the first fault of the walk, which
/// is `FieldRefused` if something does not belong in its place or is missing, or `TooLarge` with `text` if a text is
/// too long. `NoMemory` can come at any point.
pub fn read_config(alloc: Global, bytes: &[u8]) -> Result<Found<ConfigContent>, Refusal>
    ensures told { Gives (λ f. f) (config_told bytes.now) result }
    ensures stands { IfOk result (λ f. IsConfig f.content) }
    ensures undated { IfOk result (λ f. AreUndated f.content.exemptions) }
{
    let file = read_document(alloc, bytes)?;
    read_config_file(alloc, &file)
}

/// Writes a config file of some content (The Cargo Vet Book, config file; its layout is that of `toml`). Its table is
/// `config_table` of the content. If a config file can give the content, the text is read back as the same content.
/// Exemptions with a last day are left out.
///
/// Refused: `NoMemory`.
pub fn write_config(alloc: Global, content: &ConfigContent) -> Result<String, Refusal>
    ensures table { IfOk result (λ s. parse_document (string_bytes s) ≡ Some (config_table content.now)) }
    ensures read { IfOk result (λ s.
        IsConfig content.now → GivesBack config_told (SameConfig content.now) (string_bytes s)) }
    ensures memory { IfErr result (λ e. e ≡ Refusal.NoMemory) }
{
    let file = config_table(alloc, content)?;
    print(alloc, &file)
}

/// The content of a config file's table.
fn read_config_file(alloc: Global, file: &Table) -> Result<Found<ConfigContent>, Refusal>
    ensures { Gives (λ f. f) (config_file_told (table_view file.now)) result }
{
    let mut content = ConfigContent {
        vet_version: None,
        default_criteria: None,
        peers: Listed::new(alloc),
        policies: Policies::new(alloc),
        exemptions: Listed::new(alloc),
    };
    let notices = fill_content(alloc, file, &mut content)?;
    Ok(Found { content, notices })
}

/// Fills a content from the table of a config file, and returns the counts of what is ignored.
fn fill_content(
    alloc: Global,
    file: &Table,
    content: &mut ConfigContent,
) -> Result<Notices, Refusal>
    ensures { Gives (λ notices. record { content = content.new; notices = notices })
        (config_file_told (table_view file.now)) result }
{
    let keys = unknown_keys(TableKind::ConfigFile, file)?;
    let version = read_vet_version(alloc, file)?;
    content.vet_version = version.content;
    content.default_criteria = optional(alloc, TOP, file, DEFAULT_CRITERIA)?;
    fill_lists(alloc, file, content, version.notices, keys)
}

/// Fills the lists of a content that has the rest. Returns the counts of what is ignored, including `settings` and
/// `keys`, which were counted before.
fn fill_lists(
    alloc: Global,
    file: &Table,
    content: &mut ConfigContent,
    settings: Notices,
    keys: Notices,
) -> Result<Notices, Refusal>
    ensures { Gives (λ notices. record { content = content.new; notices = notices })
        (config_lists_told content.old.vet_version content.old.default_criteria settings keys
        (table_view file.now)) result }
{
    let peers = read_peers(alloc, file)?;
    content.peers = peers.content;
    let policies = read_policies(alloc, file)?;
    content.policies = policies.content;
    let exemptions = read_entries(alloc, ReadEntry::Exemptions, TOP, "", EXEMPTIONS, file)?;
    content.exemptions = exemptions.content;
    let settings = settings.and(peers.notices)?;
    with_rules(settings, policies.notices, exemptions.notices, keys)
}

/// The counts of what was ignored in the settings, in both kinds of rules, and among the keys.
fn with_rules(
    settings: Notices,
    policies: Notices,
    exemptions: Notices,
    keys: Notices,
) -> Result<Notices, Refusal>
    ensures ok { IfOk result (λ n.
        n ≡ sum_of_notices (sum_of_notices settings (sum_of_notices policies exemptions)) keys) }
    ensures memory { IfErr result (λ e. e ≡ Refusal.NoMemory) }
{
    let rules = policies.and(exemptions)?;
    Ok(settings.and_both(rules, keys)?)
}

/// The version of cargo-vet that the file names.
fn read_vet_version(alloc: Global, file: &Table) -> Result<Found<Option<Text>>, Refusal>
    ensures { Gives (λ f. f) (vet_version_told (table_view file.now)) result }
{
    let Some(table) = table_at(alloc, TOP, file, CARGO_VET)? else {
        return Ok(Found {
            content: None,
            notices: Notices::none(),
        });
    };
    let notices = unknown_keys(TableKind::CargoVet, table)?;
    let content = optional(alloc, CARGO_VET, table, VERSION)?;
    Ok(Found { content, notices })
}
