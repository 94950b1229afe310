//! The table of a config file.
ghost use Rattle.std.specs.FinSet as set;
ghost use Rattle.std.specs.List.{All};
ghost use Rattle.std.specs.Prelude.{◌≡◌, codes, IfOk, OnOk, option_map};
ghost use Rattle.std.specs.Option.{IfSome};
ghost use Rattle.toml.specs.Data.{no_members, string, table};
ghost use Rattle.toml.specs.View.{table_view};
ghost use Rattle.vet_demand.specs.PolicyKey.{key_text};
ghost use Rattle.vet_files.specs.ConfigTable.{cargo_vet_table, config_table, exemptions_table, peer_table};
ghost use Rattle.vet_files.specs.ConfigTable.{policy_table};
ghost use Rattle.vet_files.specs.EntryTables.{listed_entries};
ghost use Rattle.vet_files.specs.Field.{a_text};
ghost use Rattle.vet_files.specs.Tables.{with_key};
ghost use Rattle.vet_files.specs.ReadAgain.{IsReadAs, ReadsConfig, ReadsEntry, ReadsPeer, ReadsPolicy};

use crate::config_file::ConfigContent;
use crate::keys::{CARGO_VET, DEFAULT_CRITERIA, EXEMPTIONS, IMPORTS, POLICY};
use crate::write::config_records::{cargo_vet_table, peer_table, policy_table};
use crate::write::lists_by_package::package_lists;
use crate::write::members::{Member, WriteMember, write_members};
use crate::write::put::{put_some, put_unless_empty, put_value};
use crate::write::sections::Listing;
use std::alloc::{AllocError, Global};
use toml::{Table, Value};
use vet_base::package_names::PackageNames;
use vet_base::text::Text;
use vet_demand::policies::KeyedPolicy;
use vet_entries::entry::Entry;
use vet_entries::peer_settings::PeerSettings;

/// Writes the settings of peers, each at its name.
#[derive(Drop)]
struct WritePeers {}

impl WriteMember for WritePeers {
    type Item = PeerSettings;

    ghost name = { λ p. p.name };

    ghost written = { λ w p. table (peer_table p) };

    ghost Reads = { λ w p. ReadsPeer p };

    fn write(&self, alloc: Global, peer: &PeerSettings) -> Result<Member, AllocError> {
        Ok(Member {
            name: String::from_str(alloc, peer.name.as_str())?,
            value: Value::Table(peer_table(alloc, peer)?),
        })
    }
}

/// Writes policies, each at the text of its key.
#[derive(Drop)]
struct WritePolicies {}

impl WriteMember for WritePolicies {
    type Item = KeyedPolicy;

    ghost name = { λ p. key_text p.key };

    ghost written = { λ w p. table (policy_table p.policy) };

    ghost Reads = { λ w p. ReadsPolicy p };

    fn write(&self, alloc: Global, policy: &KeyedPolicy) -> Result<Member, AllocError> {
        Ok(Member {
            name: policy.key.to_string(alloc)?,
            value: Value::Table(policy_table(alloc, policy)?),
        })
    }
}

/// The table of a config file.
pub(crate) fn config_table(alloc: Global, content: &ConfigContent) -> Result<Table, AllocError>
    ensures table { IfOk result (λ t. table_view t ≡ config_table content.now) }
    ensures read { IfOk result (λ t. ReadsConfig content.now) }
{
    let mut file = Table::new(alloc);
    fill_config(alloc, &mut file, content)?;
    Ok(file)
}

/// Puts the content of a config file into its table.
fn fill_config(alloc: Global, file: &mut Table, content: &ConfigContent) -> Result<(), AllocError>
    requires { table_view file.old ≡ no_members }
    ensures table { OnOk result (table_view file.new ≡ config_table content.now) }
    ensures read { OnOk result (ReadsConfig content.now) }
{
    put_version(alloc, file, &content.vet_version)?;
    put_some(
        alloc,
        file,
        DEFAULT_CRITERIA,
        content.default_criteria.as_ref(),
    )?;
    let exemptions = exemptions_table(alloc, content.exemptions.as_slice())?;
    put_unless_empty(alloc, file, EXEMPTIONS, exemptions)?;
    let peers = write_members(alloc, &WritePeers {}, content.peers.as_slice())?;
    put_unless_empty(alloc, file, IMPORTS, peers)?;
    let policies = write_members(alloc, &WritePolicies {}, content.policies.as_slice())?;
    put_unless_empty(alloc, file, POLICY, policies)?;
    Ok(())
}

/// Puts the table `cargo-vet`, if a version is held.
fn put_version(alloc: Global, file: &mut Table, version: &Option<Text>) -> Result<(), AllocError>
    ensures put { OnOk result (table_view file.new
        ≡ with_key (table_view file.old) (codes "cargo-vet")
        (option_map (λ v. table (cargo_vet_table v)) version.now)) }
    ensures read { OnOk result (IfSome version.now (λ v. IsReadAs a_text (string v) v)) }
{
    let Some(version) = version else {
        return Ok(());
    };
    let inner = cargo_vet_table(alloc, version)?;
    put_value(alloc, file, CARGO_VET, Value::Table(inner))
}

/// The lists of exemptions.
fn exemptions_table(alloc: Global, exemptions: &[Entry]) -> Result<Table, AllocError>
    ensures table { IfOk result (λ t. table_view t ≡ exemptions_table exemptions.now) }
    ensures read { IfOk result (λ t. All ReadsEntry (listed_entries Listing.Exemptions set.empty exemptions.now)) }
{
    let none = PackageNames::new(alloc);
    package_lists(alloc, Listing::Exemptions, &none, exemptions)
}
