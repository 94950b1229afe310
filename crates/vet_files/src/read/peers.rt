//! The peers of a config file.
ghost use Rattle.toml.specs.View.{table_view};
ghost use Rattle.vet_base.specs.Gives.{Gives};
ghost use Rattle.vet_files.specs.Config.{peer_told, peers_told};

use crate::field::{optional, required};
use crate::found::Found;
use crate::keys::{CRITERIA_MAP, EXCLUDE, IMPORTS, TableKind, URL, unknown_keys};
use crate::listed::Listed;
use crate::read::named_tables::{NamedTable, ReadNamed, named_tables};
use std::alloc::Global;
use toml::Table;
use vet_base::name::Name;
use vet_base::package_names::PackageNames;
use vet_base::refusal::Refusal;
use vet_entries::criteria_map::CriteriaMap;
use vet_entries::peer_settings::PeerSettings;

/// The peers of a config file, in the order of their names' bytes.
pub(crate) fn read_peers(
    alloc: Global,
    file: &Table,
) -> Result<Found<Listed<PeerSettings>>, Refusal>
    ensures { Gives (λ f. f) (peers_told (table_view file.now)) result }
{
    named_tables(alloc, &ReadPeer {}, file, IMPORTS)
}

/// Reads the settings of a peer.
#[derive(Drop)]
struct ReadPeer {}

impl ReadNamed for ReadPeer {
    type Item = PeerSettings;

    ghost told = { λ r. peer_told };

    fn read(
        &self,
        alloc: Global,
        at: NamedTable<'_>,
    ) -> Result<Found<Option<PeerSettings>>, Refusal> {
        let notices = unknown_keys(TableKind::Peer, at.table)?;
        let url = required(alloc, at.path, at.table, URL)?;
        let exclude: Option<PackageNames> = optional(alloc, at.path, at.table, EXCLUDE)?;
        let map: Option<CriteriaMap> = optional(alloc, at.path, at.table, CRITERIA_MAP)?;
        Ok(Found {
            notices,
            content: Some(PeerSettings {
                name: at.name,
                url,
                exclude: exclude.unwrap_or(PackageNames::new(alloc)),
                map: map.unwrap_or(CriteriaMap::new(alloc)),
            }),
        })
    }
}
