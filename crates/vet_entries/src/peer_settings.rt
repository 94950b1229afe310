//! The settings with which a peer is imported.
ghost use Rattle.std.specs.Prelude.{◌≡◌};
ghost use Rattle.vet_entries.specs.PeerSettings.{settings_eq};

use crate::criteria_map::CriteriaMap;
use std::alloc::AllocError;
use vet_base::keyed::HasKey;
use vet_base::name::Name;
use vet_base::package_names::PackageNames;
use vet_base::texts::Texts;

/// The settings with which a peer is imported (The Cargo Vet Book, config: `imports`).
pub struct PeerSettings {
    /// The name of the peer.
    pub name: Name,
    /// The urls at which its audits are published, in the order of their bytes, each once. They are texts that nothing
    /// fetches.
    pub url: Texts,
    /// The packages for which nothing is taken from the peer.
    pub exclude: PackageNames,
    /// The own criteria that each of the peer's criteria stands for.
    pub map: CriteriaMap,
}

impl Drop for PeerSettings {
    fn drop(self) {
        let PeerSettings {
            name: _,
            url: _,
            exclude: _,
            map: _,
        } = self;
    }
}

impl Clone for PeerSettings {
    ghost use Rattle.std.specs.Prelude.{◌≡◌};

    ghost is_clone = { λ a b. b ≡ a };

    fn clone(&self) -> Result<PeerSettings, AllocError> {
        Ok(PeerSettings {
            name: self.name.clone()?,
            url: self.url.clone()?,
            exclude: self.exclude.clone()?,
            map: self.map.clone()?,
        })
    }
}

impl PartialEq for PeerSettings {
    ghost use Rattle.std.specs.Cmp.{decided, partial_equiv_from_equiv};
    ghost use Rattle.std.specs.Prelude.{IsTrue, ◌↔◌, ◌≡◌};
    ghost use Rattle.vet_entries.specs.PeerSettings.{settings_eq};
    ghost use Rattle.vet_entries.specs.PeerSettingsLaws.{settings_eq-Decides};

    ghost eq = { settings_eq };

    ghost laws = { partial_equiv_from_equiv (decided settings_eq settings_eq-Decides) };

    fn eq(&self, other: &PeerSettings) -> bool
        ensures value { result ≡ settings_eq self.now other.now }
        ensures same { IsTrue result ↔ (self.now ≡ other.now) }
    {
        self.name == other.name
            && self.url == other.url
            && self.exclude == other.exclude
            && self.map == other.map
    }
}

impl Eq for PeerSettings {
    ghost use Rattle.std.specs.Cmp.{decided};
    ghost use Rattle.vet_entries.specs.PeerSettings.{settings_eq};
    ghost use Rattle.vet_entries.specs.PeerSettingsLaws.{settings_eq-Decides};

    ghost laws = { decided settings_eq settings_eq-Decides };
}

impl HasKey for PeerSettings {
    ghost use Rattle.vet_entries.specs.PeerSettings.{settings_name};

    type Key = Name;

    ghost key_of = { settings_name };

    fn key(&self) -> &Name {
        &self.name
    }
}
