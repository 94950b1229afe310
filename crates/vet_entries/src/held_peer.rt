//! Held peers.
ghost use Rattle.std.specs.Prelude.{◌≡◌};
ghost use Rattle.vet_entries.specs.HeldPeer.{peer_name};

use crate::holding::Holding;
use crate::peer_settings::PeerSettings;
use vet_base::keyed::HasKey;
use vet_base::name::Name;

/// A peer: the settings with which it is imported, and the content imported from it.
pub struct HeldPeer {
    pub settings: PeerSettings,
    pub content: Holding,
}

impl Drop for HeldPeer {
    fn drop(self) {
        let HeldPeer {
            settings: _,
            content: _,
        } = self;
    }
}

impl HeldPeer {
    pub(crate) fn into_parts(self) -> (PeerSettings, Holding)
        ensures settings { result.0 ≡ self.settings }
        ensures content { result.1 ≡ self.content }
    {
        let HeldPeer { settings, content } = self;
        (settings, content)
    }
}

impl HasKey for HeldPeer {
    type Key = Name;

    ghost key_of = { peer_name };

    fn key(&self) -> &Name {
        &self.settings.name
    }
}
