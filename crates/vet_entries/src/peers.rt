//! Lists of held peers: exchanges of settings and content, and the criteria to which their maps lead.
ghost use Rattle.std.specs.List.{list_any};
ghost use Rattle.std.specs.Prelude.{◌≡◌, true, is_some};
ghost use Rattle.vet_entries.specs.Facts.{is_target_of};
ghost use Rattle.vet_entries.specs.HeldPeer.{peer_of, with_content, with_settings};
ghost use Rattle.vet_entries.specs.Numbered.{AreByNumber};

use crate::held_peer::HeldPeer;
use crate::holding::Holding;
use crate::peer_settings::PeerSettings;
use vet_base::keyed::Keyed;
use vet_base::name::Name;

/// Puts settings in place of those of the held peer with their name, and returns the earlier ones. Asks that there is
/// one.
pub(crate) fn exchange_settings(peers: &mut Keyed<HeldPeer>, settings: PeerSettings) -> PeerSettings
    requires { is_some (peer_of peers.old.items settings.name) ≡ true }
    ensures items { peers.new.items ≡ with_settings settings peers.old.items }
    ensures room { peers.new.room ≡ peers.old.room }
    ensures name { result.name ≡ settings.name }
    ensures back { with_settings result peers.new.items ≡ peers.old.items }
{
    let _ = peers.items();
    match peers.take(&settings.name) {
        Some(peer) => {
            let (held, content) = peer.into_parts();
            peers.put_reserved(HeldPeer { settings, content });
            held
        }
        None => unreachable!(),
    }
}

/// Puts a content in place of that of the held peer with a name, and returns the earlier one. Asks that there is one.
pub(crate) fn exchange_content(
    peers: &mut Keyed<HeldPeer>,
    name: &Name,
    content: Holding,
) -> Holding
    requires { is_some (peer_of peers.old.items name.now) ≡ true }
    ensures items { peers.new.items ≡ with_content name.now content peers.old.items }
    ensures room { peers.new.room ≡ peers.old.room }
    ensures back { with_content name.now result peers.new.items ≡ peers.old.items }
    ensures by_number { AreByNumber result.entries }
{
    let _ = peers.items();
    match peers.take(name) {
        Some(peer) => {
            let (settings, held) = peer.into_parts();
            peers.put_reserved(HeldPeer { settings, content });
            let _ = held.entries();
            held
        }
        None => unreachable!(),
    }
}

/// Whether the map of any of some peers leads to a criterion.
pub(crate) fn leads_to(peers: &[HeldPeer], name: &Name) -> bool
    ensures { result ≡ list_any (is_target_of name.now) peers.now }
{
    peers.iter().any(|peer| peer.settings.map.leads_to(name))
}
