//! The texts in the keys of rows read back as the values that they are written for. What each function ensures is such
//! a fact.
ghost use Rattle.std.specs.Prelude.{◌≡◌, Some};
ghost use Rattle.vet_demand.specs.PolicyKey.{key_text, read_key};
ghost use Rattle.vet_demand.specs.declared.policies.KeyedPolicy.{KeyedPolicy};
ghost use Rattle.vet_demand.specs.declared.project.NamedProject.{NamedProject};
ghost use Rattle.vet_entries.specs.HeldPeer.{peer_name};
ghost use Rattle.vet_entries.specs.declared.held_peer.HeldPeer.{HeldPeer};
ghost use Rattle.vet_item_rows.specs.Columns.{own_peer};
ghost use Rattle.vet_register.specs.Held.{edited};
ghost use Rattle.vet_rows.specs.KeyTexts.{ArePeersNamed, KeysAreRead, MovesAreRead, NodesAreRead, PairsAreRead};
ghost use Rattle.vet_rows.specs.KeyTexts.{AddedPeerIsNamed, ProjectsAreRead, AddedProjectsAreRead};
ghost use Rattle.vet_rows.specs.KeyTexts.{ProjectsHeldAreRead};
ghost use Rattle.vet_rows.specs.KeyedItems.{added_item};

use crate::row_changes::keyed_items::added_item;
use vet_base::keyed::KeyedEdit;
use vet_base::version::version_text_reads_back;
use vet_demand::pair::Pair;
use vet_demand::policies::KeyedPolicy;
use vet_demand::policy_key::key_text_reads_back;
use vet_demand::project::NamedProject;
use vet_entries::facts::Edit;
use vet_entries::held_peer::HeldPeer;
use vet_graph::keeper::Keeper;
use vet_register::held::HeldEdit;
use vet_register::moves::RecordedMove;
use vet_register::register::Register;

/// The keys of policies read back. Does nothing.
pub fn keys_are_read(policies: &[KeyedPolicy])
    ensures { KeysAreRead policies.now }
{
    'policies: for policy in policies {
        key_text_reads_back(&policy.key);
    }
}

/// The versions of pairs read back. Does nothing.
pub fn pairs_are_read(pairs: &[Pair])
    ensures { PairsAreRead pairs.now }
{
    'pairs: for pair in pairs {
        version_text_reads_back(&pair.version);
    }
}

/// The versions of the pairs of moves read back. Does nothing.
pub fn moves_are_read(moves: &[RecordedMove])
    ensures { MovesAreRead moves.now }
{
    'moves: for recorded in moves {
        version_text_reads_back(&recorded.change.pair.version);
    }
}

/// No peer has an empty name. Does nothing.
pub fn peers_are_named(peers: &[HeldPeer])
    ensures { ArePeersNamed peers.now }
{
    'peers: for peer in peers {
        let _ = peer.settings.name.as_str();
    }
}

/// The versions of a project's nodes read back. Does nothing.
pub fn nodes_are_read(named: &NamedProject)
    ensures { NodesAreRead named.now }
{
    let nodes = named.project.nodes();
    'each: for node in nodes {
        version_text_reads_back(&node.version);
    }
}

/// The versions of the nodes of some projects read back. Does nothing.
pub fn projects_are_read(projects: &[NamedProject])
    ensures { ProjectsAreRead projects.now }
{
    'projects: for project in projects {
        nodes_are_read(project);
    }
}

/// The versions of the nodes of held projects read back, if an edit is of one of these. Does nothing.
pub fn projects_held_are_read(projects: &[NamedProject], edit: &HeldEdit)
    ensures { ProjectsHeldAreRead edit.now projects.now }
{
    if let HeldEdit::Projects(_) = edit {
        projects_are_read(projects);
    }
}

/// The versions of the nodes of a project that an edit adds read back. Does nothing.
pub fn projects_added_are_read(edit: &HeldEdit)
    ensures { AddedProjectsAreRead edit.now }
{
    if let HeldEdit::Projects(change) = edit {
        project_added_is_read(change);
    }
}

fn project_added_is_read(change: &KeyedEdit<NamedProject>)
    ensures { (p : NamedProject) → added_item change.now ≡ Some p → NodesAreRead p }
{
    if let Some(named) = added_item(change) {
        nodes_are_read(named);
    }
}

/// The keys of policies after an edit read back. Does nothing.
pub fn keys_after_are_read<K: Keeper>(register: &Register<K>, edit: &HeldEdit)
    ensures { KeysAreRead (edited edit.now register.now.state.held).policies }
{
    keys_are_read(register.policies());
    match edit {
        HeldEdit::Policies(change) => key_added_is_read(change),
        HeldEdit::Files(files) => keys_are_read(files.policies.items()),
        _ => {}
    }
}

fn key_added_is_read(change: &KeyedEdit<KeyedPolicy>)
    ensures { (p : KeyedPolicy) → added_item change.now ≡ Some p → read_key (key_text p.key) ≡ Some p.key }
{
    if let Some(policy) = added_item(change) {
        key_text_reads_back(&policy.key);
    }
}

/// No peer has an empty name after an edit. Does nothing.
pub fn peers_after_are_named<K: Keeper>(register: &Register<K>, edit: &HeldEdit)
    ensures { ArePeersNamed (edited edit.now register.now.state.held).facts.peers }
{
    peers_are_named(register.peers());
    match edit {
        HeldEdit::Facts(edit) => peer_added_is_named(edit),
        HeldEdit::Files(files) => peers_are_named(files.facts.peers()),
        HeldEdit::Policies(_) => {}
        HeldEdit::Projects(_) => {}
        HeldEdit::Nothing => {}
    }
}

fn peer_added_is_named(edit: &Edit)
    ensures { AddedPeerIsNamed edit.now }
{
    match edit {
        Edit::Peer(change) => peer_put_is_named(change),
        Edit::Settings(settings) => {
            let _ = settings.name.as_str();
        }
        _ => {}
    }
}

fn peer_put_is_named(change: &KeyedEdit<HeldPeer>)
    ensures { (p : HeldPeer) → added_item change.now ≡ Some p → peer_name p ≡ own_peer → ⊥ }
{
    if let Some(peer) = added_item(change) {
        let _ = peer.settings.name.as_str();
    }
}
