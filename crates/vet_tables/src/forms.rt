//! The forms of the fourteen tables, as data.
//!
//! A column of texts or of names holds their bytes. A column that holds many values holds them as a packed list; an
//! optional value is a packed list of none or one. A map is a packed list of keys and packed lists in turn, in the
//! order of the keys. A day is its number of days after 1970-01-01. An optional boolean is -1 if it is absent, 0 for
//! false and 1 for true. Classes are 0 to 4 in their order: conflicting, full, partial, exempted, unvetted; 5 means
//! none.
ghost use Rattle.std.specs.Prelude.{◌≡◌};
ghost use Rattle.vet_tables.specs.Forms.{form_of};
ghost use Rattle.vet_tables.specs.declared.table_name.DaysTable.TheVariants as days;
ghost use Rattle.vet_tables.specs.declared.table_name.DemandTable.TheVariants as demand;
ghost use Rattle.vet_tables.specs.declared.table_name.DeskTable.TheVariants as desk;
ghost use Rattle.vet_tables.specs.declared.table_name.FactsTable.TheVariants as facts;
ghost use Rattle.vet_tables.specs.declared.table_name.TableName.TheVariants as table;

use crate::form::Form;
use sqlite_schema::schema::Kind;

/// What there is one of.
pub(crate) fn meta() -> Form
    ensures { result ≡ form_of table.Meta }
{
    Form {
        name: "meta",
        columns: &[
            // Always 1.
            ("one", Kind::Integer),
            // The version of the tables: 2, or 1 if `today` and `lasts` are missing.
            ("version", Kind::Integer),
            // How many commands were accepted.
            ("step", Kind::Integer),
            // The numbers that the next entry and the next review get, from 1.
            ("next_entry", Kind::Integer),
            ("next_review", Kind::Integer),
            // The most moves that are recorded.
            ("moves_limit", Kind::Integer),
            // How many pairs of each class there were when the period began.
            ("first0", Kind::Integer),
            ("first1", Kind::Integer),
            ("first2", Kind::Integer),
            ("first3", Kind::Integer),
            ("first4", Kind::Integer),
            // The version of cargo-vet that the config file names, if any.
            ("vet_version", Kind::Blob),
            // The packed list of the criteria that a new audit has by default, if any.
            ("default_criteria", Kind::Blob),
        ],
        key: 1,
        key_index: "sqlite_autoindex_meta_1",
        create: "CREATE TABLE meta (one INTEGER NOT NULL, version INTEGER NOT NULL, step INTEGER \
            NOT NULL, next_entry INTEGER NOT NULL, next_review INTEGER NOT NULL, moves_limit \
            INTEGER NOT NULL, first0 INTEGER NOT NULL, first1 INTEGER NOT NULL, first2 INTEGER \
            NOT NULL, first3 INTEGER NOT NULL, first4 INTEGER NOT NULL, vet_version BLOB NOT \
            NULL, default_criteria BLOB NOT NULL, PRIMARY KEY (one)) STRICT",
        insert: "INSERT INTO meta VALUES (?, ?, ?, ?, ?, ?, ?, ?, ?, ?, ?, ?, ?)",
        delete: "DELETE FROM meta WHERE one = ?",
        clear: "DELETE FROM meta",
        select: "SELECT rowid, * FROM meta ORDER BY rowid",
    }
}

/// Own criteria and those of peers.
pub(crate) fn criteria() -> Form
    ensures { result ≡ form_of (table.Facts facts.Criteria) }
{
    Form {
        name: "criteria",
        columns: &[
            // The peer whose criterion it is, empty for our own.
            ("peer", Kind::Text),
            ("name", Kind::Text),
            ("about", Kind::Blob),
            // Where the description is, if that is given.
            ("url", Kind::Blob),
            ("implies", Kind::Blob),
        ],
        key: 2,
        key_index: "sqlite_autoindex_criteria_1",
        create: "CREATE TABLE criteria (peer TEXT NOT NULL, name TEXT NOT NULL, about BLOB NOT \
            NULL, url BLOB NOT NULL, implies BLOB NOT NULL, PRIMARY KEY (peer, name)) STRICT",
        insert: "INSERT INTO criteria VALUES (?, ?, ?, ?, ?)",
        delete: "DELETE FROM criteria WHERE peer = ? AND name = ?",
        clear: "DELETE FROM criteria",
        select: "SELECT rowid, * FROM criteria ORDER BY rowid",
    }
}

/// Entries.
pub(crate) fn entries() -> Form
    ensures { result ≡ form_of (table.Facts facts.Entries) }
{
    Form {
        name: "entries",
        columns: &[
            ("number", Kind::Integer),
            // The peer whose entry it is, empty for our own.
            ("peer", Kind::Text),
            ("package", Kind::Text),
            // 0 a full audit, 1 a delta, 2 a violation, 3 a wildcard entry, 4 a trusted entry, 5 an exemption.
            ("kind", Kind::Integer),
            // The version, the version that a delta begins with, or the requirement of a violation; else empty.
            ("a", Kind::Text),
            // The version that a delta ends with; else empty.
            ("b", Kind::Text),
            // The user of a window, else 0.
            ("user", Kind::Integer),
            // The first and the last day of a window, else 0.
            ("day1", Kind::Integer),
            ("day2", Kind::Integer),
            ("criteria", Kind::Blob),
            // Who vouches: none for a trusted entry or an exemption.
            ("who", Kind::Blob),
            ("notes", Kind::Blob),
            // Whether a review is suggested in place of an exemption; -1 for any other kind.
            ("suggest", Kind::Integer),
            // Whether the window of a wildcard entry is to be renewed; -1 for any other kind.
            ("renew", Kind::Integer),
            // Whether others may import an audit; -1 for any other kind.
            ("importable", Kind::Integer),
        ],
        key: 1,
        key_index: "sqlite_autoindex_entries_1",
        create: "CREATE TABLE entries (number INTEGER NOT NULL, peer TEXT NOT NULL, package TEXT \
            NOT NULL, kind INTEGER NOT NULL, a TEXT NOT NULL, b TEXT NOT NULL, user INTEGER \
            NOT NULL, day1 INTEGER NOT NULL, day2 INTEGER NOT NULL, criteria BLOB NOT NULL, \
            who BLOB NOT NULL, notes BLOB NOT NULL, suggest INTEGER NOT NULL, renew INTEGER \
            NOT NULL, importable INTEGER NOT NULL, PRIMARY KEY (number)) STRICT",
        insert: "INSERT INTO entries VALUES (?, ?, ?, ?, ?, ?, ?, ?, ?, ?, ?, ?, ?, ?, ?)",
        delete: "DELETE FROM entries WHERE number = ?",
        clear: "DELETE FROM entries",
        select: "SELECT rowid, * FROM entries ORDER BY rowid",
    }
}

/// Publisher records.
pub(crate) fn publishers() -> Form
    ensures { result ≡ form_of (table.Facts facts.Publishers) }
{
    Form {
        name: "publishers",
        columns: &[
            ("package", Kind::Text),
            ("version", Kind::Text),
            // The number of the user, from 0.
            ("user", Kind::Integer),
            ("day", Kind::Integer),
            // The user's login at crates.io and full name, if they are given.
            ("login", Kind::Blob),
            ("name", Kind::Blob),
        ],
        key: 6,
        key_index: "sqlite_autoindex_publishers_1",
        create: "CREATE TABLE publishers (package TEXT NOT NULL, version TEXT NOT NULL, user \
            INTEGER NOT NULL, day INTEGER NOT NULL, login BLOB NOT NULL, name BLOB NOT NULL, \
            PRIMARY KEY (package, version, user, day, login, name)) STRICT",
        insert: "INSERT INTO publishers VALUES (?, ?, ?, ?, ?, ?)",
        delete: "DELETE FROM publishers WHERE package = ? AND version = ? AND user = ? AND day = ? \
            AND login = ? AND name = ?",
        clear: "DELETE FROM publishers",
        select: "SELECT rowid, * FROM publishers ORDER BY rowid",
    }
}

/// Policies.
pub(crate) fn policies() -> Form
    ensures { result ≡ form_of (table.Demand demand.Policies) }
{
    Form {
        name: "policies",
        columns: &[
            // A package, or a package, a colon and a version.
            ("policy", Kind::Text),
            // Whether the package is audited as the one of its name at crates.io, if that is given.
            ("as_crates", Kind::Integer),
            // The packed list of what the package needs, if it is given.
            ("criteria", Kind::Blob),
            // The packed list of what is passed along dev edges, if it is given.
            ("dev", Kind::Blob),
            // From dependencies to the packed lists of what is passed to them.
            ("dependency", Kind::Blob),
            ("notes", Kind::Blob),
        ],
        key: 1,
        key_index: "sqlite_autoindex_policies_1",
        create: "CREATE TABLE policies (policy TEXT NOT NULL, as_crates INTEGER NOT NULL, criteria \
            BLOB NOT NULL, dev BLOB NOT NULL, dependency BLOB NOT NULL, notes BLOB NOT NULL, \
            PRIMARY KEY (policy)) STRICT",
        insert: "INSERT INTO policies VALUES (?, ?, ?, ?, ?, ?)",
        delete: "DELETE FROM policies WHERE policy = ?",
        clear: "DELETE FROM policies",
        select: "SELECT rowid, * FROM policies ORDER BY rowid",
    }
}

/// Peers and their settings.
pub(crate) fn peers() -> Form
    ensures { result ≡ form_of (table.Facts facts.Peers) }
{
    Form {
        name: "peers",
        columns: &[
            ("name", Kind::Text),
            // Where its audits are published.
            ("url", Kind::Blob),
            // The packages of which nothing is taken.
            ("exclude", Kind::Blob),
            // From the peer's criteria to the packed lists of our own that they imply.
            ("map", Kind::Blob),
        ],
        key: 1,
        key_index: "sqlite_autoindex_peers_1",
        create: "CREATE TABLE peers (name TEXT NOT NULL, url BLOB NOT NULL, exclude BLOB NOT NULL, \
            map BLOB NOT NULL, PRIMARY KEY (name)) STRICT",
        insert: "INSERT INTO peers VALUES (?, ?, ?, ?)",
        delete: "DELETE FROM peers WHERE name = ?",
        clear: "DELETE FROM peers",
        select: "SELECT rowid, * FROM peers ORDER BY rowid",
    }
}

/// Packages of projects.
pub(crate) fn nodes() -> Form
    ensures { result ≡ form_of (table.Demand demand.Nodes) }
{
    Form {
        name: "nodes",
        columns: &[
            ("project", Kind::Text),
            ("name", Kind::Text),
            ("version", Kind::Text),
            // 0 a root, 1 first-party, 2 third-party.
            ("party", Kind::Integer),
        ],
        key: 3,
        key_index: "sqlite_autoindex_nodes_1",
        create: "CREATE TABLE nodes (project TEXT NOT NULL, name TEXT NOT NULL, version TEXT NOT \
            NULL, party INTEGER NOT NULL, PRIMARY KEY (project, name, version)) STRICT",
        insert: "INSERT INTO nodes VALUES (?, ?, ?, ?)",
        delete: "DELETE FROM nodes WHERE project = ? AND name = ? AND version = ?",
        clear: "DELETE FROM nodes",
        select: "SELECT rowid, * FROM nodes ORDER BY rowid",
    }
}

/// Dependencies of projects.
pub(crate) fn edges() -> Form
    ensures { result ≡ form_of (table.Demand demand.Edges) }
{
    Form {
        name: "edges",
        columns: &[
            ("project", Kind::Text),
            ("from_name", Kind::Text),
            ("from_version", Kind::Text),
            ("to_name", Kind::Text),
            ("to_version", Kind::Text),
            // 0 normal, 1 build, 2 dev.
            ("kind", Kind::Integer),
        ],
        key: 6,
        key_index: "sqlite_autoindex_edges_1",
        create: "CREATE TABLE edges (project TEXT NOT NULL, from_name TEXT NOT NULL, from_version \
            TEXT NOT NULL, to_name TEXT NOT NULL, to_version TEXT NOT NULL, kind INTEGER NOT \
            NULL, PRIMARY KEY (project, from_name, from_version, to_name, to_version, kind)) \
            STRICT",
        insert: "INSERT INTO edges VALUES (?, ?, ?, ?, ?, ?)",
        delete: "DELETE FROM edges WHERE project = ? AND from_name = ? AND from_version = ? AND \
            to_name = ? AND to_version = ? AND kind = ?",
        clear: "DELETE FROM edges",
        select: "SELECT rowid, * FROM edges ORDER BY rowid",
    }
}

/// The class of each demanded pair.
pub(crate) fn standing() -> Form
    ensures { result ≡ form_of table.Standing }
{
    Form {
        name: "standing",
        columns: &[
            ("package", Kind::Text),
            ("version", Kind::Text),
            ("criterion", Kind::Text),
            // The class, 0 to 4.
            ("class", Kind::Integer),
        ],
        key: 3,
        key_index: "sqlite_autoindex_standing_1",
        create: "CREATE TABLE standing (package TEXT NOT NULL, version TEXT NOT NULL, criterion \
            TEXT NOT NULL, class INTEGER NOT NULL, PRIMARY KEY (package, version, criterion)) \
            STRICT",
        insert: "INSERT INTO standing VALUES (?, ?, ?, ?)",
        delete: "DELETE FROM standing WHERE package = ? AND version = ? AND criterion = ?",
        clear: "DELETE FROM standing",
        select: "SELECT rowid, * FROM standing ORDER BY rowid",
    }
}

/// Recorded moves.
pub(crate) fn moves() -> Form
    ensures { result ≡ form_of table.Moves }
{
    Form {
        name: "moves",
        columns: &[
            // The step of the command that moved it.
            ("step", Kind::Integer),
            ("package", Kind::Text),
            ("version", Kind::Text),
            ("criterion", Kind::Text),
            // The day of that command.
            ("day", Kind::Integer),
            // The classes before and after, 0 to 5.
            ("before", Kind::Integer),
            ("after", Kind::Integer),
        ],
        key: 4,
        key_index: "sqlite_autoindex_moves_1",
        create: "CREATE TABLE moves (step INTEGER NOT NULL, package TEXT NOT NULL, version TEXT NOT \
            NULL, criterion TEXT NOT NULL, day INTEGER NOT NULL, before INTEGER NOT NULL, \
            after INTEGER NOT NULL, PRIMARY KEY (step, package, version, criterion)) STRICT",
        insert: "INSERT INTO moves VALUES (?, ?, ?, ?, ?, ?, ?)",
        delete: "DELETE FROM moves WHERE step = ? AND package = ? AND version = ? AND criterion = ?",
        clear: "DELETE FROM moves",
        select: "SELECT rowid, * FROM moves ORDER BY rowid",
    }
}

/// Members of the desk.
pub(crate) fn members() -> Form
    ensures { result ≡ form_of (table.Desk desk.Members) }
{
    Form {
        name: "members",
        columns: &[("name", Kind::Text)],
        key: 1,
        key_index: "sqlite_autoindex_members_1",
        create: "CREATE TABLE members (name TEXT NOT NULL, PRIMARY KEY (name)) STRICT",
        insert: "INSERT INTO members VALUES (?)",
        delete: "DELETE FROM members WHERE name = ?",
        clear: "DELETE FROM members",
        select: "SELECT rowid, * FROM members ORDER BY rowid",
    }
}

/// Reviews.
pub(crate) fn reviews() -> Form
    ensures { result ≡ form_of (table.Desk desk.Reviews) }
{
    Form {
        name: "reviews",
        columns: &[
            ("number", Kind::Integer),
            ("package", Kind::Text),
            ("version", Kind::Text),
            // The names of the criteria.
            ("criteria", Kind::Blob),
            // The day on which it was opened.
            ("day", Kind::Integer),
            // 0 waiting, 1 assigned, 2 finished, 3 withdrawn.
            ("state", Kind::Integer),
            // The member to whom it is assigned, else empty.
            ("member", Kind::Text),
            // The number of the entry that finished it, else 0.
            ("entry", Kind::Integer),
        ],
        key: 1,
        key_index: "sqlite_autoindex_reviews_1",
        create: "CREATE TABLE reviews (number INTEGER NOT NULL, package TEXT NOT NULL, version TEXT \
            NOT NULL, criteria BLOB NOT NULL, day INTEGER NOT NULL, state INTEGER NOT NULL, \
            member TEXT NOT NULL, entry INTEGER NOT NULL, PRIMARY KEY (number)) STRICT",
        insert: "INSERT INTO reviews VALUES (?, ?, ?, ?, ?, ?, ?, ?)",
        delete: "DELETE FROM reviews WHERE number = ?",
        clear: "DELETE FROM reviews",
        select: "SELECT rowid, * FROM reviews ORDER BY rowid",
    }
}

/// The register's day, if it has one.
pub(crate) fn today() -> Form
    ensures { result ≡ form_of (table.Days days.Today) }
{
    Form {
        name: "today",
        columns: &[
            // Always 1.
            ("one", Kind::Integer),
            ("day", Kind::Integer),
        ],
        key: 1,
        key_index: "sqlite_autoindex_today_1",
        create: "CREATE TABLE today (one INTEGER NOT NULL, day INTEGER NOT NULL, PRIMARY KEY (one)) \
            STRICT",
        insert: "INSERT INTO today VALUES (?, ?)",
        delete: "DELETE FROM today WHERE one = ?",
        clear: "DELETE FROM today",
        select: "SELECT rowid, * FROM today ORDER BY rowid",
    }
}

/// The last day of each exemption that has one.
pub(crate) fn lasts() -> Form
    ensures { result ≡ form_of (table.Days days.Lasts) }
{
    Form {
        name: "lasts",
        columns: &[
            // The number of the exemption.
            ("entry", Kind::Integer),
            ("day", Kind::Integer),
        ],
        key: 1,
        key_index: "sqlite_autoindex_lasts_1",
        create: "CREATE TABLE lasts (entry INTEGER NOT NULL, day INTEGER NOT NULL, PRIMARY KEY \
            (entry)) STRICT",
        insert: "INSERT INTO lasts VALUES (?, ?)",
        delete: "DELETE FROM lasts WHERE entry = ?",
        clear: "DELETE FROM lasts",
        select: "SELECT rowid, * FROM lasts ORDER BY rowid",
    }
}
