//! The names of the fourteen tables, and their order.
ghost use Rattle.std.specs.Prelude.{◌≡◌, ◌<◌};
ghost use Rattle.vet_tables.specs.Forms.{code, form_of};

use crate::form::Form;
use crate::forms::{
    criteria, edges, entries, lasts, members, meta, moves, nodes, peers, policies, publishers,
    reviews, standing, today,
};

/// How many tables there are.
pub const TABLE_COUNT: usize = 14;

/// How many tables the first version has: all before `today`.
pub const FIRST_TABLE_COUNT: usize = 12;

/// One of the fourteen tables, named by what it belongs to: the state itself, its facts, its demand, its desk or its
/// days.
#[derive(Clone, Copy)]
pub enum TableName {
    Meta,
    Facts(FactsTable),
    Demand(DemandTable),
    Standing,
    Moves,
    Desk(DeskTable),
    Days(DaysTable),
}

/// A table of the facts of packages.
#[derive(Clone, Copy)]
pub enum FactsTable {
    Criteria,
    Entries,
    Publishers,
    Peers,
}

/// A table of policies and projects, from which the demand is made.
#[derive(Clone, Copy)]
pub enum DemandTable {
    Policies,
    Nodes,
    Edges,
}

/// A table of the review desk.
#[derive(Clone, Copy)]
pub enum DeskTable {
    Members,
    Reviews,
}

/// The table of the register's day, or that of the last days of exemptions.
#[derive(Clone, Copy)]
pub enum DaysTable {
    Today,
    Lasts,
}

impl TableName {
    /// The form of the table.
    pub fn form(self) -> Form
        ensures { result ≡ form_of self }
    {
        match self {
            TableName::Meta => meta(),
            TableName::Facts(FactsTable::Criteria) => criteria(),
            TableName::Facts(FactsTable::Entries) => entries(),
            TableName::Facts(FactsTable::Publishers) => publishers(),
            TableName::Demand(DemandTable::Policies) => policies(),
            TableName::Facts(FactsTable::Peers) => peers(),
            TableName::Demand(DemandTable::Nodes) => nodes(),
            TableName::Demand(DemandTable::Edges) => edges(),
            TableName::Standing => standing(),
            TableName::Moves => moves(),
            TableName::Desk(DeskTable::Members) => members(),
            TableName::Desk(DeskTable::Reviews) => reviews(),
            TableName::Days(DaysTable::Today) => today(),
            TableName::Days(DaysTable::Lasts) => lasts(),
        }
    }

    /// The place of the table among all tables, counted from 0.
    pub fn place(self) -> usize
        ensures { result ≡ code self }
    {
        match self {
            TableName::Meta => 0,
            TableName::Facts(FactsTable::Criteria) => 1,
            TableName::Facts(FactsTable::Entries) => 2,
            TableName::Facts(FactsTable::Publishers) => 3,
            TableName::Demand(DemandTable::Policies) => 4,
            TableName::Facts(FactsTable::Peers) => 5,
            TableName::Demand(DemandTable::Nodes) => 6,
            TableName::Demand(DemandTable::Edges) => 7,
            TableName::Standing => 8,
            TableName::Moves => 9,
            TableName::Desk(DeskTable::Members) => 10,
            TableName::Desk(DeskTable::Reviews) => 11,
            TableName::Days(DaysTable::Today) => 12,
            TableName::Days(DaysTable::Lasts) => 13,
        }
    }
}

/// The table at a place, as `TableName::place` counts it. Asks that the place is below `TABLE_COUNT`.
pub fn table_at(at: usize) -> TableName
    requires { at < TABLE_COUNT }
    ensures { code result ≡ at }
{
    match at {
        0 => TableName::Meta,
        1 => TableName::Facts(FactsTable::Criteria),
        2 => TableName::Facts(FactsTable::Entries),
        3 => TableName::Facts(FactsTable::Publishers),
        4 => TableName::Demand(DemandTable::Policies),
        5 => TableName::Facts(FactsTable::Peers),
        6 => TableName::Demand(DemandTable::Nodes),
        7 => TableName::Demand(DemandTable::Edges),
        8 => TableName::Standing,
        9 => TableName::Moves,
        10 => TableName::Desk(DeskTable::Members),
        11 => TableName::Desk(DeskTable::Reviews),
        12 => TableName::Days(DaysTable::Today),
        _ => TableName::Days(DaysTable::Lasts),
    }
}
