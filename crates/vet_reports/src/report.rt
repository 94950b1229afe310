//! The reports of a register, as data.
ghost use Rattle.std.specs.Prelude.{◌≡◌, IfErr, IfOk, string_bytes};
ghost use Rattle.vet_reports.specs.Report.{layout_of, report_named, report_text};

use crate::counts_text::counts_text;
use crate::desk_text::desk_text;
use crate::lapses_text::lapses_text;
use crate::moves_text::moves_text;
use crate::standing_csv::standing_csv;
use crate::standing_text::{Filter, standing_text};
use std::alloc::Global;
use vet_base::refusal::Refusal;
use vet_graph::keeper::Keeper;
use vet_register::register::Register;

/// The words of the reports, as an error lists them.
pub const REPORT_WORDS: &str = "counts, standing, standing-csv, moves, desk, lapses";

/// A report of a register. A new one needs a row here and in each function below.
#[derive(Clone, Copy)]
pub enum Report {
    Counts,
    Standing,
    StandingCsv,
    Moves,
    Desk,
    Lapses,
}

/// The layout of a report's text.
#[derive(Clone, Copy)]
pub enum Layout {
    /// Lines for people.
    Lines,
    /// CSV (RFC 4180).
    Csv,
}

impl Report {
    /// The report that a word names: `counts`, `standing`, `standing-csv`, `moves`, `desk` or `lapses`.
    pub fn named(word: &str) -> Option<Report>
        ensures { result ≡ report_named word.now }
    {
        if word == "counts" {
            Some(Report::Counts)
        } else if word == "standing" {
            Some(Report::Standing)
        } else if word == "standing-csv" {
            Some(Report::StandingCsv)
        } else if word == "moves" {
            Some(Report::Moves)
        } else if word == "desk" {
            Some(Report::Desk)
        } else if word == "lapses" {
            Some(Report::Lapses)
        } else {
            None
        }
    }

    /// The layout of its text.
    pub fn layout(self) -> Layout
        ensures { result ≡ layout_of self }
    {
        match self {
            Report::StandingCsv => Layout::Csv,
            _ => Layout::Lines,
        }
    }

    /// Its text. Refused: `NoMemory`.
    pub fn text<K: Keeper>(self, alloc: Global, register: &Register<K>) -> Result<String, Refusal>
        ensures text { IfOk result (λ text. string_bytes text ≡ report_text self register.now.state) }
        ensures memory { IfErr result (λ e. e ≡ Refusal.NoMemory) }
    {
        match self {
            Report::Counts => counts_text(alloc, register),
            Report::Standing => whole_standing(alloc, register),
            Report::StandingCsv => standing_csv(alloc, register),
            Report::Moves => moves_text(alloc, register),
            Report::Desk => desk_text(alloc, register),
            Report::Lapses => lapses_text(alloc, register),
        }
    }
}

// The report of the whole standing.
fn whole_standing<K: Keeper>(alloc: Global, register: &Register<K>) -> Result<String, Refusal>
    ensures text { IfOk result (λ text. string_bytes text ≡ report_text Report.Standing register.now.state) }
    ensures memory { IfErr result (λ e. e ≡ Refusal.NoMemory) }
{
    let all = Filter {
        package: None,
        class: None,
    };
    standing_text(alloc, register, &all)
}
