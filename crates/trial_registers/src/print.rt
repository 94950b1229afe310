//! What a run prints, a line at a time. Printing takes no memory.

use crate::held::{print_criterion, print_entries, print_optional_text, print_peers};
use crate::held_desk::print_desk;
use crate::held_projects::{print_policies, print_projects};
use crate::held_settings::print_tool_settings;
use std::io;
use trial_values::tables::class_word;
use vet_base::criteria_table::CriteriaTable;
use vet_base::day::Day;
use vet_base::name::PackageName;
use vet_entries::publisher::Publisher;
use vet_entries::publisher_records::PackagePublishers;
use vet_entries::publishers::Publishers;
use vet_graph::keeper::Keeper;
use vet_graph::moves::Move;
use vet_graph::standing::Counts;
use vet_graph::touched::Touched;
use vet_register::command::Outcome;
use vet_register::moves::RecordedMove;
use vet_register::register::Register;

/// Prints the outcome of a command.
pub fn print_outcome(rt: &impl Print, outcome: Outcome) -> io::Result<()> {
    match outcome {
        Outcome::Done {
            step,
            number: Some(number),
            moves,
        } => println!(rt; "done {step} number {number} moves {moves}"),
        Outcome::Done {
            step,
            number: None,
            moves,
        } => println!(rt; "done {step} moves {moves}"),
        Outcome::Already(Some(number)) => println!(rt; "already {number}"),
        Outcome::Already(None) => println!(rt; "already"),
    }
}

/// Prints the packages that a command touches, if they were noted: a star for all of them.
pub fn print_touched(rt: &impl Print, touched: Option<&Touched>) -> io::Result<()> {
    let Some(touched) = touched else {
        return Ok(());
    };
    match touched {
        Touched::All => println!(rt; "touched *"),
        Touched::Packages(names) => print_touched_packages(rt, names.as_slice()),
    }
}

fn print_touched_packages(rt: &impl Print, names: &[PackageName]) -> io::Result<()> {
    print!(rt; "touched")?;
    for name in names {
        print!(rt; " {name}")?;
    }
    println!(rt; "")
}

/// Prints what a register holds: its step, its day if it has one, criteria, own entries, peers, publisher records, the
/// settings of a config file that only the tool reads, policies, projects, members, reviews, demanded pairs, counts and
/// recorded moves.
pub fn print_contents<K: Keeper>(rt: &impl Print, register: &Register<K>) -> io::Result<()> {
    println!(rt; "step {}", register.step())?;
    print_today(rt, register.today())?;
    print_held(rt, register)?;
    print_standing(rt, register)
}

fn print_today(rt: &impl Print, today: Option<Day>) -> io::Result<()> {
    match today {
        Some(day) => println!(rt; "today {day}"),
        None => Ok(()),
    }
}

fn print_held<K: Keeper>(rt: &impl Print, register: &Register<K>) -> io::Result<()> {
    print_criteria(rt, register.criteria())?;
    print_entries(rt, register.entries())?;
    print_peers(rt, register.peers())?;
    print_packages(rt, register.publishers())?;
    print_tool_settings(rt, register.settings())?;
    print_policies(rt, register.policies())?;
    print_projects(rt, register.projects())?;
    print_desk(rt, register.desk())
}

fn print_standing<K: Keeper>(rt: &impl Print, register: &Register<K>) -> io::Result<()> {
    print_pairs(rt, register)?;
    print_counts(rt, "counts", register.counts())?;
    print_counts(rt, "first", register.first_counts())?;
    print_moves(rt, register.moves())
}

fn print_criteria(rt: &impl Print, criteria: &CriteriaTable) -> io::Result<()> {
    for name in criteria.names() {
        if let Some(criterion) = criteria.get(name) {
            print!(rt; "criterion")?;
            print_criterion(rt, criterion)?;
        }
    }
    Ok(())
}

fn print_packages(rt: &impl Print, packages: &[PackagePublishers]) -> io::Result<()> {
    for listed in packages {
        print_publishers(rt, &listed.package, &listed.publishers)?;
    }
    Ok(())
}

fn print_publishers(
    rt: &impl Print,
    package: &PackageName,
    records: &Publishers,
) -> io::Result<()> {
    for published in records.as_slice() {
        print_publisher(rt, package, published)?;
    }
    Ok(())
}

fn print_publisher(
    rt: &impl Print,
    package: &PackageName,
    published: &Publisher,
) -> io::Result<()> {
    let user = published.user.number();
    print!(rt;
        "publisher {package} {} {user} {}",
        published.version, published.day
    )?;
    print_optional_text(rt, "user-login", &published.login)?;
    print_optional_text(rt, "user-name", &published.name)?;
    println!(rt; "")
}

// The demanded pairs, each with its class.
fn print_pairs<K: Keeper>(rt: &impl Print, register: &Register<K>) -> io::Result<()> {
    for pair in register.demand() {
        let class = register.class(&pair.package, &pair.version, &pair.criterion);
        println!(rt;
            "pair {} {} {} {}",
            pair.package,
            pair.version,
            pair.criterion,
            class_word(class)
        )?;
    }
    Ok(())
}

fn print_counts(rt: &impl Print, title: &str, counts: Counts) -> io::Result<()> {
    println!(rt;
        "{title} conflicting {} full {} partial {} exempted {} unvetted {}",
        counts.conflicting, counts.full, counts.partial, counts.exempted, counts.unvetted
    )
}

fn print_moves(rt: &impl Print, moves: &[RecordedMove]) -> io::Result<()> {
    for change in moves {
        print_move(rt, change)?;
    }
    Ok(())
}

fn print_move(rt: &impl Print, recorded: &RecordedMove) -> io::Result<()> {
    let Move {
        pair,
        before,
        after,
    } = &recorded.change;
    println!(rt;
        "move {} {} {} {} {} {} {}",
        recorded.step,
        recorded.day,
        pair.package,
        pair.version,
        pair.criterion,
        class_word(*before),
        class_word(*after)
    )
}
