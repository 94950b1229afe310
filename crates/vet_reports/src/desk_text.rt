//! The report of the review desk.
ghost use Rattle.std.specs.Prelude.{◌≡◌, ◌++◌, IfErr, IfOk, OnOk, codes, string_bytes};
ghost use Rattle.std.specs.List.{flat_map};
ghost use Rattle.vet_reports.specs.ByExample as example;
ghost use Rattle.vet_reports.specs.Columns.{begun, right_in};
ghost use Rattle.vet_reports.specs.DeskText.{desk_text, entry_word, line_for, member_word, review_line, state_columns};
ghost use Rattle.vet_reports.specs.DeskText.{state_word};

use crate::columns::{push_left, push_names, push_number, push_right, push_version};
use std::alloc::{AllocError, Global};
use vet_base::refusal::Refusal;
use vet_desk::review::{Review, ReviewState};
use vet_graph::keeper::Keeper;
use vet_register::register::Register;

/// The report of the desk: a line for each review, by number. A line has the number, aligned right in 8 characters, the
/// day on which the review was opened, package and version as in the standing, the state, aligned left in 9, the member
/// of an assigned review or `-`, aligned left in 16, the entry of a finished one or `-`, aligned right in 8, and the
/// criteria with commas between them. Costs a look at each review. Refused: `NoMemory`.
pub fn desk_text<K: Keeper>(alloc: Global, register: &Register<K>) -> Result<String, Refusal>
    ensures text { IfOk result (λ text. string_bytes text ≡ desk_text register.now.state) }
    ensures memory { IfErr result (λ e. e ≡ Refusal.NoMemory) }
{
    let mut text = String::new(alloc);
    push_reviews(alloc, &mut text, register.desk().reviews())?;
    Ok(text)
}

// Adds the lines of reviews.
fn push_reviews(alloc: Global, text: &mut String, reviews: &[Review]) -> Result<(), AllocError>
    ensures { OnOk result (string_bytes text.new ≡ string_bytes text.old ++ flat_map review_line reviews.now) }
{
    'reviews: for review in reviews {
        push_review(alloc, text, review)?;
    }
    Ok(())
}

// Adds the line of a review.
fn push_review(alloc: Global, text: &mut String, review: &Review) -> Result<(), AllocError>
    ensures { OnOk result (string_bytes text.new ≡ string_bytes text.old ++ review_line review.now) }
{
    let day = review.day;
    push_number(text, 8, review.number)?;
    write!(text, " {day} ")?;
    push_version(alloc, text, &review.package, &review.version)?;
    push_state(text, &review.state)?;
    push_names(text, review.criteria.as_slice())?;
    text.push('\n')
}

// Adds the columns of a state, with a space after each.
fn push_state(text: &mut String, state: &ReviewState) -> Result<(), AllocError>
    ensures { OnOk result (string_bytes text.new ≡ string_bytes text.old ++ begun (state_columns state.now)) }
{
    push_left(text, 9, state_word(state))?;
    text.push(' ')?;
    push_left(text, 16, member_word(state))?;
    text.push(' ')?;
    push_entry(text, state)?;
    text.push(' ')
}

fn state_word(state: &ReviewState) -> &'static str
    ensures { result.now ≡ state_word state.now }
{
    match state {
        ReviewState::Waiting => "waiting",
        ReviewState::Assigned(_) => "assigned",
        ReviewState::Finished(_) => "finished",
        ReviewState::Withdrawn => "withdrawn",
    }
}

// The member to whom a review is assigned, or `-`.
fn member_word(state: &ReviewState) -> &str
    ensures { result.now ≡ member_word state.now }
{
    match state {
        ReviewState::Assigned(member) => member.as_str(),
        _ => "-",
    }
}

// Adds the entry of a finished review, or `-`.
fn push_entry(text: &mut String, state: &ReviewState) -> Result<(), AllocError>
    ensures { OnOk result (string_bytes text.new ≡ string_bytes text.old ++ right_in 8 (entry_word state.now)) }
{
    match state {
        ReviewState::Finished(entry) => push_number(text, 8, *entry),
        _ => push_right(text, 8, "-"),
    }
}

/// The line of a review by example, in each state, for one criterion or two. Does nothing.
pub fn desk_by_example()
    ensures waiting { line_for example.both_built_in (example.review_in ReviewState.Waiting) ≡ example.waiting_line }
    ensures assigned { line_for example.deploy_alone (example.review_in (ReviewState.Assigned (codes "ann")))
        ≡ example.assigned_line }
    ensures finished { line_for example.deploy_alone (example.review_in (ReviewState.Finished 1))
        ≡ example.finished_line }
    ensures withdrawn { line_for example.deploy_alone (example.review_in ReviewState.Withdrawn)
        ≡ example.withdrawn_line }
{}
