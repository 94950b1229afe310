//! The line of an outcome.
//!
//! An outcome is printed after the command's change is kept, when it is too late to answer that memory ran out. So room
//! is taken before the command runs, and the line is written into that room.
ghost use Rattle.std.specs.Prelude.{◌≡◌, ◌+◌, ◌≤◌, ◌++◌, None, Some, IfErr, IfOk, codes, length, string_bytes};
ghost use Rattle.std.specs.Prelude.{string_capacity, string_len};
ghost use Rattle.std.specs.Fmt.{decimal};
ghost use Rattle.vet_reports.specs.OutcomeText.{outcome_text};

use itoa::Buffer;
use std::alloc::Global;
use vet_base::refusal::Refusal;
use vet_register::command::Outcome;

/// The greatest number of bytes in the line of an outcome: its words, and three numbers of at most 20 digits.
pub const MOST_OUTCOME_BYTES: usize = 81;

/// The line of an outcome: `done STEP moves M`, `done STEP number N moves M`, `already` or `already N`. Refused:
/// `NoMemory`.
pub fn outcome_text(alloc: Global, outcome: &Outcome) -> Result<String, Refusal>
    ensures text { IfOk result (λ text. string_bytes text ≡ outcome_text outcome.now) }
    ensures memory { IfErr result (λ e. e ≡ Refusal.NoMemory) }
{
    let mut text = String::with_capacity(alloc, MOST_OUTCOME_BYTES)?;
    write_outcome(&mut text, outcome);
    Ok(text)
}

/// Adds the line of an outcome to a text that has room for the longest. Takes no memory.
pub fn write_outcome(text: &mut String, outcome: &Outcome)
    requires { string_len text.old + MOST_OUTCOME_BYTES ≤ string_capacity text.old }
    ensures { string_bytes text.new ≡ string_bytes text.old ++ outcome_text outcome.now }
{
    match outcome {
        Outcome::Done {
            step,
            number,
            moves,
        } => {
            push_word(text, "done ");
            push_decimal(text, *step);
            if let Some(number) = number {
                push_word(text, " number ");
                push_decimal(text, *number);
            }
            push_word(text, " moves ");
            push_decimal(text, *moves);
        }
        Outcome::Already(None) => push_word(text, "already"),
        Outcome::Already(Some(number)) => {
            push_word(text, "already ");
            push_decimal(text, *number);
        }
    }
    push_word(text, "\n");
}

/// No outcome's line is longer than `MOST_OUTCOME_BYTES`. Does nothing.
pub fn outcome_text_is_short(outcome: &Outcome)
    ensures { length (outcome_text outcome.now) ≤ MOST_OUTCOME_BYTES }
{
    match outcome {
        Outcome::Done {
            step,
            number: Some(number),
            moves,
        } => {
            decimal_is_short(*step);
            decimal_is_short(*number);
            decimal_is_short(*moves);
        }
        Outcome::Done {
            step,
            number: None,
            moves,
        } => {
            decimal_is_short(*step);
            decimal_is_short(*moves);
        }
        Outcome::Already(Some(number)) => decimal_is_short(*number),
        Outcome::Already(None) => {}
    }
}

// A number of 64 bits has at most 20 digits.
fn decimal_is_short(number: u64)
    ensures { length (decimal number) ≤ 20 }
{
    let mut digits = Buffer::new();
    let _ = digits.format(number);
}

// Adds a word, for which there is room.
fn push_word(text: &mut String, word: &str)
    requires { string_len text.old + length word.now ≤ string_capacity text.old }
    ensures bytes { string_bytes text.new ≡ string_bytes text.old ++ word.now }
    ensures len { string_len text.new ≡ string_len text.old + length word.now }
    ensures capacity { string_capacity text.old ≤ string_capacity text.new }
{
    let _ = text.push_str(word);
}

// Adds a number, for whose digits there is room.
fn push_decimal(text: &mut String, number: u64)
    requires { string_len text.old + 20 ≤ string_capacity text.old }
    ensures bytes { string_bytes text.new ≡ string_bytes text.old ++ decimal number }
    ensures len { string_len text.new ≤ string_len text.old + 20 }
    ensures capacity { string_capacity text.old ≤ string_capacity text.new }
{
    let mut digits = Buffer::new();
    push_word(text, digits.format(number));
}

/// The lines of outcomes by example. Does nothing.
pub fn outcomes_by_example()
    ensures done { outcome_text (Outcome.Done 1 None 4) ≡ codes "done 1 moves 4\n" }
    ensures numbered { outcome_text (Outcome.Done 2 (Some 1) 2) ≡ codes "done 2 number 1 moves 2\n" }
    ensures already { outcome_text (Outcome.Already None) ≡ codes "already\n" }
    ensures held { outcome_text (Outcome.Already (Some 1)) ≡ codes "already 1\n" }
{}
