//! The line of a refusal.
ghost use Rattle.std.specs.Prelude.{◌≡◌, IfOk, codes, string_bytes};
ghost use Rattle.vet_reports.specs.RefusalText.{refusal_details, refusal_line};

use std::alloc::{AllocError, Global};
use vet_base::refusal::{Limit, Refusal};

/// The line of a refusal: `refused`, its number, its name and its details, with one space between, and a line feed.
/// Fails only if memory runs out.
pub fn refusal_text(alloc: Global, refusal: &Refusal) -> Result<String, AllocError>
    ensures { IfOk result (λ text. string_bytes text ≡ refusal_line refusal.now) }
{
    let number = refusal.number();
    let name = refusal.name();
    let details = details(alloc, refusal)?;
    format!(in alloc; "refused {number} {name}{details}\n")
}

/// The details, each after a space.
fn details(alloc: Global, refusal: &Refusal) -> Result<String, AllocError>
    ensures { IfOk result (λ text. string_bytes text ≡ refusal_details refusal.now) }
{
    match refusal {
        Refusal::UnknownCriterion(name) => format!(in alloc; " {name}"),
        Refusal::UnknownNode(record) | Refusal::TwoParties(record) | Refusal::CsvRefused(record) =>
            { format!(in alloc; " {record}") }
        Refusal::TooLarge(limit) => {
            let word = limit.word();
            format!(in alloc; " {word}")
        }
        Refusal::FieldRefused(path, key) => format!(in alloc; " {path} {key}"),
        _ => Ok(String::new(alloc)),
    }
}

/// The lines of refusals by example. They are a law, since not every refusal can occur in a run of this program.
pub fn lines_by_example()
    ensures { (refusal_line Refusal.BadName ≡ codes "refused 1 BadName\n")
        × (refusal_line (Refusal.UnknownCriterion (codes "nope")) ≡ codes "refused 6 UnknownCriterion nope\n")
        × (refusal_line (Refusal.UnknownNode 12) ≡ codes "refused 16 UnknownNode 12\n")
        × (refusal_line (Refusal.TwoParties 3) ≡ codes "refused 17 TwoParties 3\n")
        × (refusal_line (Refusal.TooLarge Limit.Input) ≡ codes "refused 18 TooLarge input\n")
        × (refusal_line (Refusal.CsvRefused 4) ≡ codes "refused 27 CsvRefused 4\n")
        × (refusal_line (Refusal.FieldRefused (codes "audits.serde[0]") (codes "version"))
        ≡ codes "refused 28 FieldRefused audits.serde[0] version\n")
        × (refusal_line Refusal.NoMemory ≡ codes "refused 29 NoMemory\n") }
{}
