//! The class of one pair, from an audits file.
ghost use Rattle.std.specs.FinMap as map;
ghost use Rattle.std.specs.Prelude.{◌≡◌, ℕ, List, Ok, false, IfErr, IfOk};
ghost use Rattle.std.specs.FinSet as set;
ghost use Rattle.std.specs.List.{All};
ghost use Rattle.std.specs.Option.{option_copied};
ghost use Rattle.vet_base.specs.CriteriaChanges.{is_built_in};
ghost use Rattle.vet_base.specs.Defined.{defined, table_told};
ghost use Rattle.vet_base.specs.Gives.{Gives};
ghost use Rattle.vet_files.specs.declared.audits_file.AuditsContent.{AuditsContent};
ghost use Rattle.vet_graph.specs.Class.{IsClassOfPair};
ghost use Rattle.vet_register.specs.ClassOfFile.{IsClassOfFile, checked, class_in, class_told, content_told, facts_of};
ghost use Rattle.vet_register.specs.ClassOfFile.{pair_told, unknown_in, unknown_name};
ghost use Rattle.vet_register.specs.NamesOfFiles.{unknown_of_entries};

use std::alloc::Global;
use vet_base::criteria_table::CriteriaTable;
use vet_base::criterion::Criterion;
use vet_base::defined::lesser;
use vet_base::document::check_length;
use vet_base::limits::MOST_CRITERIA;
use vet_base::name::{Name, PackageName};
use vet_base::names::Names;
use vet_base::refusal::Refusal;
use vet_base::version::VetVersion;
use vet_demand::pair::Pair;
use vet_entries::entry::Entry;
use vet_entries::facts::EntryFacts;
use vet_files::audits_file::{AuditsContent, read_audits};
use vet_graph::class::Class;
use vet_graph::pair_class::class_of_pair;

/// The class of a pair in a register that holds only this audits file, if only this pair is demanded.
///
/// Refused, the first that applies: `BadName` and `BadVersion` of the words; `TooLarge` of `input` for a file of more
/// than 8,388,608 bytes; `TomlRefused`, `FieldRefused` and `TooLarge` of `text` of the file; `TooManyCriteria` if there
/// are more than `MOST_CRITERIA`, including the built-in ones; `UnknownCriterion` of the least name in the file or the
/// words that is not a criterion. `NoMemory` can come at any point.
pub fn class_of_file(
    alloc: Global,
    file: &[u8],
    package: &str,
    version: &str,
    criterion: &str,
) -> Result<Class, Refusal>
    ensures is { IfOk result (IsClassOfFile file.now «package».now version.now criterion.now) }
    ensures told { Gives (λ class. class)
        (class_told file.now «package».now version.now criterion.now) result }
{
    let pair = read_pair(alloc, package, version, criterion)?;
    let content = read_content(alloc, file)?;
    class_in(alloc, content, &pair)
}

// The pair that three words name.
fn read_pair(alloc: Global, package: &str, version: &str, criterion: &str) -> Result<Pair, Refusal>
    ensures { Gives (λ pair. pair) (pair_told «package».now version.now criterion.now) result }
{
    Ok(Pair {
        package: PackageName::parse(alloc, package)?,
        version: VetVersion::parse(alloc, version)?,
        criterion: Name::parse(alloc, criterion)?,
    })
}

// The content of a file that isn't too long.
fn read_content(alloc: Global, file: &[u8]) -> Result<AuditsContent, Refusal>
    ensures told { Gives (λ content. content) (content_told file.now) result }
    ensures further { IfOk result (λ content. All (λ c. is_built_in c.name ≡ false) content.criteria) }
{
    check_length(file)?;
    let found = read_audits(alloc, file)?;
    Ok(found.content)
}

// The class by a file's content, if there are not too many criteria and each that is named is known.
fn class_in(alloc: Global, content: AuditsContent, pair: &Pair) -> Result<Class, Refusal>
    requires { All (λ c. is_built_in c.name ≡ false) content.criteria }
    ensures is { IfOk result (IsClassOfPair (facts_of content) pair.now) }
    ensures told { Gives (λ class. class) (class_in content pair.now) result }
{
    check_criteria(alloc, &pair.criterion, &content)?;
    let criteria = defined_table(alloc, content.criteria.into_vec())?;
    let facts = EntryFacts::of(alloc, criteria, content.entries.into_vec())?;
    class_of_pair(alloc, &facts, pair)
}

// Refuses a file with too many criteria, and an unknown name in it or in a word.
fn check_criteria(alloc: Global, word: &Name, content: &AuditsContent) -> Result<(), Refusal>
    ensures { Gives (λ u. u) (checked word.now content.now) result }
{
    let known = CriteriaTable::names_with(alloc, content.criteria.as_slice())?;
    if known.len() > MOST_CRITERIA {
        return Err(Refusal::TooManyCriteria);
    }
    if let Some(unknown) = unknown_name(&known, word, content) {
        return Err(Refusal::UnknownCriterion(unknown.clone()?));
    }
    Ok(())
}

/// The table of a file's criteria. Asks that none of them is refused. Refused: `NoMemory`.
pub(crate) fn defined_table(
    alloc: Global,
    criteria: Vec<Criterion>,
) -> Result<CriteriaTable, Refusal>
    requires { table_told criteria.items ≡ Ok (defined criteria.items) }
    ensures ok { IfOk result (λ table. table ≡ defined criteria.items) }
    ensures memory { IfErr result (λ e. e ≡ Refusal.NoMemory) }
{
    CriteriaTable::of(alloc, criteria)
}

// The least unknown name among a word and those of a file's content, given the known names.
fn unknown_name<'a>(known: &Names, word: &'a Name, content: &'a AuditsContent) -> Option<&'a Name>
    requires { (n : List ℕ) → set.contains known.now n ≡ map.contains_key (defined content.now.criteria) n }
    ensures { option_copied result
        ≡ unknown_name (map.contains_key (defined content.now.criteria)) word.now content.now }
{
    unknown_outside(known, word, content)
}

// The least name that isn't in a set, among a word and those of a file's content.
fn unknown_outside<'a>(
    known: &Names,
    word: &'a Name,
    content: &'a AuditsContent,
) -> Option<&'a Name>
    ensures { option_copied result ≡ unknown_name (set.contains known.now) word.now content.now }
{
    let implied = CriteriaTable::least_undefined(content.criteria.as_slice(), known);
    let least = lesser(unknown_word(known, word), implied);
    unknown_of_entries(known, least, content.entries.as_slice())
}

// The word, if it isn't known.
fn unknown_word<'a>(known: &Names, word: &'a Name) -> Option<&'a Name>
    ensures { option_copied result ≡ unknown_in (set.contains known.now) word.now }
{
    if known.contains(word) {
        None
    } else {
        Some(word)
    }
}

/// The lesser of a given name, if there is one, and the least unknown name among the criteria of some entries.
pub(crate) fn unknown_of_entries<'a>(
    known: &Names,
    first: Option<&'a Name>,
    entries: &'a [Entry],
) -> Option<&'a Name>
    ensures { option_copied result
        ≡ unknown_of_entries (set.contains known.now) (option_copied first.entry) entries.now }
{
    let mut least = first;
    for entry in entries {
        least = lesser(least, entry.criteria.least_outside(known));
    }
    least
}
