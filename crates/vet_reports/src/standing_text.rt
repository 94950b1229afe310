//! The report of the standing.
ghost use Rattle.std.specs.Prelude.{◌≡◌, ◌∷◌, [], ◌++◌, IfErr, IfOk, OnOk, map, string_bytes};
ghost use Rattle.vet_reports.specs.ByExample as example;
ghost use Rattle.vet_reports.specs.StandingText.{is_class_asked, is_package_asked, is_shown, stand_line};
ghost use Rattle.vet_reports.specs.StandingText.{standing_text, stands_text};

use crate::columns::push_pair;
use std::alloc::{AllocError, Global};
use vet_base::name::PackageName;
use vet_base::refusal::Refusal;
use vet_demand::pair::Pair;
use vet_graph::class::Class;
use vet_graph::keeper::Keeper;
use vet_graph::standing::Stand;
use vet_register::register::Register;

/// The pairs that are asked for: those of a package, those in a class, those of both, or all if neither is given.
pub struct Filter {
    pub package: Option<PackageName>,
    pub class: Option<Class>,
}

impl Drop for Filter {
    fn drop(self) {
        let Filter {
            package: _,
            class: _,
        } = self;
    }
}

impl Filter {
    // Whether a pair in a class is asked for.
    fn shows(&self, pair: &Pair, class: Class) -> bool
        ensures { result ≡ is_shown self.now (record { pair = pair.now; class = class }) }
    {
        self.asks_for_package(&pair.package) && self.asks_for_class(class)
    }

    fn asks_for_package(&self, package: &PackageName) -> bool
        ensures { result ≡ is_package_asked self.now.«package» «package».now }
    {
        match &self.package {
            None => true,
            Some(asked) => asked == package,
        }
    }

    fn asks_for_class(&self, class: Class) -> bool
        ensures { result ≡ is_class_asked self.now.class class }
    {
        match self.class {
            None => true,
            Some(asked) => asked == class,
        }
    }
}

/// The report of the standing: a line for each demanded pair that the filter asks for, in order. A line has the
/// package, aligned left in 24 characters, the version and the criterion, each aligned left in 20, and the class. Costs
/// one walk over the demanded pairs. Refused: `NoMemory`.
pub fn standing_text<K: Keeper>(
    alloc: Global,
    register: &Register<K>,
    filter: &Filter,
) -> Result<String, Refusal>
    ensures text { IfOk result (λ text. string_bytes text ≡ standing_text filter.now register.now.state) }
    ensures memory { IfErr result (λ e. e ≡ Refusal.NoMemory) }
{
    let stands = register.stands(alloc)?;
    let mut text = String::new(alloc);
    push_stands(alloc, &mut text, stands.as_slice(), filter)?;
    Ok(text)
}

// Adds the lines of the demanded pairs that are asked for.
fn push_stands(
    alloc: Global,
    text: &mut String,
    stands: &[&Stand],
    filter: &Filter,
) -> Result<(), AllocError>
    ensures { OnOk result (string_bytes text.new
        ≡ string_bytes text.old ++ stands_text filter.now (map (λ s. s.now) stands.now)) }
{
    'stands: for stand in stands {
        push_if_shown(alloc, text, filter, &stand.pair, stand.class)?;
    }
    Ok(())
}

// Adds the line of a pair, if it is asked for.
fn push_if_shown(
    alloc: Global,
    text: &mut String,
    filter: &Filter,
    pair: &Pair,
    class: Class,
) -> Result<(), AllocError>
    ensures { OnOk result (string_bytes text.new
        ≡ string_bytes text.old ++ stands_text filter.now (record { pair = pair.now; class = class } ∷ [])) }
{
    if filter.shows(pair, class) {
        push_stand(alloc, text, pair, class)
    } else {
        Ok(())
    }
}

// Adds the line of a pair.
fn push_stand(alloc: Global, text: &mut String, pair: &Pair, class: Class) -> Result<(), AllocError>
    ensures { OnOk result (string_bytes text.new
        ≡ string_bytes text.old ++ stand_line (record { pair = pair.now; class = class })) }
{
    push_pair(alloc, text, pair)?;
    text.push_str(class.word())?;
    text.push('\n')
}

/// Reports of a standing by example: of all pairs, of those of another package, and of those of a class. Does nothing.
pub fn standing_by_example()
    ensures all { stands_text example.all_pairs example.standing ≡ example.standing_report }
    ensures of_another_package { stands_text example.of_log example.standing ≡ [] }
    ensures of_a_class { stands_text example.in_full example.standing ≡ example.full_report }
{}
