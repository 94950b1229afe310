//! Which exempt steps a search takes, so that few searches tell the class of every version.
//!
//! A chain starts from nothing once, so it has at most one exempt step, its first. A chain that ends in a review may
//! start with an exempt step to another version alone. Number the versions that have an exempt step: two different
//! numbers differ in some binary digit. So for each digit, and for each of its two values, one search takes the exempt
//! steps to the versions whose number has that digit. That is two searches a digit, and not one a version.
ghost use Rattle.std.specs.Prelude.{◌≡◌, ◌⊎◌, ◌+◌, ◌-◌, ◌^◌, ◌<◌, ◌≤◌};
ghost use Rattle.vet_masks.specs.Rules.{AreEnough, has_digit, rule_of, skips};

// A binary digit of a number: its place, the lowest first, and its value.
#[derive(Clone, Copy)]
pub(crate) struct Digit {
    pub(crate) place: usize,
    pub(crate) value: usize,
}

// Which exempt steps a search takes.
#[derive(Clone, Copy)]
pub(crate) enum Rule {
    // None.
    Reviewed,
    // Those to versions whose number has a digit.
    With(Digit),
}

impl Digit {
    // Whether a number has it.
    fn is_of(&self, number: usize) -> bool
        ensures { result ≡ has_digit self.now number }
    {
        let value = if self.place < 64 {
            (number >> self.place) % 2
        } else {
            0
        };
        value == self.value
    }
}

impl Rule {
    // The rule of a search by its place among the searches: no exempt step first, and then, for each digit, its values.
    pub(crate) fn of(place: usize) -> Rule
        ensures { result ≡ rule_of place }
    {
        if place == 0 {
            return Rule::Reviewed;
        }
        Rule::With(Digit {
            place: (place - 1) / 2,
            value: (place - 1) % 2,
        })
    }

    // Whether a search skips the exempt steps to a version, by its number among those that have such steps.
    pub(crate) fn skips(&self, number: Option<usize>) -> bool
        ensures { result ≡ skips self.now number }
    {
        match self {
            Rule::Reviewed => true,
            Rule::With(digit) => match number {
                None => true,
                Some(number) => !digit.is_of(number),
            },
        }
    }
}

// How many searches the classes take if this many versions have an exempt step. A count has at most 64 binary digits,
// and each of them takes two searches.
pub(crate) fn searches_for(count: usize) -> usize
    ensures enough { AreEnough count result }
    ensures few { result ≤ count + 2 }
    ensures most { result < 130 }
{
    if count == 0 {
        return 1;
    }
    if count == 1 {
        return 2;
    }
    1 + 2 * digits_of(count)
}

// How many binary digits tell so many numbers apart.
fn digits_of(count: usize) -> usize
    ensures enough { count ≤ 2 ^ result }
    ensures least { (result ≡ 0) ⊎ (2 ^ (result - 1) < count) }
    ensures most { result < 65 }
{
    let mut digits = 0;
    let mut numbers: u128 = 1;
    'digits: while numbers < count as u128 {
        numbers *= 2;
        digits += 1;
    }
    digits
}
