//! Days of the calendar.
ghost use Rattle.std.specs.Prelude.{◌≡◌, ◌↔◌, ◌<◌, ◌+◌, ◌+ℤ◌, ◌<ℤ◌, ◌≤ℤ◌, length, pos, true, Some, IfSome, IsNone};
ghost use Rattle.std.specs.Prelude.{IsSome, IsTrue, option_map, refl};
ghost use Rattle.std.specs.Cmp.{int_eq_equiv, on_equiv, partial_equiv_from_equiv, po};
ghost use Rattle.std.specs.Ordering.{as_partial_cmp};
ghost use Rattle.jiff_core.specs.Calendar.{IsBetween};
ghost use Rattle.jiff_core.specs.Date.{epoch_day};
ghost use Rattle.vet_base.specs.Gives.{found_or};
ghost use Rattle.vet_base.specs.Day.{DayValue, checked_day, day_cmp, day_eq, day_number, day_text, four_digits, is_day};
ghost use Rattle.vet_base.specs.Day.{read_day, two_digits, written_day};
ghost use Rattle.vet_base.specs.DayLaws.{day_total};

use crate::limits::{FIRST_DAY_NUMBER, LAST_DAY_NUMBER, LAST_YEAR};
use crate::refusal::Refusal;
use jiff_core::civil::{Date, days_in_month};
use std::cmp::Ordering;
use std::fmt;
use std::hash::{Hash, Hasher};
use std::marker::Model;

/// A day of the proleptic Gregorian calendar, from 0000-01-01 to 9999-12-31. Its text is the ten bytes
/// `YYYY-MM-DD`. Days are compared by their numbers; 1970-01-01 has number 0.
#[derive(Clone, Copy)]
pub struct Day {
    year: u16,
    month: u8,
    day: u8,
}

impl Model for Day {
    ghost use Rattle.std.specs.Prelude.{◌≡◌, true};
    ghost use Rattle.vet_base.specs.Day.{DayValue, is_day};

    ghost Value = { DayValue };

    ghost view = { λ d. record { year = d.year; month = d.month; day = d.day } };

    ghost invariant = { λ d. is_day (record { year = d.year; month = d.month; day = d.day }) ≡ true };

    ghost inverse = { λ d. record { year = d.year; month = d.month; day = d.day } };
}

// The number that the two digits at a place write, if they are digits.
fn two_digits(text: &[u8], i: usize) -> Option<u8>
    requires { i + 1 < length text.now }
    ensures value { result ≡ two_digits text.now i }
    ensures small { IfSome result (λ n. n < 100) }
{
    let (tens, ones) = (text[i], text[i + 1]);
    if tens.is_ascii_digit() && ones.is_ascii_digit() {
        Some((tens - b'0') * 10 + (ones - b'0'))
    } else {
        None
    }
}

fn four_digits(text: &[u8], i: usize) -> Option<u16>
    requires { i + 3 < length text.now }
    ensures { result ≡ four_digits text.now i }
{
    let high = two_digits(text, i)?;
    let low = two_digits(text, i + 2)?;
    Some(u16::from(high) * 100 + u16::from(low))
}

// The year, the month and the day that `YYYY-MM-DD` writes. The calendar need not have that day.
fn written_day(text: &[u8]) -> Option<(u16, u8, u8)>
    ensures { option_map (λ p. record { year = p.0; month = p.1; day = p.2 }) result ≡ written_day text.now }
{
    if text.len() != 10 || text[4] != b'-' || text[7] != b'-' {
        return None;
    }
    let year = four_digits(text, 0)?;
    let month = two_digits(text, 5)?;
    let day = two_digits(text, 8)?;
    Some((year, month, day))
}

fn is_day(year: u16, month: u8, day: u8) -> bool
    ensures { result ≡ is_day (record { year = year; month = month; day = day }) }
{
    year <= LAST_YEAR
        && 1 <= month
        && month <= 12
        && 1 <= day
        && day <= days_in_month(year as i16, month)
}

impl Day {
    /// Reads a day: exactly ten bytes `YYYY-MM-DD` that name a day of the calendar, year 0000 included. `None` if the
    /// text is anything else.
    pub fn read(text: &str) -> Option<Day>
        ensures { result ≡ read_day text.now }
    {
        let (year, month, day) = written_day(text.as_bytes())?;
        Day::from_parts(year, month, day)
    }

    /// Reads a day. Refused: `BadDay` if the text is not one.
    pub fn parse(text: &str) -> Result<Day, Refusal>
        ensures { result ≡ found_or Refusal.BadDay (read_day text.now) }
    {
        Day::read(text).ok_or(Refusal::BadDay)
    }

    /// The day with these parts, if the calendar has it, up to 9999-12-31.
    pub fn from_parts(year: u16, month: u8, day: u8) -> Option<Day>
        ensures { result ≡ checked_day (record { year = year; month = month; day = day }) }
    {
        if is_day(year, month, day) {
            Some(Day { year, month, day })
        } else {
            None
        }
    }

    // The same day as a date of `jiff_core`.
    fn date(self) -> Date
        ensures value { epoch_day result ≡ day_number self }
        ensures day { is_day self ≡ true }
    {
        Date {
            year: self.year as i16,
            month: self.month,
            day: self.day,
        }
    }

    fn from_date(date: Date) -> Day
        requires { pos 0 ≤ℤ date.year }
        ensures number { day_number result ≡ epoch_day date }
        ensures day { is_day result ≡ true }
    {
        Day {
            year: date.year as u16,
            month: date.month,
            day: date.day,
        }
    }

    /// The day's number, from -719,528 to 2,932,896. 1970-01-01 has number 0.
    pub fn number(self) -> i32
        ensures value { result ≡ day_number self }
        ensures range { IsBetween FIRST_DAY_NUMBER LAST_DAY_NUMBER result }
        ensures day { is_day self ≡ true }
    {
        self.date().to_unix_epoch_day()
    }

    /// The day with a number; 1970-01-01 has number 0. `None` exactly if the number is that of a day before 0000-01-01
    /// or past 9999-12-31.
    pub fn of_number(number: i64) -> Option<Day>
        ensures there { IsSome result ↔ IsBetween FIRST_DAY_NUMBER LAST_DAY_NUMBER number }
        ensures number { IfSome result (λ d. day_number d ≡ number) }
        ensures only { (d : DayValue) → is_day d ≡ true → day_number d ≡ number → result ≡ Some d }
    {
        if number < i64::from(FIRST_DAY_NUMBER) {
            return None;
        }
        match Date::from_unix_epoch_day(number) {
            Ok(date) => Some(Day::from_date(date)),
            Err(_) => None,
        }
    }

    /// The day that many days later. `None` exactly if that is past 9999-12-31.
    pub fn plus(self, days: u32) -> Option<Day>
        ensures past { IsNone result ↔ (LAST_DAY_NUMBER <ℤ (day_number self +ℤ pos days)) }
        ensures number { IfSome result (λ d. day_number d ≡ day_number self +ℤ pos days) }
    {
        match self.date().checked_add(i64::from(days)) {
            Ok(date) => Some(Day::from_date(date)),
            Err(_past) => None,
        }
    }
}

impl fmt::Display for Day {
    ghost output = { λ d. Some (day_text d) };

    fn fmt<W: fmt::Write>(&self, f: &mut fmt::Formatter<W>) -> fmt::Result {
        write!(f, "{:04}-{:02}-{:02}", self.year, self.month, self.day)
    }
}

/// The text of a day is read back as that day.
pub fn day_text_reads_back(day: Day)
    ensures { read_day (day_text day) ≡ Some day }
{
    let _ = &day.year;
}

/// Two days with the same number are the same day. Does nothing.
pub fn a_number_is_of_one_day(a: Day, b: Day)
    ensures { day_number a ≡ day_number b → a ≡ b }
{
    let _ = &a.year;
    let _ = &b.year;
}

impl PartialEq for Day {
    ghost eq = { day_eq };

    ghost laws = { partial_equiv_from_equiv (on_equiv day_number int_eq_equiv) };

    // A day is equal only to itself.
    fn eq(&self, other: &Day) -> bool
        ensures value { result ≡ day_eq self.now other.now }
        ensures same { IsTrue result ↔ (self.now ≡ other.now) }
    {
        self.number() == other.number()
    }
}

impl Eq for Day {
    ghost laws = { on_equiv day_number int_eq_equiv };
}

impl PartialOrd for Day {
    ghost partial_cmp = { as_partial_cmp day_cmp };

    ghost laws = { po day_total (λ a b. refl) };

    fn partial_cmp(&self, other: &Day) -> Option<Ordering> {
        Some(self.cmp(other))
    }
}

impl Ord for Day {
    ghost cmp = { day_cmp };

    ghost total = { day_total };

    ghost matches_partial_cmp = { λ a b. refl };

    ghost matches_eq = { λ a b. refl };

    fn cmp(&self, other: &Day) -> Ordering {
        self.date().cmp(&other.date())
    }
}

impl Hash for Day {
    ghost use Rattle.std.proofs.Common.{rules};
    ghost use Rattle.std.specs.Cmp.Rules.{hashing};
    ghost use Rattle.std.specs.Hash as fed;
    ghost use Rattle.vet_base.specs.Day.{day_number};

    ghost hash_input = { λ d. fed.i32 (day_number d) };

    ghost respects_eq = { Prim.search (hashing, rules) };

    fn hash<H: Hasher>(&self, state: &mut H) {
        state.write_i32(self.number());
    }
}
