//! Lines that ask for values of days.
//!
//! `day-number DAY` prints the number of a day, and `day-order DAY DAY` how two compare. `day-of-parts YEAR MONTH DAY`
//! and `plus DAY N` print a day, or `none`.

use crate::fault::Fault;
use crate::line::two;
use crate::versions::order_word;
use std::alloc::Global;
use vet_base::day::Day;

/// How two days compare.
pub fn day_order(alloc: Global, texts: &[String]) -> Result<String, Fault> {
    let (first, second) = two(texts)?;
    let first = Day::parse(first)?;
    let second = Day::parse(second)?;
    let word = order_word(first.cmp(&second), first == second);
    Ok(String::from_str(alloc, word)?)
}

/// The number of a day.
pub fn day_number(alloc: Global, text: &str) -> Result<String, Fault> {
    Ok(Day::parse(text)?.number().to_string(alloc)?)
}

/// The day of a year, a month and a day of the month.
pub fn day_of_parts(alloc: Global, texts: &[String]) -> Result<String, Fault> {
    let [year, month, day] = texts else {
        return Err(Fault::NotUnderstood);
    };
    let Ok(year) = year.as_str().parse::<u16>() else {
        return Err(Fault::NotUnderstood);
    };
    let Ok(month) = month.as_str().parse::<u8>() else {
        return Err(Fault::NotUnderstood);
    };
    let Ok(day) = day.as_str().parse::<u8>() else {
        return Err(Fault::NotUnderstood);
    };
    day_or_none(alloc, Day::from_parts(year, month, day))
}

/// The day so many days after another.
pub fn plus(alloc: Global, texts: &[String]) -> Result<String, Fault> {
    let (day, days) = two(texts)?;
    let Ok(days) = days.parse::<u32>() else {
        return Err(Fault::NotUnderstood);
    };
    day_or_none(alloc, Day::parse(day)?.plus(days))
}

fn day_or_none(alloc: Global, day: Option<Day>) -> Result<String, Fault> {
    match day {
        Some(day) => Ok(day.to_string(alloc)?),
        None => Ok(String::from_str(alloc, "none")?),
    }
}
