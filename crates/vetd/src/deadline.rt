//! How long a connection may last, how long its client may be silent, and the day of the clock.
ghost use Rattle.std.specs.Prelude.{◌≡◌, ◌==◌, ◌≤◌, ◌/◌, IfErr, IfOk, IfSome, None, Some, if◌then◌else◌, min, pos};
ghost use Rattle.std.specs.Prelude.{true};
ghost use Rattle.std.specs.Duration.{as_nanos};
ghost use Rattle.std.specs.Time.{FitsClock, instant_nanos};
ghost use Rattle.vetd.specs.Deadline.{IsLeft, IsWait, end_of_connection, longest_silence};
ghost use Rattle.std_io.specs.IoError.{error_kind};
ghost use Rattle.std_io.specs.declared.io.kind.ErrorKind.TheVariants.{TimedOut};
ghost use Rattle.vet_base.specs.Day.{DayValue, day_number, is_day};

use std::io;
use std::time::{Clock, Duration, Instant, SystemTime, UNIX_EPOCH};
use vet_base::day::Day;

/// How many seconds a connection may last, from when it is accepted.
pub const CONNECTION_SECONDS: u64 = 30;

/// How many seconds a client may be silent while a read waits for it.
pub const SILENT_SECONDS: u64 = 5;

/// How many seconds a day has.
const SECONDS_OF_A_DAY: u64 = 86_400;

/// When a connection ends, by the clock that counts from an arbitrary start.
#[derive(Clone, Copy)]
pub struct Deadline {
    end: Instant,
}

impl Deadline {
    /// The deadline of a connection that is accepted now. Returns the clock's error if it can't be read, and
    /// `InvalidData` if it can't count that far.
    pub fn from_now<C: Clock>(clock: &C) -> io::Result<Deadline> {
        match Deadline::after(Instant::now(clock)?) {
            Some(deadline) => Ok(deadline),
            None => Err(io::Error::from(io::ErrorKind::InvalidData)),
        }
    }

    /// The deadline of a connection that was accepted at this time. `None` exactly if no clock counts that far.
    fn after(accepted: Instant) -> Option<Deadline>
        ensures is { IfSome result (λ d. instant_nanos d.end ≡ end_of_connection (instant_nanos accepted)) }
        ensures none { result ≡ None → ¬ FitsClock (end_of_connection (instant_nanos accepted)) }
    {
        let lasting = Duration::from_secs(CONNECTION_SECONDS);
        let end = accepted.checked_add(lasting)?;
        Some(Deadline { end })
    }

    /// The time that is left, which is never zero, since a stream refuses a time-out of zero. Fails with `TimedOut`
    /// exactly if no time is left.
    pub fn time_left(self, now: Instant) -> io::Result<Duration>
        ensures left { IfOk result (λ left. IsLeft (instant_nanos now) (instant_nanos self.end) (as_nanos left)) }
        ensures none { IfErr result (λ _. instant_nanos self.end ≤ instant_nanos now) }
        ensures kind { IfErr result (λ e. error_kind e ≡ TimedOut) }
    {
        match self.left_at(now) {
            Some(left) => Ok(left),
            None => Err(io::Error::from(io::ErrorKind::TimedOut)),
        }
    }

    /// How long a read that begins now may wait: for the time that is left, and no longer than a client may be silent.
    /// Fails with `TimedOut` exactly if no time is left.
    pub fn read_wait(self, now: Instant) -> io::Result<Duration>
        ensures wait { IfOk result (λ wait. IsWait (instant_nanos now) (instant_nanos self.end) (as_nanos wait)) }
        ensures none { IfErr result (λ _. instant_nanos self.end ≤ instant_nanos now) }
        ensures kind { IfErr result (λ e. error_kind e ≡ TimedOut) }
    {
        let left = self.time_left(now)?;
        Ok(wait_within(left))
    }

    /// The time that is left, unless it is zero.
    fn left_at(self, now: Instant) -> Option<Duration>
        ensures left { IfSome result (λ left. IsLeft (instant_nanos now) (instant_nanos self.end) (as_nanos left)) }
        ensures none { result ≡ None → instant_nanos self.end ≤ instant_nanos now }
    {
        nonzero(self.end.duration_since(now))
    }
}

/// A time, unless it is zero.
fn nonzero(left: Duration) -> Option<Duration>
    ensures { result ≡ (if as_nanos left == 0 then None else Some left) }
{
    if left.is_zero() { None } else { Some(left) }
}

/// How long a read may wait if so much time is left.
fn wait_within(left: Duration) -> Duration
    ensures { as_nanos result ≡ min (as_nanos left) longest_silence }
{
    let longest = Duration::from_secs(SILENT_SECONDS);
    if longest.as_nanos() < left.as_nanos() {
        longest
    } else {
        left
    }
}

/// The clock's day in UTC. Returns the clock's error if it can't be read, and `InvalidData` if it is before 1970-01-01
/// or past 9999-12-31.
pub fn today<C: Clock>(clock: &C) -> io::Result<Day> {
    match SystemTime::now(clock)?.duration_since(UNIX_EPOCH) {
        Ok(since_1970) => match day_at(since_1970.as_secs()) {
            Some(day) => Ok(day),
            None => Err(io::Error::from(io::ErrorKind::InvalidData)),
        },
        Err(_) => Err(io::Error::from(io::ErrorKind::InvalidData)),
    }
}

/// The day at so many seconds after the beginning of 1970. `None` exactly if that is past 9999-12-31.
fn day_at(seconds: u64) -> Option<Day>
    ensures number { IfSome result (λ day. day_number day ≡ pos (seconds / 86400)) }
    ensures only { (d : DayValue) → is_day d ≡ true → day_number d ≡ pos (seconds / 86400)
        → result ≡ Some d }
{
    Day::of_number((seconds / SECONDS_OF_A_DAY) as i64)
}
