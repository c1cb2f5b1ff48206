//! Times, measured by a clock.

ghost use Rattle.std.specs.Prelude.{◌≤◌};
ghost use Rattle.std.specs.Duration.{as_nanos};

use crate::failure::Failure;
use std::rt::Clock;
use std::time::{Duration, Instant};

/// Returns the shorter of two times.
pub fn lesser(a: Duration, b: Duration) -> Duration
    ensures first { as_nanos result ≤ as_nanos a }
    ensures second { as_nanos result ≤ as_nanos b }
{
    if b < a { b } else { a }
}

/// Returns the current time.
pub fn now<C: Clock>(clock: &C) -> Result<Instant, Failure> {
    match Instant::now(clock) {
        Ok(instant) => Ok(instant),
        Err(_) => Err(Failure::NoClock),
    }
}

/// Returns the time since `start`.
pub fn elapsed<C: Clock>(clock: &C, start: Instant) -> Result<Duration, Failure> {
    match start.elapsed(clock) {
        Ok(duration) => Ok(duration),
        Err(_) => Err(Failure::NoClock),
    }
}
