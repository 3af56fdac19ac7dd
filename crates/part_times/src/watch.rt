//! The time that calls take.

use std::time::Instant;

/// A moment, or none where the clock can't be read.
pub fn now(rt: &HostRuntime) -> Option<Instant> {
    Instant::now(rt).ok()
}

/// The nanoseconds since a moment, or 0 where the clock can't be read.
pub fn nanos_since(rt: &HostRuntime, start: Option<Instant>) -> u64 {
    let (Some(start), Some(end)) = (start, now(rt)) else {
        return 0;
    };
    let passed = end.duration_since(start);
    let of_seconds = passed.as_secs().saturating_mul(1_000_000_000);
    of_seconds.saturating_add(u64::from(passed.subsec_nanos()))
}
