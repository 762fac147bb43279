//! Where to look first among numbers that rise evenly.
ghost use Rattle.std.specs.Prelude.{◌<◌, ◌≤◌};

/// Of a span that is not smaller the upper bits are enough to guess by, and no product with a count is too large.
const WIDE: u64 = 1 << 40;

/// Where a number would stand among so many that lie evenly between the least and the most.
pub fn likely_place(least: u64, most: u64, number: u64, count: usize) -> usize {
    let span = most.saturating_sub(least);
    let part = number.saturating_sub(least).min(span);
    let (part, span) = if span < WIDE {
        (part, span)
    } else {
        (part >> 24, span >> 24)
    };
    (part.saturating_mul(count as u64) / span.saturating_add(1)) as usize
}

/// A place to look at between two others: the guessed one, or the middle where that is not between them.
pub fn inside(guess: usize, low: usize, high: usize) -> usize
    requires { low < high }
    ensures from { low ≤ result }
    ensures to { result < high }
{
    if low <= guess && guess < high {
        guess
    } else {
        low + (high - low) / 2
    }
}
