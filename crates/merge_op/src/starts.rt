//! Where the regions of the inputs begin.

ghost use Rattle.std.specs.Prelude.{◌≡◌, ◌+◌, ◌*◌, ◌/◌, ◌^◌, ◌<◌, unwrap_or};
ghost use Rattle.merge_op.specs.Regions.{IsStart, room_before, room_in, room_now, start_at};
ghost use Rattle.row_set.specs.Sets.{last_key};

use row_set::RowSet;
use tick_table::{TickTable, Version};

/// A region has a multiple of this many keys.
const REGION: u64 = 65_536;

/// Where the region of an input begins.
#[derive(Clone, Copy)]
pub(crate) struct Start {
    /// Before the step.
    pub(crate) before: u64,
    /// Now.
    pub(crate) now: u64,
}

/// How much room a region has for these keys: the least positive multiple of 65,536 that is past the last of them.
fn room_for(keys: &RowSet) -> u64
    ensures { result ≡ 65536 * (unwrap_or (last_key keys.now) 0 / 65536 + 1) }
{
    (keys.last().unwrap_or(0) / REGION + 1) * REGION
}

/// How much room the region of an input has.
pub(crate) fn room_in(version: Version, input: &TickTable) -> u64
    ensures room { result ≡ room_in version input.now }
    ensures small { result < 2 ^ 62 + 2 ^ 17 }
{
    match version {
        Version::Before => room_for(input.prev_rows()),
        Version::Now => room_for(input.rows()),
    }
}

/// Where the region behind that of an input begins.
pub(crate) fn behind(start: Start, input: &TickTable) -> Start
    requires { IsStart start }
    ensures { result ≡ start_at (start.before + room_before input.now) (start.now + room_now input.now) }
{
    Start {
        before: start.before + room_in(Version::Before, input),
        now: start.now + room_in(Version::Now, input),
    }
}
