// Headers in pieces.
ghost use Rattle.std.specs.Prelude.{◌≡◌};
ghost use Rattle.feed.specs.Feeding.{start_of};
ghost use Rattle.capi.specs.Answers.{imposed_by, form_by};
ghost use Rattle.capi.specs.Feeds.{feed_as, feed_in_c, close_in_c, LeavesInC, ClosesInC};

use capi::feeds;
use capi::feeds::{VcfhFed, VcfhFeed};

// The state before the first piece.
#[unsafe(no_mangle)]
pub extern "C" fn vcfh_feed_start(imposed: u64, major: u32, minor: u32) -> VcfhFeed
    ensures { result ≡ feed_as (start_of (imposed_by imposed major minor)) }
{
    feeds::vcfh_feed_start(imposed, major, minor)
}

// Takes a piece into the buffer, after the bytes held, and reads the lines that are complete then into the table.
#[unsafe(no_mangle)]
pub extern "C" fn vcfh_feed(
    state: VcfhFeed,
    piece: &[u8],
    form: u64,
    buffer: &mut [u8],
    table: &mut [u64],
) -> VcfhFed
    ensures { LeavesInC (feed_in_c state (form_by form) piece.now buffer.old table.old) result buffer.new table.new }
{
    feeds::vcfh_feed(state, piece, form, buffer, table)
}

// The sender has no more: what is left is the last line.
#[unsafe(no_mangle)]
pub extern "C" fn vcfh_close(
    state: VcfhFeed,
    form: u64,
    buffer: &[u8],
    table: &mut [u64],
) -> VcfhFed
    ensures { ClosesInC (close_in_c state (form_by form) buffer.now table.old) result table.new }
{
    feeds::vcfh_close(state, form, buffer, table)
}
