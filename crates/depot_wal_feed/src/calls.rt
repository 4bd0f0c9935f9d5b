// The three C calls of the page feed.
ghost use Rattle.std.specs.Prelude.{◌≡◌};
ghost use Rattle.wal_types.specs.Versions.{version_of};
ghost use Rattle.segment_format.specs.Sums.{version_sum};
ghost use Rattle.depot_wal_feed.specs.Numbers.{page_code, page_out, read_code, read_out, feed_page, feed_read, start_code, start_numbers};

use crate::state_numbers::{is_known, state_of, store, store_place, version_in, version_number};
use feed_format::FeedEvent;
use segment_format::Good;
use wal_types::{Refusal, version_of};

// A fresh state of a version (FORMAT 17.10); where there is no such version, one of version 1.
#[unsafe(no_mangle)]
pub extern "C" fn depot_wal_feed_start(state: &mut [u64; 16], version: u32) -> u32
    ensures { (result ≡ start_code (version_of version))
        × (state.new ≡ start_numbers (version_of version)) }
{
    match version_of(version) {
        Some(known) => {
            let number = version_number(known);
            *state = [0, 0, 0, 1, 0, 0, 0, 0, 0, number, 0, 0, 0, 0, 0, 0];
            0
        }
        None => {
            *state = [0, 0, 0, 1, 0, 0, 0, 0, 0, 1, 0, 0, 0, 0, 0, 0];
            wal_types::number(Refusal::BadName)
        }
    }
}

// A feed's answer and its pair as numbers.
fn page_result(answer: Result<(), Refusal>, good: Good, out: &mut [u64; 3]) -> u32
    ensures { (result ≡ page_code answer) × (out.new ≡ page_out answer good) }
{
    let records = good.records as u64;
    let end = good.offset.0 as u64;
    match answer {
        Ok(()) => {
            *out = [0, records, end];
            0
        }
        Err(why) => {
            let at = wal_types::place(why);
            *out = [at.0 as u64, records, end];
            wal_types::number(why)
        }
    }
}

// A read's answer and its pair as numbers.
fn read_result(answer: Result<FeedEvent, Refusal>, good: Good, out: &mut [u64; 5]) -> u32
    ensures { (result ≡ read_code answer) × (out.new ≡ read_out answer good) }
{
    let records = good.records as u64;
    let end = good.offset.0 as u64;
    match answer {
        Ok(FeedEvent::Record(record)) => {
            *out = [
                record.start.0 as u64,
                record.length as u64,
                record.next.0 as u64,
                records,
                end,
            ];
            0
        }
        Ok(FeedEvent::More) => {
            *out = [0, 0, 0, records, end];
            201
        }
        Ok(FeedEvent::End) => {
            *out = [0, 0, 0, records, end];
            200
        }
        Err(why) => {
            let at = wal_types::place(why);
            *out = [at.0 as u64, 0, 0, records, end];
            wal_types::number(why)
        }
    }
}

// Feeds the next page (FORMAT 17.3). Numbers that are no state keep their pair (FORMAT 17.9).
#[unsafe(no_mangle)]
pub extern "C" fn depot_wal_feed_page(state: &mut [u64; 16], page: &[u8], out: &mut [u64; 3]) -> u32
    ensures { (result ≡ (feed_page state.old page.now).code)
        × (out.new ≡ (feed_page state.old page.now).out)
        × (state.new ≡ (feed_page state.old page.now).state) }
{
    if is_known(state) {
        let fed = segment_feed::feed_page(state_of(state), page);
        let code = page_result(fed.answer, fed.feed.good, out);
        store(fed.feed, state);
        return code;
    }
    *out = [0, state[7], state[8]];
    wal_types::number(Refusal::BadPlace)
}

// Reads the next record of the page at hand (FORMAT 17.4).
#[unsafe(no_mangle)]
pub extern "C" fn depot_wal_feed_read(
    state: &mut [u64; 16],
    page: &[u8],
    buffer: &mut [u8],
    out: &mut [u64; 5],
) -> u32
    ensures { (result ≡ (feed_read version_sum state.old page.now buffer.old).code)
        × (out.new ≡ (feed_read version_sum state.old page.now buffer.old).out)
        × (state.new ≡ (feed_read version_sum state.old page.now buffer.old).state)
        × (buffer.new ≡ (feed_read version_sum state.old page.now buffer.old).buffer) }
{
    if is_known(state) {
        let read = segment_feed::read(version_in(state), state_of(state), page, buffer);
        // The answer first: the compiler then knows it on each way and makes no table of jumps.
        let code = read_result(read.answer, read.feed.good, out);
        store_place(read.feed, state);
        return code;
    }
    *out = [0, 0, 0, state[7], state[8]];
    wal_types::number(Refusal::BadPlace)
}
