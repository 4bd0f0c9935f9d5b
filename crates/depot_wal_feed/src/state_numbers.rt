// A feed's state as the numbers that C keeps: base, size, place in the page, marks, start, held,
// the place of a refusal that stands, the pair, and the version. The others are spare.
ghost use Rattle.std.specs.Prelude.{◌≡◌, ◌≤◌};
ghost use Rattle.wal_types.specs.Versions.{version_number};
ghost use Rattle.depot_wal_feed.specs.Numbers.{standing_of, marks, stored, stored_place, version_in, state_of, marked, known, standing_number, standing_place};

use feed_format::{FeedState, GoodFeed};
use segment_format::Good;
use wal_types::{Offset, Refusal, Version};

// The refusal that a number and a place say stands.
#[tactic(auto, unfolding(crate::specs::Numbers::standing_of))]
fn standing_of(number: u64, place: u64) -> Option<Refusal>
    ensures { result ≡ standing_of number place }
{
    let at = Offset(place as usize);
    match number {
        3 => Some(Refusal::Reserved(at)),
        4 => Some(Refusal::Compressed(at)),
        5 => Some(Refusal::BadType(at)),
        6 => Some(Refusal::NotZero(at)),
        7 => Some(Refusal::OutOfOrder(at)),
        8 => Some(Refusal::PastPage(at)),
        9 => Some(Refusal::TooLong(at)),
        10 => Some(Refusal::BadSum(at)),
        13 => Some(Refusal::Hollow(at)),
        _ => None,
    }
}

// Whether the numbers are a state: first their version, then their marks.
#[tactic(auto, unfolding(crate::specs::Numbers::known))]
pub(crate) fn is_known(state: &[u64; 16]) -> bool
    ensures { result ≡ known state.now }
{
    match state[9] {
        1 | 2 => has_marks(state),
        _ => false,
    }
}

#[tactic(auto, unfolding(crate::specs::Numbers::marked))]
fn has_marks(state: &[u64; 16]) -> bool
    ensures { result ≡ marked state.now }
{
    let marks = state[3];
    if marks < 8 {
        return state[6] == 0;
    }
    if marks < 24 {
        return false;
    }
    if marks < 88 {
        return true;
    }
    marks / 8 == 13
}

// The number of a version.
pub(crate) fn version_number(version: Version) -> u64
    ensures { result ≡ version_number version }
{
    match version {
        Version::One => 1,
        Version::Two => 2,
    }
}

// The version that stands in the numbers.
pub(crate) fn version_in(state: &[u64; 16]) -> Version
    ensures { result ≡ version_in state.now }
{
    if state[9] == 2 {
        Version::Two
    } else {
        Version::One
    }
}

// The state that the numbers are.
pub(crate) fn state_of(state: &[u64; 16]) -> GoodFeed
    ensures { result ≡ state_of state.now }
{
    let marks = state[3];
    let standing = standing_of(marks / 8, state[6]);
    let inner = FeedState {
        base: state[0] as usize,
        size: state[1] as usize,
        at: state[2] as usize,
        asked: marks % 2 == 1,
        ended: marks / 2 % 2 == 1,
        opened: marks / 4 % 2 == 1,
        start: Offset(state[4] as usize),
        held: state[5] as usize,
        standing,
    };
    GoodFeed {
        state: inner,
        good: Good {
            records: state[7] as usize,
            offset: Offset(state[8] as usize),
        },
    }
}

fn standing_number(standing: Option<Refusal>) -> u64
    ensures { (result ≡ standing_number standing) × (result ≤ 4294967295) }
{
    standing.map_or(0, |why| u64::from(wal_types::number(why)))
}

fn standing_place(standing: Option<Refusal>) -> u64
    ensures { result ≡ standing_place standing }
{
    standing.map_or(0, |why| wal_types::place(why).0 as u64)
}

// Three bits and the number of the refusal that stands, as one number.
#[tactic(auto, unfolding(crate::specs::Numbers::marks))]
fn marks_of(state: FeedState) -> u64
    ensures { result ≡ marks state.asked state.ended state.opened (standing_number state.standing) }
{
    u64::from(state.asked)
        + 2 * u64::from(state.ended)
        + 4 * u64::from(state.opened)
        + 8 * standing_number(state.standing)
}

// Stores what a read changes of a state; the page at hand and the spare numbers stay.
pub(crate) fn store_place(next: GoodFeed, state: &mut [u64; 16])
    ensures { state.new ≡ stored_place next state.old }
{
    let GoodFeed { state: inner, good } = next;
    state[2] = inner.at as u64;
    state[3] = marks_of(inner);
    state[4] = inner.start.0 as u64;
    state[5] = inner.held as u64;
    state[6] = standing_place(inner.standing);
    state[7] = good.records as u64;
    state[8] = good.offset.0 as u64;
}

// Stores a state in the numbers; the spare ones stay.
pub(crate) fn store(next: GoodFeed, state: &mut [u64; 16])
    ensures { state.new ≡ stored next state.old }
{
    state[0] = next.state.base as u64;
    state[1] = next.state.size as u64;
    store_place(next, state);
}
