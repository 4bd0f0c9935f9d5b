// Whether an id is in a caller's list of ids, which may have any order (FORMAT 24.1). A table of
// hints, one for each value of an id's low 12 bits, says where the id was last found, or the id
// below it; whatever is in the table, no answer depends on it. In a list that ascends an id and its
// neighbours tell whether it is there, so that the hint mostly decides; any other list is searched
// for each id that the hint does not show.
#![tactic(auto)]

ghost use Rattle.std.specs.Prelude.{◌≡◌, true};
ghost use Rattle.checkpoint_format.specs.Keeping.{is_listed};
ghost use Rattle.id_list.specs.Ascending.{is_ascending};
ghost use Rattle.id_list.specs.Places.{Below};

use wal_types::SeriesId;

// Whether a list ascends. It is asked once for a list.
pub fn is_ascending(ids: &[u64]) -> bool
    ensures { result ≡ is_ascending ids.now }
{
    ids.is_sorted()
}

// Whether an id is listed. `ascending` may be true only of a list that ascends; false is good for
// every list.
pub fn is_listed(ids: &[u64], ascending: bool, hints: &mut [u32; 4096], id: SeriesId) -> bool
    ensures { (ascending ≡ true → is_ascending ids.now ≡ true)
        → result ≡ is_listed id.0 ids.now }
{
    let SeriesId(id) = id;
    let hint = &mut hints[(id % 4096) as usize];
    let place = *hint as usize;
    if place < ids.len() && ids[place] == id {
        return true;
    }
    if ascending {
        return is_in_order(ids, hint, id);
    }
    is_anywhere(ids, hint, id)
}

// In a list that ascends: by the neighbours at the hint, or else by a search.
fn is_in_order(ids: &[u64], hint: &mut u32, id: u64) -> bool
    ensures { is_ascending ids.now ≡ true → result ≡ is_listed id ids.now }
{
    let Some(first) = ids.first() else {
        return false;
    };
    if id < *first {
        return false;
    }
    let place = *hint as usize;
    if is_below(ids, place, id) {
        return ids[place] == id;
    }
    let found = ids.binary_search(&id);
    let below = found.unwrap_or_else(|above| above.saturating_sub(1));
    *hint = (below % 4294967296) as u32;
    found.is_ok()
}

// Whether an id is at a place, or would follow it.
fn is_below(ids: &[u64], place: usize, id: u64) -> bool
    ensures { result ≡ true → Below ids.now id place }
{
    place < ids.len() && ids[place] <= id && (place + 1 == ids.len() || id < ids[place + 1])
}

// In any list: id by id.
fn is_anywhere(ids: &[u64], hint: &mut u32, id: u64) -> bool
    ensures { result ≡ is_listed id ids.now }
{
    let Some(place) = ids.iter().position(|listed| *listed == id) else {
        return false;
    };
    *hint = (place % 4294967296) as u32;
    true
}
