//! Lists of entries in the order of their places. A clause sees a place as the pair of its numbers.

ghost use Rattle.std.specs.Prelude.{◌≡◌, ◌+◌, ◌<◌, ◌≤◌, IsTrue, length, not, position, vec_capacity, vec_len};
ghost use Rattle.std.specs.List.{position_or_len};
ghost use Rattle.std.specs.Option.{option_copied};
ghost use Rattle.std.specs.FinMap.Entries.{find, is_sorted, put as put_entry, where_key};
ghost use Rattle.std.specs.Ordering.{eq_by_cmp, is_lt};
ghost use Rattle.flat_model.specs.Step.{is_among};
ghost use Rattle.cl_types.specs.Places.{place_cmp};
ghost use Rattle.flat_model.specs.Rows.{is_at};

/// A page by the number of its space and its number there.
pub type Place = (u16, u16);

/// Where the entry of this place stands.
pub fn position_of<V>(entries: &[(Place, V)], place: Place) -> Option<usize>
    ensures { result ≡ position (is_at place) entries.now }
{
    entries.iter().position(|entry| is_same(place, entry.0))
}

/// The value of this place.
pub fn value_of<V>(entries: &[(Place, V)], place: Place) -> Option<&V>
    ensures { option_copied result ≡ find place_cmp place entries.now }
{
    match position_of(entries, place) {
        None => None,
        Some(i) => Some(&entries[i].1),
    }
}

/// Whether two places are one.
pub fn is_same(place: Place, other: Place) -> bool
    ensures { result ≡ eq_by_cmp place_cmp place other }
{
    place.0 == other.0 && place.1 == other.1
}

// Whether the place is one of these pages.
fn is_one_of(pid: u16, start: u16, pages: u16, place: Place) -> bool
    ensures { result ≡ is_among pid start pages place }
{
    place.0 == pid && start <= place.1 && u32::from(place.1) < u32::from(start) + u32::from(pages)
}

/// Takes out the entry of this place.
pub fn take_out<V: Drop>(entries: &mut Vec<(Place, V)>, place: Place)
    ensures kept { entries.new.items ≡
        where_key place_cmp (λ other. not (eq_by_cmp place_cmp place other)) entries.old.items }
    ensures order { IsTrue (is_sorted place_cmp entries.old.items)
        → IsTrue (is_sorted place_cmp entries.new.items) }
{
    entries.retain(|entry| !is_same(place, entry.0));
}

/// Takes out the entries of these pages of a process.
pub fn take_out_pages<V: Drop>(entries: &mut Vec<(Place, V)>, pid: u16, start: u16, pages: u16)
    ensures kept { entries.new.items ≡
        where_key place_cmp (λ place. not (is_among pid start pages place)) entries.old.items }
    ensures order { IsTrue (is_sorted place_cmp entries.old.items)
        → IsTrue (is_sorted place_cmp entries.new.items) }
{
    entries.retain(|entry| !is_one_of(pid, start, pages, entry.0));
}

// Whether the place stands before the other.
fn is_before(place: Place, other: Place) -> bool
    ensures { result ≡ is_lt (place_cmp place other) }
{
    place.0 < other.0 || place.0 == other.0 && place.1 < other.1
}

fn first_behind<V>(entries: &[(Place, V)], place: Place) -> Option<usize>
    ensures { result ≡ position (λ entry. is_lt (place_cmp place entry.0)) entries.now }
{
    entries.iter().position(|entry| is_before(place, entry.0))
}

// Where the first entry behind the place stands, or would stand.
#[tactic(auto, using(crate::proofs::EntryLemmas::position_is, crate::proofs::EntryLemmas::position_end))]
fn position_behind<V>(entries: &[(Place, V)], place: Place) -> usize
    ensures position { result ≡ position_or_len (λ entry. is_lt (place_cmp place entry.0)) entries.now }
    ensures within { result ≤ length entries.now }
{
    match first_behind(entries, place) {
        Some(i) => i,
        None => entries.len(),
    }
}

/// Puts a value at its place. There is room for an entry.
pub fn put<V: Drop>(entries: &mut Vec<(Place, V)>, place: Place, value: V)
    requires order { IsTrue (is_sorted place_cmp entries.old.items) }
    requires room { vec_len entries.old < vec_capacity entries.old }
    ensures put { entries.new.items ≡ put_entry place_cmp place value entries.old.items }
    ensures order { IsTrue (is_sorted place_cmp entries.new.items) }
    ensures len { vec_len entries.new ≤ vec_len entries.old + 1 }
    ensures capacity { vec_capacity entries.old ≤ vec_capacity entries.new }
{
    match position_of(entries, place) {
        Some(i) => entries[i].1 = value,
        None => {
            let i = position_behind(entries, place);
            let _ = entries.insert(i, (place, value));
        }
    }
}
