// Searches in a list that is in the order of its ids.
ghost use Rattle.std.specs.Prelude.{◌≡◌, ◌↔◌, ◌≤◌, ◌==◌, ℕ, true, false, Some, length, nat_lt, nat_le, count_by};
ghost use Rattle.std.specs.List.{position};
ghost use Rattle.std.specs.List.Sorted.{IsNonDecreasingBy, IsPartitionPoint};

/// By what a list is in order.
pub trait OrderBy<T> {
    ghost id: { T → ℕ };

    /// The id of an item.
    fn id(item: &T) -> u64
        ensures { result ≡ id item.now };
}

/// By the number itself.
pub struct ByItself;

impl OrderBy<u64> for ByItself {
    ghost id = { λ n. n };

    fn id(number: &u64) -> u64 {
        *number
    }
}

/// Where a search starts of whose place nothing is known.
pub const NO_GUESS: usize = usize::MAX;

/// How many items are tried, from a guess on and before it, before the whole list is searched.
const STEPS: usize = 8;

/// Whether a list is in the order of its ids.
pub fn are_in_order<T, B: OrderBy<T>>(list: &[T]) -> bool
    ensures { (result ≡ true) ↔ IsNonDecreasingBy B.id list.now }
{
    for i in 1..list.len() {
        if B::id(&list[i]) < B::id(&list[i - 1]) {
            return false;
        }
    }
    true
}

// Whether as many items are of ids below one as stand before a place.
fn is_point<T, B: OrderBy<T>>(list: &[T], id: u64, at: usize) -> bool
    requires { IsNonDecreasingBy B.id list.now }
    ensures bound { result ≡ true → at ≤ length list.now }
    ensures split { result ≡ true → IsPartitionPoint (λ x. nat_lt (B.id x) id ≡ true) (λ x. nat_lt (B.id x) id ≡ false) list.now at }
{
    if at > list.len() {
        return false;
    }
    if at < list.len() && B::id(&list[at]) < id {
        return false;
    }
    at == 0 || B::id(&list[at - 1]) < id
}

// From a guess on, the first of a few items that isn't of an id below one.
fn onward<T, B: OrderBy<T>>(list: &[T], id: u64, guess: usize) -> usize {
    for at in guess..guess.saturating_add(STEPS) {
        match list.get(at) {
            Some(item) => {
                if B::id(item) >= id {
                    return at;
                }
            }
            None => return at,
        }
    }
    guess
}

// How many items are of ids below one, by a search in the whole list.
fn searched<T, B: OrderBy<T>>(list: &[T], id: u64) -> usize
    requires { IsNonDecreasingBy B.id list.now }
    ensures bound { result ≤ length list.now }
    ensures split { IsPartitionPoint (λ x. nat_lt (B.id x) id ≡ true) (λ x. nat_lt (B.id x) id ≡ false) list.now result }
{
    list.partition_point(
        |x: &T| -> bool
            ensures { result ≡ nat_lt (B.id x.now) id }
        { B::id(x) < id },
    )
}

/// How many items are of ids below one. `guess` is where the search starts: a wrong one costs time alone.
pub fn below<T, B: OrderBy<T>>(list: &[T], id: u64, guess: usize) -> usize
    requires { IsNonDecreasingBy B.id list.now }
    ensures bound { result ≤ length list.now }
    ensures split { IsPartitionPoint (λ x. nat_lt (B.id x) id ≡ true) (λ x. nat_lt (B.id x) id ≡ false) list.now result }
{
    let at = onward::<T, B>(list, id, guess);
    if is_point::<T, B>(list, id, at) {
        return at;
    }
    let before = onward::<T, B>(list, id, guess.saturating_sub(STEPS));
    if is_point::<T, B>(list, id, before) {
        return before;
    }
    searched::<T, B>(list, id)
}

// How many items aren't of ids above one, by a search in the whole list.
fn searched_up_to<T, B: OrderBy<T>>(list: &[T], id: u64) -> usize
    requires { IsNonDecreasingBy B.id list.now }
    ensures bound { result ≤ length list.now }
    ensures split { IsPartitionPoint (λ x. nat_le (B.id x) id ≡ true) (λ x. nat_le (B.id x) id ≡ false) list.now result }
{
    list.partition_point(
        |x: &T| -> bool
            ensures { result ≡ nat_le (B.id x.now) id }
        { B::id(x) <= id },
    )
}

/// How many items aren't of ids above one. `guess` is where the search starts: a wrong one costs time alone.
pub fn up_to<T, B: OrderBy<T>>(list: &[T], id: u64, guess: usize) -> usize
    requires { IsNonDecreasingBy B.id list.now }
    ensures bound { result ≤ length list.now }
    ensures split { IsPartitionPoint (λ x. nat_le (B.id x) id ≡ true) (λ x. nat_le (B.id x) id ≡ false) list.now result }
{
    match id.checked_add(1) {
        Some(next) => below::<T, B>(list, next, guess),
        None => searched_up_to::<T, B>(list, id),
    }
}

// Whether the first item of an id stands at a place.
fn is_first<T, B: OrderBy<T>>(list: &[T], id: u64, at: usize) -> bool
    requires { IsNonDecreasingBy B.id list.now }
    ensures { result ≡ true → position (λ x. B.id x == id) list.now ≡ Some at }
{
    if at >= list.len() {
        return false;
    }
    if B::id(&list[at]) != id {
        return false;
    }
    at == 0 || B::id(&list[at - 1]) < id
}

// The place of the first item of an id, by a search from a guess on.
fn place_from<T, B: OrderBy<T>>(list: &[T], id: u64, guess: usize) -> Option<usize>
    requires { IsNonDecreasingBy B.id list.now }
    ensures { result ≡ position (λ x. B.id x == id) list.now }
{
    let at = below::<T, B>(list, id, guess);
    if at == list.len() {
        return None;
    }
    if B::id(&list[at]) != id {
        return None;
    }
    Some(at)
}

/// The place of the first item of an id: the guess itself, where it stands there, else by a search.
pub(crate) fn place<T, B: OrderBy<T>>(list: &[T], id: u64, guess: usize) -> Option<usize>
    requires { IsNonDecreasingBy B.id list.now }
    ensures { result ≡ position (λ x. B.id x == id) list.now }
{
    if is_first::<T, B>(list, id, guess) {
        return Some(guess);
    }
    place_from::<T, B>(list, id, guess)
}

/// How many items are of an id.
pub fn count<T, B: OrderBy<T>>(list: &[T], id: u64, guess: usize) -> usize
    requires { IsNonDecreasingBy B.id list.now }
    ensures { result ≡ count_by (λ x. B.id x == id) list.now }
{
    let from = below::<T, B>(list, id, guess);
    let to = up_to::<T, B>(list, id, from);
    to - from
}
