// How seats are dealt to workers.

ghost use Rattle.std.specs.Prelude.{◌<◌, ◌≤◌};

// Which seat comes to a place, where chunks of this size are dealt one seat each in turn; the last chunk may be
// shorter.
fn dealt_to(place: usize, count: usize, size: usize) -> usize
    requires { 0 < size }
{
    let others = count.div_ceil(size).saturating_sub(1);
    let last = count.saturating_sub(others.saturating_mul(size));
    let round = place % size;
    let whole = round.min(last);
    round
        .saturating_mul(others)
        .saturating_add(whole)
        .saturating_add(place / size)
}

/// Where the seat stands that comes to a place, if `count` seats are dealt one each in turn to chunks of `size` places,
/// of which the last may be shorter, and each place before has been swapped with the one that was answered for it.
pub fn standing_at(place: usize, count: usize, size: usize) -> usize
    requires { 0 < size }
    ensures { place ≤ result }
{
    let mut from = dealt_to(place, count, size);
    for _ in 0..count {
        if from >= place {
            return from;
        }
        from = dealt_to(from, count, size);
    }
    place
}
