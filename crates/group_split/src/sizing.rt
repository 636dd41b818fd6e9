// The sizes of groups, and which number is of which group.

ghost use Rattle.std.specs.Prelude.{◌≡◌, ◌++◌, ◌^◌, ◌<◌, ◌≤◌, ◌∷◌, [], All, if◌then◌else◌, IfOk, OnOk, map};
ghost use Rattle.group_split.specs.Sizes.{IsGroupOf, digits, has_digit, sizes};

use epoch_tags::Counts;
use std::alloc::{AllocError, Global};

// Whether the binary digit of this place is 1.
fn has_digit(joiners: u32, place: u32) -> bool
    requires { place < 7 }
    ensures { result ≡ has_digit joiners place }
{
    joiners / (1 << place) % 2 == 1
}

// What the digit of this place stands for.
fn size_at(place: u32) -> u64
    requires { place < 7 }
    ensures size { result ≡ 2 ^ place }
    ensures small { result ≤ 64 }
{
    1 << place
}

// Appends an item if it is wanted.
pub(crate) fn push_if(items: &mut Counts, item: u64, wanted: bool) -> Result<(), AllocError>
    ensures { OnOk result (items.new ≡ items.old ++ (if wanted then item ∷ [] else [])) }
{
    if wanted {
        items.push(item)?;
    }
    Ok(())
}

/// The places of the binary digits that are 1, greatest first, counted from 0: a group's joiners are 2 to the power of
/// its digit's place.
pub fn digits(alloc: Global, joiners: u32) -> Result<Counts, AllocError>
    ensures are { IfOk result (λ places. places ≡ digits joiners) }
    ensures small { IfOk result (All (λ place. place < 7)) }
{
    let mut places = Counts::new(alloc);
    for step in 0..7u32 {
        let place = 6 - step;
        push_if(&mut places, u64::from(place), has_digit(joiners, place))?;
    }
    Ok(places)
}

/// How many joiners each group has, so many in all: the powers of two that are the number's binary digits, greatest
/// first.
pub fn sizes(alloc: Global, joiners: u32) -> Result<Counts, AllocError>
    requires some { 1 ≤ joiners }
    requires few { joiners ≤ 64 }
    ensures { IfOk result (λ all. all ≡ sizes joiners) }
{
    let places = digits(alloc, joiners)?;
    let mut sizes = Counts::new(alloc);
    for place in places.as_slice() {
        sizes.push(size_at(*place as u32))?;
    }
    Ok(sizes)
}

// How many groups there are before that of this number.
fn groups_before(joiners: u32, number: u64) -> u32
    requires below { number < joiners }
    requires few { joiners ≤ 64 }
    ensures { IsGroupOf joiners number result }
{
    let mut group = 0u32;
    let mut joined = 0u64;
    for step in 0..7u32 {
        let place = 6 - step;
        if has_digit(joiners, place) {
            joined += size_at(place);
            if number < joined {
                return group;
            }
            group += 1;
        }
    }
    group
}

/// The group of this number, counted from 0: the least group whose joiners, with those of the groups before it, are
/// more than the number. It takes no memory.
pub fn group_of(joiners: u32, number: u64) -> u32
    requires below { number < joiners }
    requires few { joiners ≤ 64 }
    ensures { IsGroupOf joiners number result }
{
    groups_before(joiners, number)
}
