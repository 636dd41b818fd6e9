// The rows of R that a group has, and the input that it joins.

ghost use Rattle.std.specs.Prelude.{◌≡◌, ◌<◌, ◌≤◌, ◌^◌, [], All, IfOk, OnOk, length, map, slice_index, slice_index_or};
ghost use Rattle.trace_law.specs.Validity.{IsValidInput};
ghost use Rattle.group_split.specs.Dealt.{IsDealt};
ghost use Rattle.group_split.specs.Sizes.{is_of};
ghost use Rattle.group_split.specs.Parts.{IsPartOf, input_of_part, part};

use crate::sizing::{group_of, push_if};
use epoch_tags::Counts;
use row_cells::{Bytes, Names, Rows, Table};
use std::alloc::{AllocError, Global};
use trace_law::Input;

/// What is joined in groups: an input, by so many joiners in all, with the number of each row of R.
#[derive(Clone, Copy)]
pub(crate) struct Dealt<'a> {
    pub(crate) input: &'a Input,
    pub(crate) joiners: u32,
    pub(crate) numbers: &'a Counts,
}

// Whether a number is of this group.
#[tactic(auto, using(crate::proofs::Parted::is_of_group))]
fn is_of(joiners: u32, number: u64, group: u64) -> bool
    requires below { number < joiners }
    requires few { joiners ≤ 64 }
    ensures { result ≡ is_of joiners group number }
{
    u64::from(group_of(joiners, number)) == group
}

/// The indices of R's rows whose number is of this group, counted from 0 and rising.
pub fn part(alloc: Global, joiners: u32, numbers: &Counts, group: u64) -> Result<Counts, AllocError>
    requires below { All (λ number. number < joiners) numbers.now }
    requires few { joiners ≤ 64 }
    ensures { IfOk result (λ indices. indices ≡ part joiners numbers.now group) }
{
    let mut indices = Counts::new(alloc);
    for index in 0..numbers.len() {
        let its = is_of(joiners, *numbers.at(index), group);
        push_if(&mut indices, index, its)?;
    }
    Ok(indices)
}

// The rows of these indices, which share their cells with the table's.
fn rows_at(alloc: Global, rows: &Rows, indices: &Counts) -> Result<Rows, AllocError>
    requires { All (λ index. index < length rows.now) indices.now }
    ensures { IfOk result (λ chosen.
        chosen ≡ map (λ index. slice_index_or rows.now index []) indices.now) }
{
    let mut chosen = Rows::new(alloc);
    for index in indices.as_slice() {
        chosen.push(rows.at(*index).copy()?)?;
    }
    Ok(chosen)
}

// The tickets of these indices.
fn tickets_at(alloc: Global, tickets: &Bytes, indices: &Counts) -> Result<Bytes, AllocError>
    requires { All (λ index. index < length tickets.now) indices.now }
    ensures { IfOk result (λ chosen. chosen ≡ map (slice_index tickets.now) indices.now) }
{
    let mut chosen = Bytes::new(alloc);
    for index in indices.as_slice() {
        chosen.push(*tickets.at(*index))?;
    }
    Ok(chosen)
}

// Equal names.
fn names_of(alloc: Global, names: &Names) -> Result<Names, AllocError>
    ensures { IfOk result (λ copy. copy ≡ names.now) }
{
    let mut copy = Names::new(alloc);
    for name in names.as_slice() {
        copy.push(name.copy()?)?;
    }
    Ok(copy)
}

// Equal rows, which share their cells.
fn rows_of(alloc: Global, rows: &Rows) -> Result<Rows, AllocError>
    ensures { IfOk result (λ copy. copy ≡ rows.now) }
{
    let mut copy = Rows::new(alloc);
    for row in rows.as_slice() {
        copy.push(row.copy()?)?;
    }
    Ok(copy)
}

// The input without any row of R.
pub(crate) fn no_part(alloc: Global, input: &Input) -> Result<Input, AllocError>
    ensures { IfOk result (λ made. made ≡ input_of_part input.now []) }
{
    let tickets_s = input.tickets_s.copy()?;
    let names_r = names_of(alloc, &input.table_r.names)?;
    let names_s = names_of(alloc, &input.table_s.names)?;
    let rows_s = rows_of(alloc, &input.table_s.rows)?;
    let theta = input.theta.copy()?;
    Ok(Input {
        table_r: Table {
            names: names_r,
            rows: Rows::new(alloc),
        },
        table_s: Table {
            names: names_s,
            rows: rows_s,
        },
        theta,
        tickets_r: Bytes::new(alloc),
        tickets_s,
    })
}

// Gives a group's input R's rows of these indices, with their tickets, in the place of those that it has.
fn put_rows(
    alloc: Global,
    input: &Input,
    indices: &Counts,
    group_input: &mut Input,
) -> Result<(), AllocError>
    requires input { IsValidInput input.now }
    requires low { All (λ index. index < length input.now.table_r.rows) indices.now }
    requires part { IsPartOf input.now group_input.old }
    ensures { OnOk result (group_input.new ≡ input_of_part input.now indices.now) }
{
    let rows = rows_at(alloc, &input.table_r.rows, indices)?;
    let tickets = tickets_at(alloc, &input.tickets_r, indices)?;
    group_input.table_r.rows = rows;
    group_input.tickets_r = tickets;
    Ok(())
}

/// Gives a group's input the group's rows of R in the place of those that it has, and says which they are.
pub(crate) fn give_part(
    alloc: Global,
    dealt: &Dealt<'_>,
    group: u64,
    group_input: &mut Input,
) -> Result<Counts, AllocError>
    requires dealt { IsDealt dealt.now }
    requires part { IsPartOf dealt.now.input.now group_input.old }
    ensures indices { IfOk result (λ indices.
        indices ≡ part dealt.now.joiners dealt.now.numbers.now group) }
    ensures input { IfOk result (λ indices.
        group_input.new ≡ input_of_part dealt.now.input.now indices) }
    ensures valid { OnOk result (IsValidInput group_input.new) }
    ensures small { IfOk result (All (λ index. index < 2 ^ 32)) }
{
    let indices = part(alloc, dealt.joiners, dealt.numbers, group)?;
    put_rows(alloc, dealt.input, &indices, group_input)?;
    Ok(indices)
}
