//! Work to be timed, chosen by a word: `holds` evaluates a predicate four million times, `add` makes a store of 262,144
//! tuples, `store` probes it by a band with as many, `beyond` by an inequality, `texts` by an equality of texts and
//! `texts_beyond` by both; `inbox1`, `inbox8` and `inbox72` put and take 7.2 million messages in turn, of so many
//! senders; `replay4` replays the join of 65,536 rows by as many over 4 joiners, and `replay64` of 20,000 by as many
//! over 64 joiners with 8 feeders, and both print the number of events; `rounds1`, `rounds2`, `rounds4`, `rounds8` and
//! `rounds16` have so many threads do next to nothing in each of 20,000 rounds.
#![tactic(auto)]

mod replays;
mod rounds;
mod stores;

ghost use Rattle.std.specs.Prelude.{◌≡◌, length, All, IfOk};
ghost use Rattle.ruled_links.specs.Inboxes.{Differ};

use epoch_tags::{Actor, Envelope, Msg, ToController};
use row_cells::{Bytes, Cell, Cells, Items, Names};
use ruled_links::{Actors, Inbox, Mouth, inbox};
use std::alloc::{AllocError, Global};
use std::marker::Sync;
use std::sync::Wait;
use std::thread::Threads;
use std::{env, io};
use theta_pred::{Theta, resolve};
use theta_text::parse;

fn header(alloc: Global, word: &[u8]) -> Result<Names, AllocError>
    ensures { IfOk result (λ names. length names ≡ 1) }
{
    let mut names = Names::new(alloc);
    names.push(Bytes::from_slice(alloc, word)?)?;
    Ok(names)
}

// That R's only column, x, and S's, y, are at most two apart.
const BAND: &str = "abs(r.x - s.y) <= 2";

// That S's is less.
const BEYOND: &str = "r.x > s.y";

// That their texts are equal.
const TEXTS: &str = "text(r.x) = text(s.y)";

// And that S's number is no greater.
const TEXTS_BEYOND: &str = "text(r.x) = text(s.y) and s.y <= r.x";

// A predicate over these two columns.
fn predicate(alloc: Global, text: &str) -> Result<Theta, AllocError>
    ensures r { IfOk result (λ theta. theta.width_r ≡ 1) }
    ensures s { IfOk result (λ theta. theta.width_s ≡ 1) }
{
    let names_r = header(alloc, b"x")?;
    let names_s = header(alloc, b"y")?;
    let Ok(pred) = parse(alloc, text) else {
        return Err(AllocError);
    };
    let theta = resolve(alloc, &pred, &names_r, &names_s);
    drop(pred);
    match theta {
        Ok(theta) => Ok(theta),
        Err(fault) => {
            drop(fault);
            Err(AllocError)
        }
    }
}

// A row of this number.
fn row(alloc: Global, number: u32) -> Result<Cells, AllocError>
    ensures { IfOk result (λ row. length row ≡ 1) }
{
    let mut row = Cells::new(alloc);
    row.push(Cell::decimal(alloc, u64::from(number))?)?;
    Ok(row)
}

fn rows(alloc: Global, count: u32) -> Result<Items<Cells>, AllocError>
    ensures { IfOk result (λ rows. All (λ row. length row ≡ 1) rows) }
{
    let mut rows = Items::<Cells>::new(alloc);
    for number in 0..count {
        rows.push(row(alloc, number)?)?;
    }
    Ok(rows)
}

// How many of the rows match this row of R.
fn matching(theta: &Theta, r: &Cells, rows: &Items<Cells>) -> u32
    requires r { theta.now.width_r ≡ 1 }
    requires s { theta.now.width_s ≡ 1 }
    requires row { length r.now ≡ 1 }
    requires rows { All (λ row. length row ≡ 1) rows.now }
{
    let mut count = 0u32;
    for s in rows.as_slice() {
        if theta.holds(r, s) {
            count = count.wrapping_add(1);
        }
    }
    count
}

// How many of so many rows by as many match.
fn matches(alloc: Global, theta: &Theta, count: u32) -> Result<u32, AllocError>
    requires r { theta.now.width_r ≡ 1 }
    requires s { theta.now.width_s ≡ 1 }
{
    let rows = rows(alloc, count)?;
    let mut found = 0u32;
    for r in rows.as_slice() {
        found = found.wrapping_add(matching(theta, r, &rows));
    }
    drop(rows);
    Ok(found)
}

// How many of 2,000 rows by 2,000 match.
fn holds(alloc: Global) -> Result<u32, AllocError> {
    let theta = predicate(alloc, BAND)?;
    let found = matches(alloc, &theta, 2000);
    drop(theta);
    found
}

// How many tuples a store has, and as many probes.
const COUNT: u32 = 262144;

// The feeders 0, 1, .. , so many.
fn feeders(alloc: Global, count: u32) -> Result<Actors, AllocError>
    ensures { IfOk result Differ }
{
    let mut actors = Actors::new(alloc);
    for number in 0..count {
        actors.push(Actor::Feeder(number))?;
    }
    Ok(actors)
}

// Each mouth puts one message, and the inbox takes one after each. The answer is how many were taken.
fn put_and_take<R: Wait>(rt: &R, mouths: &mut [Mouth], inbox: &mut Inbox) -> u64 {
    let mut taken = 0u64;
    for mouth in mouths.iter_mut() {
        let message = Envelope {
            from: mouth.sender(),
            msg: Msg::Controller(ToController::Drained),
        };
        if mouth.put(rt, message).is_ok() && inbox.take(rt).is_some() {
            taken = taken.wrapping_add(1);
        }
    }
    taken
}

// How many messages are put and taken in so many rounds.
fn exchange<R: Wait>(rt: &R, alloc: Global, count: u32, rounds: u32) -> Result<u64, AllocError> {
    let senders = feeders(alloc, count)?;
    let (mut inbox, mouths) = inbox(alloc, Actor::Controller, &senders)?;
    let mut mouths = mouths.into_vec();
    let mut taken = 0u64;
    for _ in 0..rounds {
        taken = taken.wrapping_add(put_and_take(rt, mouths.as_mut_slice(), &mut inbox));
    }
    Ok(taken)
}

// How many rounds.
const ROUNDS: u32 = 20_000;

// The number that a word's work comes to, if there is such a word.
fn number_at<R: Threads + Wait + Sync>(
    rt: &R,
    alloc: Global,
    word: &str,
) -> Result<Option<u64>, AllocError> {
    let number = match word {
        "holds" => u64::from(holds(alloc)?),
        "add" => stores::adds(alloc)?,
        "store" => stores::probes(alloc, BAND, COUNT)?,
        "beyond" => stores::probes(alloc, BEYOND, 4)?,
        "texts" => stores::probes(alloc, TEXTS, COUNT)?,
        "texts_beyond" => stores::probes(alloc, TEXTS_BEYOND, COUNT)?,
        "inbox1" => exchange(rt, alloc, 1, 7_200_000)?,
        "inbox8" => exchange(rt, alloc, 8, 900_000)?,
        "inbox72" => exchange(rt, alloc, 72, 100_000)?,
        "replay4" => replays::events(rt, alloc, 65_536, 2, 2)?,
        "replay64" => replays::events(rt, alloc, 20_000, 6, 8)?,
        "rounds1" => rounds::added(rt, alloc, 1, ROUNDS)?,
        "rounds2" => rounds::added(rt, alloc, 2, ROUNDS)?,
        "rounds4" => rounds::added(rt, alloc, 4, ROUNDS)?,
        "rounds8" => rounds::added(rt, alloc, 8, ROUNDS)?,
        "rounds16" => rounds::added(rt, alloc, 16, ROUNDS)?,
        _ => return Ok(None),
    };
    Ok(Some(number))
}

fn main(rt: HostRuntime) -> io::Result<()> {
    let alloc = rt.alloc();
    let Some(word) = env::args(&rt)?.nth(1) else {
        println!(rt;
            "holds, add, store, beyond, texts, texts_beyond, inbox1, inbox8, inbox72, replay4, replay64, rounds1, rounds2, rounds4, rounds8 or rounds16"
        )?;
        return Ok(());
    };
    match number_at(&rt, alloc, word.as_str())? {
        Some(number) => println!(rt; "{number}")?,
        None => println!(rt; "no such word")?,
    }
    Ok(())
}
