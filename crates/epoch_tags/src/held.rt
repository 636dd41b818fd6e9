// Messages that can't be taken yet, sender by sender.

ghost use Rattle.std.specs.Prelude.{◌≡◌, ◌<◌, ◌++◌, ◌∷◌, ◌^◌, ◌-◌, [], ℕ, true, false, length, map, min, slice_set, MatchOption, IfOk, OnOk, OnErr};
ghost use Rattle.row_cells.specs.Lists.{total};
ghost use Rattle.epoch_tags.specs.Held.{held_at, BeginsWith};

use std::alloc::{AllocError, Global};
use std::collections::VecDeque;
use std::marker::Model;

/// Messages that wait, in a queue for each sender. Senders are numbered from 0.
#[derive(Drop)]
pub struct Held<T> {
    queues: Vec<VecDeque<T>>,
}

impl<T> Model for Held<T> {
    ghost use Rattle.std.specs.Prelude.{List, map};

    ghost Value = { List (List T) };

    ghost view = { λ h. map (λ q. q.items) h.queues.items };
}

// Puts a message behind those of a queue.
fn push_behind<T: Drop>(queue: &mut VecDeque<T>, m: T) -> Result<(), AllocError>
    ensures ok { OnOk result (queue.new.items ≡ queue.old.items ++ m ∷ []) }
    ensures err { OnErr result (queue.new.items ≡ queue.old.items) }
{
    queue.push_back(m)?;
    Ok(())
}

// Adds so many queues with nothing in them, the first ones.
fn add_empty<T: Drop>(
    alloc: Global,
    queues: &mut Vec<VecDeque<T>>,
    count: u32,
) -> Result<(), AllocError>
    requires { queues.old.items ≡ [] }
    ensures count { OnOk result (length queues.new.items ≡ count) }
    ensures empty { OnOk result ((sender : ℕ)
        → held_at (map (λ q. q.items) queues.new.items) sender ≡ []) }
{
    for i in 0..count {
        let _ = i;
        queues.push(VecDeque::new(alloc))?;
    }
    Ok(())
}

impl<T: Drop> Held<T> {
    /// Nothing, of so many senders.
    pub fn start(alloc: Global, senders: u32) -> Result<Held<T>, AllocError>
        ensures count { IfOk result (λ held. length held ≡ senders) }
        ensures empty { IfOk result (λ held. (sender : ℕ) → held_at held sender ≡ []) }
    {
        let mut queues = Vec::new(alloc);
        match add_empty(alloc, &mut queues, senders) {
            Ok(()) => Ok(Held { queues }),
            Err(refused) => {
                drop(queues);
                Err(refused)
            }
        }
    }

    /// The first message held of a sender.
    pub fn first(&self, sender: usize) -> Option<&T>
        ensures { MatchOption result (held_at self.now sender ≡ [])
            (λ m. BeginsWith m.now (held_at self.now sender)) }
    {
        if sender < self.queues.len() {
            self.queues[sender].front()
        } else {
            None
        }
    }

    /// Whether nothing is held of a sender.
    pub fn is_clear(&self, sender: usize) -> bool
        ensures up { result ≡ true → held_at self.now sender ≡ [] }
        ensures down { result ≡ false → held_at self.now sender ≡ [] → ⊥ }
    {
        self.first(sender).is_none()
    }

    /// Holds one more, behind those of its sender. It is dropped where memory is wanting.
    pub fn hold(&mut self, sender: usize, m: T) -> Result<(), AllocError>
        requires { sender < length self.old }
        ensures count { length self.new ≡ length self.old }
        ensures ok { OnOk result
            (self.new ≡ slice_set self.old sender (held_at self.old sender ++ m ∷ [])) }
        ensures err { OnErr result (self.new ≡ self.old) }
    {
        let queue = &mut self.queues[sender];
        push_behind(queue, m)?;
        Ok(())
    }

    /// Lets the first of a sender go.
    pub fn take_first(&mut self, sender: usize) -> Option<T>
        requires { sender < length self.old }
        ensures first { MatchOption result (held_at self.old sender ≡ [])
            (λ m. held_at self.old sender ≡ m ∷ held_at self.new sender) }
        ensures rest { self.new ≡ slice_set self.old sender (held_at self.new sender) }
    {
        let queue = &mut self.queues[sender];
        queue.pop_front()
    }

    /// Whether nothing is held.
    pub fn is_empty(&self) -> bool
        ensures up { result ≡ true → (sender : ℕ) → held_at self.now sender ≡ [] }
        ensures down { result ≡ false → ((sender : ℕ) → held_at self.now sender ≡ []) → ⊥ }
    {
        for sender in 0..self.queues.len() {
            if self.first(sender).is_some() {
                return false;
            }
        }
        true
    }

    /// How many messages are held, or 2 ^ 64 - 1 where there are more.
    pub fn count(&self) -> u64
        ensures { result ≡ min (total (length self.now)
            (λ sender. length (held_at self.now sender))) (2 ^ 64 - 1) }
    {
        let mut count = 0u64;
        for sender in 0..self.queues.len() {
            count = count.saturating_add(self.queues[sender].len() as u64);
        }
        count
    }
}
