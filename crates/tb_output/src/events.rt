//! The events that were sent and not taken yet, the oldest first, with room for more.

ghost use Rattle.std.specs.Prelude.{◌≡◌, ◌+◌, ◌<◌, ◌≤◌, [], ◌∷◌, ◌++◌, IfOk, OnOk, OnErr, IfSome, IfNone, option_to_list};
ghost use Rattle.std.specs.VecDeque.{deque_len, deque_capacity};
ghost use Rattle.tb_output.specs.ActCalls.{warnings_sent};

use std::alloc::{AllocError, Global};
use std::collections::VecDeque;
use std::marker::Model;
use tb_sheet::{Sent, Warn};

// An event in the queue: a type of this crate, since the checker does not find the modules of what a `Sent` holds when
// it fills in a type parameter.
#[derive(Clone, Copy)]
struct Event {
    sent: Sent,
}

impl Model for Event {
    ghost use Rattle.tb_sheet.specs.declared.Sent.{Sent};

    ghost Value = { Sent };

    ghost view = { λ e. e.sent };

    ghost inverse = { λ s. record { sent = s } };
}

/// A queue of events, with room kept for a number of further ones. In contracts it is the list of
/// each [`Sent`] and that number.
#[derive(Drop)]
pub(crate) struct Events {
    queue: VecDeque<Event>,
    room: usize,
}

impl Model for Events {
    ghost use Rattle.std.specs.Prelude.{◌+◌, ◌≤◌};
    ghost use Rattle.std.specs.VecDeque.{deque_len, deque_capacity};
    ghost use Rattle.tb_output.specs.Events.{EventQueue};

    ghost Value = { EventQueue };

    ghost view = { λ a. record { sent = a.queue.items; room = a.room } };

    ghost invariant = { λ a. (deque_len a.queue + a.room ≤ deque_capacity a.queue) × (a.room ≤ 4096) };
}

impl Events {
    /// No events, and no room. It allocates nothing.
    pub fn new(alloc: Global) -> Self
        ensures sent { result.sent ≡ [] }
        ensures room { result.room ≡ 0 }
    {
        Events {
            queue: VecDeque::new(alloc),
            room: 0,
        }
    }

    /// A copy, with room for as many more. It fails only if memory runs out.
    pub fn copy(&self) -> Result<Events, AllocError>
        ensures { IfOk result (λ copy. copy ≡ self.now) }
    {
        let mut queue = self.queue.clone()?;
        queue.reserve(self.room)?;
        Ok(Events {
            queue,
            room: self.room,
        })
    }

    /// Takes over the events of another queue in place, and keeps room for at least as many more as either. If there is no
    /// memory, there are no events afterwards, and the room stays.
    pub fn copy_from(&mut self, other: &Events) -> Result<(), AllocError>
        ensures sent { OnOk result (self.new.sent ≡ other.now.sent) }
        ensures room { OnOk result (other.now.room ≤ self.new.room) }
        ensures never_less { self.old.room ≤ self.new.room }
    {
        let room = self.room.max(other.room);
        self.queue.clear();
        self.queue.reserve(other.queue.len().saturating_add(room))?;
        self.room = room;
        push_all(&mut self.queue, &other.queue);
        Ok(())
    }

    /// Keeps room for `count` more events. If there is no memory, all is as before.
    pub fn keep_room(&mut self, count: usize) -> Result<(), AllocError>
        requires { count ≤ 4096 }
        ensures sent { self.new.sent ≡ self.old.sent }
        ensures ok { OnOk result (self.new.room ≡ count) }
        ensures err { OnErr result (self.new.room ≡ self.old.room) }
    {
        self.queue.reserve(count)?;
        self.room = count;
        Ok(())
    }

    /// Puts an event after the others; the room stays. If there is no memory, all is as before.
    pub fn push(&mut self, event: Sent) -> Result<(), AllocError>
        ensures ok { OnOk result (self.new.sent ≡ self.old.sent ++ event ∷ []) }
        ensures err { OnErr result (self.new.sent ≡ self.old.sent) }
        ensures room { self.new.room ≡ self.old.room }
    {
        self.queue.reserve(self.room + 1)?;
        self.queue.push_back_reserved(Event { sent: event });
        Ok(())
    }

    /// Puts a warning, if there is one, after the other events, into the room that is kept. It allocates nothing.
    pub fn warn(&mut self, warning: Option<Warn>)
        requires { 0 < self.old.room }
        ensures sent { self.new.sent ≡ self.old.sent ++ warnings_sent (option_to_list warning) }
        ensures room { self.old.room ≤ self.new.room + 1 }
    {
        let Some(warning) = warning else {
            return;
        };
        self.queue.push_back_reserved(Event {
            sent: Sent::Warn(warning),
        });
        self.room -= 1;
    }

    /// Takes the first event; the room stays. None exactly if there are none.
    pub fn pop(&mut self) -> Option<Sent>
        ensures some { IfSome result (λ e. self.old.sent ≡ e ∷ self.new.sent) }
        ensures none { IfNone result ((self.old.sent ≡ []) × (self.new.sent ≡ [])) }
        ensures room { self.new.room ≡ self.old.room }
    {
        match self.queue.pop_front() {
            Some(event) => Some(event.sent),
            None => None,
        }
    }
}

// Puts the events of another queue behind the others, into room that is there.
fn push_all(queue: &mut VecDeque<Event>, other: &VecDeque<Event>)
    requires { deque_len queue.old + deque_len other.now ≤ deque_capacity queue.old }
    ensures items { queue.new.items ≡ queue.old.items ++ other.now.items }
    ensures len { deque_len queue.new ≡ deque_len queue.old + deque_len other.now }
    ensures capacity { deque_capacity queue.new ≡ deque_capacity queue.old }
{
    for k in 0..other.len() {
        queue.push_back_reserved(other[k]);
    }
}
