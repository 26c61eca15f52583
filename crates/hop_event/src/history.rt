//! A list of events that grows at its end.
ghost use Rattle.std.specs.Prelude.{◌≡◌, ◌≤◌, ◌<◌, ◌+◌, ◌^◌, ◌∷◌, [], reverse, length, OnOk, IfOk};

use crate::event::Event;
use hop_base::NoMemory;
use std::alloc::Global;
use std::marker::Model;

/// The events of one reducer. Contracts see the list with the last event first, beside the number
/// of events that there is room for.
#[derive(Debug, Drop)]
pub struct History {
    events: Vec<Event>,
}

impl Model for History {
    ghost use Rattle.std.specs.Prelude.{reverse, vec_len, vec_capacity, ◌-◌};
    ghost use Rattle.hop_event.specs.History.{HistoryValue};

    ghost Value = { HistoryValue };

    ghost view = { λ h. record { events = reverse h.events.items; spare = vec_capacity h.events - vec_len h.events } };
}

impl History {
    /// The empty history.
    pub fn new(alloc: Global) -> Result<History, NoMemory>
        ensures { IfOk result (λ h. h.events ≡ []) }
    {
        let events = Vec::new(alloc);
        Ok(History { events })
    }

    /// Makes room for one event more. The events stay, also after `NoMemory`.
    pub fn reserve(&mut self) -> Result<(), NoMemory>
        ensures same { self.new.events ≡ self.old.events }
        ensures room { OnOk result (1 ≤ self.new.spare) }
        ensures kept { self.old.spare ≤ self.new.spare }
    {
        self.events.reserve(1)?;
        Ok(())
    }

    /// The event is last. It takes no memory.
    pub fn push(&mut self, e: Event)
        requires { 1 ≤ self.old.spare }
        ensures events { self.new.events ≡ e ∷ self.old.events }
        ensures spare { self.new.spare + 1 ≡ self.old.spare }
        ensures few { length self.new.events < 2 ^ 64 }
    {
        self.events.push_reserved(e);
    }

    /// The number of events.
    pub fn len(&self) -> u64
        ensures { result ≡ length self.now.events }
    {
        self.events.len() as u64
    }

    /// The events, the first one first.
    pub fn events(&self) -> &[Event]
        ensures { result.now ≡ reverse self.now.events }
    {
        &self.events
    }
}
