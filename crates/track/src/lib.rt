//! Whether changes of user data are logged. For the layer above: `note` posts a change exactly where logging is on and the
//! queue is live, and does nothing else.
#![tactic(auto)]

ghost use Rattle.std.specs.Prelude.{◌≡◌, ◌&&◌, true, false};
ghost use Rattle.data_queue.specs.Change.{IsChange};
ghost use Rattle.data_queue.specs.Log.{Posted};

use data_queue::{Change, DataQueue};
use std::marker::Model;

/// Whether logging of user data changes is on. Contracts see that.
#[derive(Drop)]
pub struct Tracker {
    logging: bool,
}

impl Model for Tracker {
    ghost use Rattle.std.specs.Prelude.{Bool};

    ghost Value = { Bool };

    ghost view = { λ t. t.logging };
}

impl Tracker {
    /// Logging is off.
    pub fn new() -> Tracker
        ensures { result ≡ false }
    {
        Tracker { logging: false }
    }

    /// Whether logging is on.
    pub fn logging(&self) -> bool
        ensures { result ≡ self.now }
    {
        self.logging
    }

    /// Turns logging on or off.
    pub fn set_logging(&mut self, on: bool)
        ensures { self.new ≡ on }
    {
        self.logging = on;
    }

    /// Posts a change where logging is on and the queue is live. Where no cell is free, the queue's mark tells it.
    pub fn note(&self, c: Change, q: &mut DataQueue)
        requires { IsChange c }
        ensures posted { (self.now && q.old.live) ≡ true → Posted q.old c q.new }
        ensures kept { (self.now && q.old.live) ≡ false → q.new ≡ q.old }
    {
        if self.logging && q.live() {
            let _lost = q.post(c).is_err();
        }
    }
}

#[cfg(test)]
mod tests;
