ghost use Rattle.std.specs.Prelude.{◌≡◌, ◌≤◌, ◌↔◌, ℕ, IsSome, IfSome};

use std::marker::Model;

/// The number of a queue pair, here called a lane: from 1 to 8.
#[derive(Clone, Copy, Debug, PartialEq, Eq)]
pub struct LaneNo {
    number: u8,
}

impl Model for LaneNo {
    ghost Value = { ℕ };

    ghost view = { λ lane. lane.number };

    ghost invariant = { λ lane. (1 ≤ lane.number) × (lane.number ≤ 8) };

    ghost inverse = { λ n. record { number = n } };
}

impl LaneNo {
    /// The lane of that number, if there is one.
    pub fn new(n: u8) -> Option<LaneNo>
        ensures there { IsSome result ↔ ((1 ≤ n) × (n ≤ 8)) }
        ensures value { IfSome result (λ lane. lane ≡ n) }
    {
        if (1..=8).contains(&n) {
            Some(LaneNo { number: n })
        } else {
            None
        }
    }

    /// The lane's number, from 1 to 8.
    pub fn get(self) -> u8
        ensures value { result ≡ self }
        ensures range { (1 ≤ result) × (result ≤ 8) }
    {
        self.number
    }
}
