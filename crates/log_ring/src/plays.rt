//! The rule of a log's table, and its steps. These types are for the proofs alone.
ghost use Rattle.std.specs.Prelude.{◌+◌, slice_index};
ghost use Rattle.log_rule.specs.Rule.{IsLogTable};
ghost use Rattle.log_rule.specs.Plays.{drawn, found, joined, looked, lost, opener, posted, spent, split_left, split_right, took};
ghost use Rattle.log_ring.specs.Words.{IsEntryWord};

use atomic_table::{Join, Play, Split, TableRule};
use log_rule::View;
use std::snapshot::Snapshot;

/// What was opened: how many cells, the positions of the oldest entry and of the next one, and the first words of the table.
#[derive(Drop)]
pub struct Opened {
    pub cells: u64,
    pub head: u64,
    pub tail: u64,
    pub words: Snapshot<Vec<u64>>,
}

/// The rule of a shared log.
pub struct Law;

impl<S> TableRule<S, View, Opened> for Law {
    ghost holds = { λ key. IsLogTable key.cells key.head key.tail (λ c. slice_index key.words.value.items (c + 3)) IsEntryWord };

    ghost first = { λ key. opener key.cells };
}

pub(crate) struct Draw;

impl<S> Play<S, View> for Draw {
    ghost then = { drawn };
}

pub(crate) struct Look;

impl<S> Play<S, View> for Look {
    ghost then = { looked };
}

pub(crate) struct Lose;

impl<S> Play<S, View> for Lose {
    ghost then = { lost };
}

pub(crate) struct Fill;

impl<S> Play<S, View> for Fill {
    ghost then = { posted };
}

pub(crate) struct Find;

impl<S> Play<S, View> for Find {
    ghost then = { found IsEntryWord };
}

pub(crate) struct Take;

impl<S> Play<S, View> for Take {
    ghost then = { took };
}

pub(crate) struct Cut;

impl Split<View> for Cut {
    ghost left = { split_left };

    ghost right = { split_right };
}

pub(crate) struct Glue;

impl Join<View> for Glue {
    ghost both = { joined };

    ghost spent = { spent };
}
