//! A law of the model: what was done in a hall, ordered by tickets, is what a turn does between its plan and its posts. For
//! the layer above: each shelf and each lane went on by what is its own, in any order of the lanes; then all of it together is
//! a chain of the turn's items.
#![tactic(auto)]
