//! What the product promises, in one place: the plain types that several layers share, and in specs/ every definition
//! that a contract above cites, so that whoever trusts this folder and the contract of `nvmigrate` trusts the product.
#![tactic(auto)]

mod command;
mod line;
mod piece;
mod ring;
mod run;
mod script;
mod trace;

pub use command::{Command, Completion, Outcome, Pages, Work};
pub use line::Line;
pub use piece::{Piece, PieceResult, ShelfEntry, piece_calls_have_effect, piece_is_local};
pub use ring::RingState;
pub use run::{RunPhase, Side};
pub use script::{Act, Acts, Head, LaneSet, Script};
pub use trace::{Call, Step};
