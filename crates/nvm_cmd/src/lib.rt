//! What a controller does with a command between its fetch and its completion, but for the effects of its pieces: the
//! checks, the cut into pieces, the status that their outcomes leave, and the completion.
//!
//! For the layer above: an entry is refused with the status of the first check that it fails, and else becomes a job on
//! blocks of the namespace and data pages of the window, whose pieces lie in one shelf each and hold its blocks in
//! ascending order without a gap, and whose first failed piece decides its status.
#![tactic(auto)]

mod checks;
mod completion;
mod cut;
mod early;
mod job;

pub use checks::check;
pub use completion::{finish, join_status};
pub use cut::{piece, piece_count, pieces_cover};
pub use job::{Checked, Job};
pub use nvm_model::{Piece, PieceResult};
