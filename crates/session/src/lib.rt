//! A run by stages over two places, each a host's media, its guests' memory and its controller. For the layer above: each
//! call says which stages the run went on by, whatever run it stood for, and a run of a script goes on to its end, or to
//! where the sink failed.
#![tactic(auto)]

mod cutover;
mod dest;
mod ending;
mod lane_run;
mod lane_script;
mod order;
mod pieces;
mod place;
mod plan;
mod port;
mod posts;
mod session;
mod turn;
mod whole;

pub use dest::Dest;
pub use ending::Ending;
pub use lane_run::LaneRun;
pub use lane_script::LaneScript;
pub use order::Order;
pub use place::Place;
pub use port::Move;
pub use session::{Next, Session, window_pages};
pub use turn::MOST_EVENTS;
pub use whole::run;
