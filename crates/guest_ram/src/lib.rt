//! Guest memory: the windows of 4,096-byte pages that the lanes' guests share with their controllers, where a write
//! changes the bytes that it names and nothing else, and a command's pointers are answered by exactly the data pages
//! that the model finds there, or by the place of the first bad pointer.
#![tactic(auto)]

mod host;
mod ram;
mod window;

pub use host::Host;
pub use nvm_model::Pages;
pub use ram::Ram;
pub use window::{BadPrp, Window};
