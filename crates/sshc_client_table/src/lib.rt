//! What an open session does, as moves over its opening, its channels and its requests: definitions, and the laws
//! that hold of them.
#![tactic(auto)]

mod law;
mod life;
mod open_answer;
mod reply_entry;
mod rows;
mod settings;

pub use law::session_laws;
pub use life::Life;
pub use open_answer::OpenAnswer;
pub use reply_entry::{ReplyEntry, ReplyKind};
pub use rows::row_laws;
pub use settings::SessionSettings;
