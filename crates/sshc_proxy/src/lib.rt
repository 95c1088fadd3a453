//! An agent's proxy: a key is listed and used only where a written policy names it for every host that is bound.
#![tactic(auto)]

mod binding;
mod bound_hosts;
mod broken;
mod error;
mod input;
mod listing;
mod policy;
mod policy_text;
mod proxy_core;
mod reading;
mod relay;
mod told;
mod waiting;
mod words;
mod writing;

pub use binding::{Binding, binding_of, is_signed};
pub use broken::Broken;
pub use error::{PolicyError, ProxyError};
pub use input::{ProxyInput, ProxyOutput};
pub use listing::{Listed, framed_listing, listed_keys};
pub use policy::Policy;
pub use policy_text::{key_blob, parse_policy};
pub use proxy_core::ProxyCore;
pub use reading::read_frame;
pub use relay::proxy_run;
pub use waiting::Awaited;
pub use words::proxy_words;
pub use writing::write_frame;
