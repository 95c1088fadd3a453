//! The opening of a session: from the first key exchange to an authenticated user.
#![tactic(auto)]

mod auth_result;
mod ended;
mod ending;
mod error;
mod extension;
mod gate;
mod gssapi;
mod keyboard_interactive;
mod opening;
mod order;
mod signature_names;
mod slot;
mod step;
mod stepping;

pub use auth_result::AuthResult;
pub use ended::{Ended, RemoteDisconnectInfo};
pub use ending::Ending;
pub use error::Error;
pub use gate::Gate;
pub use gssapi::{GssapiAuthenticator, GssapiError, GssapiStep};
pub use keyboard_interactive::KeyboardInteractiveAuthResponse;
pub use opening::{Class, Opening, Phase, Settings, Waiter, resolved};
pub use order::{EventSort, sort_of};
pub use sshc_auth_event::{ChannelMsg, Event, Method, SharedMethod, host_key_of};
pub use sshc_auth_request::{mic_data, to_sign, write_auth_request};
pub use sshc_transport::{ExchangeFlag, ExchangeKey, ExchangeNames, ExchangeResult, NamesChosen};
pub use sshc_wire::{Outbox, Prompt, Record, Resolution, Ticket};
pub use step::{Asks, Step, Told};
