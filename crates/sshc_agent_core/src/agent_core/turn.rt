//! The result of a row of the agent table, before the connection's state is set.

use crate::connections::Standing;
use crate::input::AgentOutput;

/// The connection's new state with the answer, or a key that is to sign.
#[derive(Drop)]
pub(crate) enum Turn<'a> {
    Says(Standing, AgentOutput),
    /// What follows the blob of the key that signs, in the request.
    Signs(&'a [u8]),
}
