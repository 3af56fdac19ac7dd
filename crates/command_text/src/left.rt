//! What a command worked with.

use client_core::Client;
use node_core::Node;
use world::World;

/// What a command that ended with success leaves.
#[derive(Drop)]
pub enum Left {
    /// What `check` leaves, and each command that ended with another status than success.
    Nothing,
    /// The world of a schedule after its last event.
    Replayed(World),
    /// The node that was served, after its last datagram.
    Served(Node),
    /// The client that was driven through its script, all of whose calls have ended.
    Driven(Client),
}
