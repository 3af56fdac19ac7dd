//! The loop that serves a node.

use crate::link::{Link, send};
use cl_types::limits::FRAME_ROOM;
use node_core::{Node, Outcome};
use std::alloc::{AllocError, Global};

/// Hands each datagram that came to the node, and sends each reply back. `now` is in ticks and may not fall.
pub fn serve(alloc: Global, node: &mut Node, now: u64, link: &mut Link) -> Result<(), AllocError> {
    let mut out = [0; FRAME_ROOM];
    for frame in &link.to_node {
        match node.handle(now.max(node.last()), frame.as_slice(), &mut out) {
            Outcome::Replied { len, .. } => send(alloc, &mut link.to_client, &out, len)?,
            // a client that hears nothing sends again
            Outcome::Busy { .. } | Outcome::Bad(_) => {}
        }
    }
    link.to_node.clear();
    Ok(())
}
