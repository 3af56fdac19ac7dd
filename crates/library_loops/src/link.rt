//! The link in memory: datagrams to the node, and datagrams to the client.

use std::alloc::{AllocError, Global};

/// Datagrams on their way.
#[derive(Drop)]
pub struct Link {
    pub to_node: Vec<Vec<u8>>,
    pub to_client: Vec<Vec<u8>>,
}

impl Link {
    /// A link with nothing on it.
    pub fn create(alloc: Global) -> Link {
        Link {
            to_node: Vec::new(alloc),
            to_client: Vec::new(alloc),
        }
    }
}

/// Puts the first `len` bytes of the buffer on a list.
pub fn send(
    alloc: Global,
    list: &mut Vec<Vec<u8>>,
    buffer: &[u8],
    len: usize,
) -> Result<(), AllocError> {
    let datagram = Vec::from_slice(alloc, &buffer[..len.min(buffer.len())])?;
    list.push(datagram)?;
    Ok(())
}
