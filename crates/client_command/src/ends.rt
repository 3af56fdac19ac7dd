//! How the command ends.

use client_core::Client;

/// How the command ended.
#[derive(Drop)]
pub enum ClientEnd {
    /// Every call of the script was tried, and each one that was issued has ended. The client is
    /// handed back.
    Driven(Client),
    /// 1,000,000 turns in a row were fruitless, and a line says so.
    Stalled,
    /// The bind, a receive or a send failed, and a line says so.
    WireFault,
    /// A write failed.
    WriteFault,
    /// An allocation was refused.
    NoMemory,
}
