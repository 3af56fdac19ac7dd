//! The header of generated schedules, and what it says: the node and its clients.

ghost use Rattle.std.specs.Prelude.{◌≡◌, [], ◌∷◌, ◌++◌, ◌<◌, ◌≤◌, IfOk, OnOk};
ghost use Rattle.cl_types.specs.declared.numbers.TheConstants.{LAST_PID};
ghost use Rattle.storm_gen.specs.Generated.{config, header};

use cl_types::config::{ClientList, Config, NodeConfig, OffloadList};
use cl_types::items::{Bytes, NoMemory};
use cl_types::numbers::{ClientNo, try_pid};
use std::alloc::Global;

/// The header lines.
const HEADER: &[u8] = b"node 512 1024 16 4096\nclient 1 1\nclient 2 1\nclient 3 2\nclient 4 2\n";

/// The header.
pub fn header(alloc: Global) -> Result<Bytes, NoMemory>
    ensures { IfOk result (λ bytes. bytes ≡ header) }
{
    let mut bytes = Bytes::create(alloc);
    bytes.append(HEADER)?;
    Ok(bytes)
}

/// Adds a client of a process.
fn add(number: u16, process: u16, clients: &mut ClientList) -> Result<(), NoMemory>
    requires { (0 < process) × (process ≤ LAST_PID) }
    ensures { OnOk result (clients.new ≡ clients.old ++ (record { 0 = number }, process) ∷ []) }
{
    let Some(pid) = try_pid(process) else {
        unreachable!()
    };
    clients.push((ClientNo(number), pid))
}

/// The node, and four clients of two processes.
pub fn config(alloc: Global) -> Result<Config, NoMemory>
    ensures { IfOk result (λ made. made ≡ config) }
{
    let mut clients = ClientList::create(alloc);
    add(1, 1, &mut clients)?;
    add(2, 1, &mut clients)?;
    add(3, 2, &mut clients)?;
    add(4, 2, &mut clients)?;
    let node = NodeConfig {
        pages: 512,
        buckets: 1024,
        ring: 16,
        retry: 4096,
        offloads: OffloadList::create(alloc),
    };
    Ok(Config { node, clients })
}
