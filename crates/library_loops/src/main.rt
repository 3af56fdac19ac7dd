//! The library in two loops: one serves a node, one drives a client. The link between them is two lists of datagrams in
//! memory, and the first reply is lost on it. A program over a network has the same loops over a socket and a clock.
#![tactic(auto)]

mod drive;
mod link;
mod serve;

use cl_types::call::{AtomicOp, Call, Perm};
use cl_types::config::{NodeConfig, OffloadList};
use cl_types::items::NoMemory;
use cl_types::numbers::{Addr, ClientNo, Pid, try_pid};
use cl_types::open_fault::OpenFault;
use client_core::Client;
use drive::{ask, drive};
use link::Link;
use node_core::Node;
use serve::serve;
use std::alloc::Global;
use std::io;

// A node of 16 pages whose page table has 8 buckets, with 4 zeroed pages ready and 8 cached replies.
fn node(alloc: Global) -> Result<Node, OpenFault> {
    let config = NodeConfig {
        pages: 16,
        buckets: 8,
        ring: 4,
        retry: 8,
        offloads: OffloadList::create(alloc),
    };
    Node::create(alloc, &config)
}

// Client 1, which works for process 1.
fn client(alloc: Global) -> Result<Client, NoMemory> {
    let Some(pid) = try_pid(1) else {
        return Err(NoMemory);
    };
    Client::create(alloc, ClientNo(1), pid)
}

// A page, and once it is there 5 is added to a word of it.
fn ask_all(client: &mut Client) {
    ask(
        client,
        Call::Alloc {
            pages: 1,
            perm: Perm::ReadWrite,
        },
    );
    ask(client, Call::Fence);
    ask(
        client,
        Call::Atomic {
            addr: Addr(0x1000),
            op: AtomicOp::Add { n: 5 },
        },
    );
}

// Four turns. A turn takes 100 ticks, after which a part without a reply is sent again.
fn play(rt: &HostRuntime, node: &mut Node, client: &mut Client, link: &mut Link) -> io::Result<()> {
    for turn in 0..4 {
        drive(rt, client, 100 * turn, link)?;
        serve(rt.alloc(), node, 100 * turn, link)?;
        if turn == 0 {
            link.to_client.clear();
        }
    }
    Ok(())
}

// Makes the client and the link to the node, and asks.
fn run(rt: &HostRuntime, node: &mut Node) -> io::Result<()> {
    let Ok(mut client) = client(rt.alloc()) else {
        return Ok(());
    };
    let mut link = Link::create(rt.alloc());
    ask_all(&mut client);
    play(rt, node, &mut client, &mut link)
}

fn main(rt: HostRuntime) -> io::Result<()> {
    let Ok(mut node) = node(rt.alloc()) else {
        return Ok(());
    };
    run(&rt, &mut node)
}
