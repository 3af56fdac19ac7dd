//! A test of `world`: a world by direct calls, what its events came to, and what it lends.

ghost use Rattle.std.specs.Prelude.{◌≡◌, ◌<◌, ◌^◌, IfOk, IsTrue};
ghost use Rattle.world.specs.Running.{IsFair};

use cl_types::call::Perm;
use cl_types::config::{ClientList, Config, NodeConfig, OffloadList};
use cl_types::line::Summary;
use cl_types::numbers::{ClientNo, try_pid};
use cl_types::schedule::{CallText, Event};
use std::alloc::Global;
use world::{OpenFault, World};

const CLIENT: ClientNo = ClientNo(1);

/// A world of a node with 16 pages and 4 records, and of client 1 of process 1.
fn opened(alloc: Global) -> Result<World, OpenFault>
    ensures { IfOk result (λ w. w.line ≡ 0) }
{
    let mut clients = ClientList::create(alloc);
    if let Some(pid) = try_pid(1) {
        clients.push((CLIENT, pid))?;
    }
    let node = NodeConfig {
        pages: 16,
        buckets: 8,
        ring: 4,
        retry: 4,
        offloads: OffloadList::create(alloc),
    };
    World::create(alloc, &Config { node, clients })
}

/// Whether an event takes place on a line after the latest.
fn happens(alloc: Global, world: &mut World, line: u32, event: &Event) -> bool
    requires after { world.old.line < line }
    requires few { line < 2 ^ 29 }
    requires fair { IsFair event.now }
    ensures { IsTrue result → world.new.line ≡ line }
{
    world.event(alloc, line, event).is_ok()
}

/// Whether an Alloc is issued, sent, executed and answered.
fn executes_an_alloc(alloc: Global, world: &mut World) -> bool
    requires { world.old.line ≡ 0 }
{
    let client = CLIENT;
    let call = CallText::Alloc {
        pages: 1,
        perm: Perm::ReadWrite,
    };
    happens(alloc, world, 3, &Event::Call { client, call })
        && happens(alloc, world, 4, &Event::Poll { client })
        && happens(alloc, world, 5, &Event::DeliverNext)
        && happens(alloc, world, 6, &Event::DeliverNext)
}

/// What a world came to, how many entries its history has, how many replies its node keeps, and how many calls its client
/// issued.
type Shown = (Summary, usize, u32, Option<u32>);

fn issued(world: &World) -> Option<u32> {
    if !world.has_client(CLIENT) {
        return None;
    }
    Some(world.client(CLIENT).issued())
}

fn show(world: &World) -> Shown {
    (
        world.finish(),
        world.history().len(),
        world.node().retained(),
        issued(world),
    )
}

/// Whether each event takes place in a new world, and what is shown of it. No other function owns a world, since each that
/// drops one takes the prover long.
fn come_to(alloc: Global) -> Result<(bool, Shown), OpenFault> {
    let mut world = opened(alloc)?;
    Ok((executes_an_alloc(alloc, &mut world), show(&world)))
}

#[test]
fn a_world_comes_to_a_call_that_is_done(rt: HostRuntime) {
    let summary = Summary {
        issued: 1,
        done: 1,
        refused: 0,
        timed_out: 0,
        unended: 0,
        entries: 1,
    };
    assert!(rt; come_to(rt.alloc()) == Ok((true, (summary, 1, 1, Some(1)))));
}
