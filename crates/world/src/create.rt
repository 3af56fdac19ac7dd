//! The whole before the first event.

ghost use Rattle.std.specs.Prelude.{◌≡◌, ◌≤◌, ◌++◌, [], ◌∷◌, None, Err, IfErr, IfOk, MatchOption, OnOk, map, nat_eq};
ghost use Rattle.client_model.specs.Client.{new_client};
ghost use Rattle.flat_model.specs.Opening.{open_fault};
ghost use Rattle.client_model.specs.Apart.{AreApart};
ghost use Rattle.indexmap.specs.IndexMap.{get, values};
ghost use Rattle.world.specs.Fields.{AreKeyed, AreSound, world_around, world_of};
ghost use Rattle.world.specs.Follows.{new_world};
ghost use Rattle.world.specs.Running.{HaveNumbersApart};

use crate::whole::Whole;
use cl_types::config::Config;
use cl_types::items::NoMemory;
use cl_types::limits::FRAME_ROOM;
use cl_types::numbers::{ClientNo, Pid};
use cl_types::open_fault::OpenFault;
use client_core::Client;
use indexmap::IndexMap;
use link_sim::Link;
use node_core::Node;
use std::alloc::Global;

impl Whole {
    /// The whole of a configuration in which nothing has happened, or why its node doesn't open.
    pub fn create(alloc: Global, config: &Config) -> Result<Whole, OpenFault>
        requires { HaveNumbersApart config.now }
        ensures opened { IfOk result (λ whole. world_of whole ≡ new_world config.now) }
        ensures sound { IfOk result (AreSound 0) }
        ensures keyed { IfOk result (λ whole. AreKeyed whole.clients) }
        ensures keeps { OnOk result (1 ≤ config.now.node.retry) }
        ensures fault { MatchOption (open_fault config.now.node)
            (IfErr result (λ fault. fault ≡ OpenFault.NoMemory)) (λ fault. result ≡ Err fault) }
    {
        let node = Node::create(alloc, &config.node)?;
        around(alloc, node, config.clients.as_slice())
    }
}

/// The whole of a node and of new clients, in which nothing has happened.
fn around(alloc: Global, node: Node, given: &[(ClientNo, Pid)]) -> Result<Whole, OpenFault>
    requires { AreApart (map (λ g. g.0.0) given.now) }
    ensures world { IfOk result (λ whole. world_of whole ≡ world_around node.node given.now) }
    ensures keyed { IfOk result (λ whole. AreKeyed whole.clients) }
    ensures last { IfOk result (λ whole. whole.node.last ≡ node.last) }
    ensures memory { IfErr result (λ fault. fault ≡ OpenFault.NoMemory) }
{
    let clients = clients_of(alloc, given)?;
    let link = Link::create(alloc)?;
    Ok(Whole {
        moment: 0,
        node,
        clients,
        link,
        notes: Vec::new(alloc),
        history: Vec::new(alloc),
        out: [0; FRAME_ROOM],
    })
}

/// A client for each that is given, with the process that is given for it.
fn clients_of(alloc: Global, given: &[(ClientNo, Pid)]) -> Result<IndexMap<u16, Client>, NoMemory>
    requires { AreApart (map (λ g. g.0.0) given.now) }
    ensures clients { IfOk result
        (λ clients. values clients ≡ map (λ g. new_client g.0 g.1) given.now) }
    ensures keyed { IfOk result (λ clients. AreKeyed clients) }
{
    let mut clients = IndexMap::new(alloc);
    for (no, pid) in given {
        let client = Client::create(alloc, *no, *pid)?;
        put(&mut clients, client)?;
    }
    Ok(clients)
}

/// Puts a client under its number, behind the others.
fn put(clients: &mut IndexMap<u16, Client>, client: Client) -> Result<(), NoMemory>
    requires { get nat_eq clients.old client.client.0 ≡ None }
    ensures { OnOk result
        (clients.new.entries ≡ clients.old.entries ++ (client.client.0, client) ∷ []) }
{
    let no = client.no();
    match clients.insert(no.0, client) {
        Ok(_) => Ok(()),
        Err(_) => Err(NoMemory),
    }
}
