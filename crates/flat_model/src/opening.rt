//! The opening of a flat machine.

ghost use Rattle.std.specs.Prelude.{◌≡◌, ◌+◌, ◌<◌, ◌++◌, IfOk, IfErr, OnOk, MatchOption, None, Err, map};
ghost use Rattle.cl_types.specs.Config.{bad_number_of};
ghost use Rattle.flat_model.specs.Objects.{empty_object};
ghost use Rattle.flat_model.specs.Opening.{open_fault};
ghost use Rattle.flat_model.specs.State.{held_from, opening, places_of};

use crate::flat::Flat;
use crate::room::{bucket_count, offload_count, offload_without_room, page_count, space_of};
use crate::rows::Place;
use crate::store::KvStore;
use cl_types::config::{NodeConfig, OffloadConfig, bad_number};
use cl_types::items::NoMemory;
use cl_types::open_fault::OpenFault;
use std::alloc::Global;

fn add_pages(held: &mut Vec<Place>, space: u16, pages: u16) -> Result<(), NoMemory>
    requires { pages < 65535 }
    ensures { OnOk result (held.new.items ≡ held.old.items ++ places_of space 1 pages) }
{
    for i in 0..pages {
        if held.push((space, i + 1)).is_err() {
            return Err(NoMemory);
        }
    }
    Ok(())
}

fn held_pages(alloc: Global, config: &NodeConfig) -> Result<Vec<Place>, NoMemory>
    requires { bad_number_of config.now ≡ None }
    ensures { IfOk result (λ held. held.items ≡ held_from 0 config.now.offloads) }
{
    let mut held = Vec::new(alloc);
    let count = offload_count(config);
    for k in 0..count {
        add_pages(&mut held, space_of(k), page_count(config, k))?;
    }
    Ok(held)
}

fn empty_objects(alloc: Global, offloads: &[OffloadConfig]) -> Result<Vec<KvStore>, NoMemory>
    ensures { IfOk result (λ objects. objects.items ≡ map empty_object offloads.now) }
{
    let mut objects = Vec::new(alloc);
    for offload in offloads {
        let OffloadConfig::Kv { records } = *offload;
        if objects.push(KvStore::create(alloc, records)).is_err() {
            return Err(NoMemory);
        }
    }
    Ok(objects)
}

/// The machine of a configuration at its opening, or why it doesn't open: a bad number, or else an
/// offload without room, is told whether there is memory or not.
pub fn create(alloc: Global, config: &NodeConfig) -> Result<Flat, OpenFault>
    ensures opened { IfOk result (λ flat. flat ≡ opening config.now) }
    ensures fault { MatchOption (open_fault config.now) (IfErr result (λ fault. fault ≡ OpenFault.NoMemory))
        (λ fault. result ≡ Err fault) }
{
    if let Some((field, value)) = bad_number(config) {
        return Err(OpenFault::BadConfig { field, value });
    }
    if let Some(fault) = offload_without_room(config) {
        return Err(fault);
    }
    let held = held_pages(alloc, config)?;
    let objects = empty_objects(alloc, config.offloads.as_slice())?;
    Ok(Flat::empty(alloc, objects, held, config.pages, bucket_count(config)))
}
