//! Where the store keeps its links, its count and its records, and each access to them.

ghost use Rattle.std.specs.Prelude.{◌≡◌, ◌+◌, ◌*◌, ◌<◌, ◌≤◌, ◌↔◌, ℕ, length, take, slice_index, [], IsTrue};
ghost use Rattle.cl_types.specs.Bytes.{bytes_at};
ghost use Rattle.cl_types.specs.Spaces.{IsInOnePage};
ghost use Rattle.kv_offload.specs.Layout.{View, Says, number_at, front_of, slot_place, link_place, link_of, count_of, key_of, value_size, value_of, with_link, with_slot, with_count, hash_of, head_of};
ghost use Rattle.kv_offload.specs.Stored.{HasPages};
ghost use Rattle.cl_types.specs.declared.limits.TheConstants.{KEY_BYTES, VALUE_BYTES};

use crate::kv::Kv;
use cl_types::limits::{KEY_BYTES, PAGE_BYTES, VALUE_BYTES};
use cl_types::space::Space;

/// The greatest number of records of a store, as the numbers of a configuration allow it. It is small enough that each
/// node is a number of two bytes.
pub const MOST_RECORDS: u32 = 4096;

/// How many chains of records there are, one for each hash of a key.
pub const KEY_CHAINS: u32 = 1024;

/// How many heads of chains there are: that of the free slots, and one for each chain of records. A node is a head, by
/// its number, or a slot, by its number behind the heads.
pub const HEADS: u32 = 1 + KEY_CHAINS;

/// The head of the free slots. No link leads to it, so as a link it says that a chain ends.
pub const FREE: u32 = 0;

/// How many bytes a slot has.
pub const SLOT_BYTES: u32 = 315;

/// How many slots a page has.
pub const PAGE_SLOTS: u32 = 13;

/// Where the length of the key stands in a slot.
pub const KEY_LEN_AT: u32 = 2;

/// Where the length of the value stands in a slot.
pub const VALUE_LEN_AT: u32 = 3;

/// Where the key begins in a slot.
pub const KEY_AT: u32 = 5;

/// Where the value begins in a slot.
pub const VALUE_AT: u32 = 37;

// A slot has room for the greatest record, a page for its slots, and the first page for the heads and the count.
const _: () = prove!(KEY_AT + KEY_BYTES <= VALUE_AT);

const _: () = prove!(VALUE_AT + VALUE_BYTES <= SLOT_BYTES);

const _: () = prove!(PAGE_SLOTS * SLOT_BYTES <= PAGE_BYTES);

const _: () = prove!(2 * HEADS + 2 <= PAGE_BYTES);

// A link has room for each node.
const _: () = prove!(HEADS + MOST_RECORDS <= 65536);

/// What a record says to one who looks for a key.
#[derive(Drop)]
pub struct Visit {
    /// Whether it has the key.
    pub has_key: bool,
    /// The node behind it, or `FREE` at the end of its chain.
    pub next: u32,
    /// The length of its value.
    pub value_len: usize,
}

/// The head of the chain of a key.
pub fn head_of(key: &[u8]) -> u32
    requires { 1 ≤ length key.now }
    ensures head { result ≡ head_of key.now }
    ensures some { 1 ≤ result }
    ensures below { result < HEADS }
{
    let mut hash = 0;
    for byte in key {
        hash = (hash * 31 + *byte as u32) % KEY_CHAINS;
    }
    1 + hash
}

/// Where a slot begins.
fn slot_place(slot: u32) -> u32
    requires { slot < MOST_RECORDS }
    ensures { result ≡ slot_place slot }
{
    PAGE_BYTES * (1 + slot / PAGE_SLOTS) + SLOT_BYTES * (slot % PAGE_SLOTS)
}

/// Where the link of a node stands.
fn link_place(node: u32) -> u32
    requires { node < HEADS + MOST_RECORDS }
    ensures { result ≡ link_place node }
{
    if node < HEADS {
        2 * node
    } else {
        slot_place(node - HEADS)
    }
}

/// The number of two bytes at a place.
fn read_number<P: Space>(space: &mut P, place: u32) -> u32
    requires honest { P.honest space.old }
    requires within { IsInOnePage place 2 (length (P.contents space.old)) }
    ensures number { result ≡ number_at place (P.contents space.old) }
    ensures below { result < 65536 }
    ensures contents { P.contents space.new ≡ P.contents space.old }
    ensures rest { P.rest space.new ≡ P.rest space.old }
    ensures honest { P.honest space.new }
{
    let mut bytes = [0; 2];
    space.read_at(place, &mut bytes);
    u16::from_be_bytes(bytes) as u32
}

/// The number of two bytes at a place of some bytes.
fn number_in(bytes: &[u8], at: usize) -> u32
    requires { at + 2 ≤ length bytes.now }
    ensures number { result ≡ number_at at bytes.now }
    ensures below { result < 65536 }
{
    u16::from_be_bytes([bytes[at], bytes[at + 1]]) as u32
}

/// Whether a slot, of which these are the bytes up to its value, has the key.
fn begins_key(front: &[u8], key: &[u8]) -> bool
    requires front { length front.now ≡ VALUE_AT }
    requires key { length key.now ≤ KEY_BYTES }
    ensures byte { slice_index front.now KEY_LEN_AT < 256 }
    ensures test { IsTrue result
        ↔ ((slice_index front.now KEY_LEN_AT ≡ length key.now)
        × (bytes_at KEY_AT (length key.now) front.now ≡ key.now)) }
{
    let key_at = KEY_AT as usize;
    front[KEY_LEN_AT as usize] as usize == key.len() && &front[key_at..key_at + key.len()] == key
}

/// The front of a slot: its link and its two lengths.
fn front_of(next: u32, key_len: usize, value_len: usize) -> [u8; 5]
    requires next { next < 65536 }
    requires key_len { key_len ≤ KEY_BYTES }
    requires value_len { value_len ≤ VALUE_BYTES }
    ensures { result ≡ front_of next key_len value_len }
{
    let link = (next as u16).to_be_bytes();
    let value_bytes = (value_len as u16).to_be_bytes();
    [
        link[0],
        link[1],
        key_len as u8,
        value_bytes[0],
        value_bytes[1],
    ]
}

impl Kv {
    /// The node behind this one.
    pub(crate) fn link<P: Space>(&self, space: &mut P, node: u32) -> u32
        requires pages { HasPages self.now.records (P.contents space.old) }
        requires node { node < HEADS + self.now.records }
        requires honest { P.honest space.old }
        ensures link { result ≡ link_of (P.contents space.old) node }
        ensures below { result < 65536 }
        ensures contents { P.contents space.new ≡ P.contents space.old }
        ensures rest { P.rest space.new ≡ P.rest space.old }
        ensures honest { P.honest space.new }
    {
        read_number(space, link_place(node))
    }

    /// How many records are counted.
    pub(crate) fn counted<P: Space>(&self, space: &mut P) -> u32
        requires pages { HasPages self.now.records (P.contents space.old) }
        requires honest { P.honest space.old }
        ensures count { result ≡ count_of (P.contents space.old) }
        ensures contents { P.contents space.new ≡ P.contents space.old }
        ensures rest { P.rest space.new ≡ P.rest space.old }
        ensures honest { P.honest space.new }
    {
        read_number(space, 2 * HEADS)
    }

    /// What the record in a slot says to one who looks for this key.
    pub(crate) fn visit<P: Space>(&self, space: &mut P, slot: u32, key: &[u8]) -> Visit
        requires pages { HasPages self.now.records (P.contents space.old) }
        requires slot { slot < self.now.records }
        requires key { length key.now ≤ KEY_BYTES }
        requires honest { P.honest space.old }
        ensures key { IsTrue result.has_key ↔ (key_of (P.contents space.old) slot ≡ key.now) }
        ensures next { result.next ≡ link_of (P.contents space.old) (HEADS + slot) }
        ensures below { result.next < 65536 }
        ensures value_len { result.value_len ≡ value_size (P.contents space.old) slot }
        ensures contents { P.contents space.new ≡ P.contents space.old }
        ensures rest { P.rest space.new ≡ P.rest space.old }
        ensures honest { P.honest space.new }
    {
        let mut front = [0; VALUE_AT as usize];
        space.read_at(slot_place(slot), &mut front);
        Visit {
            has_key: begins_key(&front, key),
            next: number_in(&front, 0),
            value_len: number_in(&front, VALUE_LEN_AT as usize) as usize,
        }
    }

    /// Fills `out` with the front of the value in a slot.
    pub(crate) fn read_value<P: Space>(&self, space: &mut P, slot: u32, out: &mut [u8])
        requires pages { HasPages self.now.records (P.contents space.old) }
        requires slot { slot < self.now.records }
        requires whole { length out.old ≡ value_size (P.contents space.old) slot }
        requires short { length out.old ≤ VALUE_BYTES }
        requires honest { P.honest space.old }
        ensures value { out.new ≡ value_of (P.contents space.old) slot }
        ensures contents { P.contents space.new ≡ P.contents space.old }
        ensures rest { P.rest space.new ≡ P.rest space.old }
        ensures honest { P.honest space.new }
    {
        space.read_at(slot_place(slot) + VALUE_AT, out);
    }

    /// Links a node to another.
    pub(crate) fn set_link<P: Space>(&self, space: &mut P, node: u32, to: u32)
        requires pages { HasPages self.now.records (P.contents space.old) }
        requires node { node < HEADS + self.now.records }
        requires to { to < 65536 }
        requires honest { P.honest space.old }
        ensures says { (view : View) → Says self.now.records (P.contents space.old) view
            → Says self.now.records (P.contents space.new) (with_link view node to) }
        ensures pages { HasPages self.now.records (P.contents space.new) }
        ensures rest { P.rest space.new ≡ P.rest space.old }
        ensures honest { P.honest space.new }
    {
        space.write_at(link_place(node), &(to as u16).to_be_bytes());
    }

    /// Sets how many records are counted.
    pub(crate) fn set_count<P: Space>(&self, space: &mut P, count: u32)
        requires pages { HasPages self.now.records (P.contents space.old) }
        requires count { count < 65536 }
        requires honest { P.honest space.old }
        ensures says { (view : View) → Says self.now.records (P.contents space.old) view
            → Says self.now.records (P.contents space.new) (with_count view count) }
        ensures pages { HasPages self.now.records (P.contents space.new) }
        ensures rest { P.rest space.new ≡ P.rest space.old }
        ensures honest { P.honest space.new }
    {
        space.write_at(2 * HEADS, &(count as u16).to_be_bytes());
    }

    /// Makes a slot free, with this node behind it.
    pub(crate) fn clear<P: Space>(&self, space: &mut P, slot: u32, next: u32)
        requires pages { HasPages self.now.records (P.contents space.old) }
        requires slot { slot < self.now.records }
        requires next { next < 65536 }
        requires honest { P.honest space.old }
        ensures says { (view : View) → Says self.now.records (P.contents space.old) view
            → Says self.now.records (P.contents space.new) (with_slot view slot next [] []) }
        ensures pages { HasPages self.now.records (P.contents space.new) }
        ensures rest { P.rest space.new ≡ P.rest space.old }
        ensures honest { P.honest space.new }
    {
        space.write_at(slot_place(slot), &front_of(next, 0, 0));
    }

    /// Puts a record into a slot, with this node behind it.
    pub(crate) fn fill<P: Space>(
        &self,
        space: &mut P,
        slot: u32,
        next: u32,
        key: &[u8],
        value: &[u8],
    )
        requires pages { HasPages self.now.records (P.contents space.old) }
        requires slot { slot < self.now.records }
        requires next { next < 65536 }
        requires key { length key.now ≤ KEY_BYTES }
        requires value { length value.now ≤ VALUE_BYTES }
        requires honest { P.honest space.old }
        ensures says { (view : View) → Says self.now.records (P.contents space.old) view
            → Says self.now.records (P.contents space.new) (with_slot view slot next key.now value.now) }
        ensures pages { HasPages self.now.records (P.contents space.new) }
        ensures rest { P.rest space.new ≡ P.rest space.old }
        ensures honest { P.honest space.new }
    {
        let place = slot_place(slot);
        space.write_at(place, &front_of(next, key.len(), value.len()));
        space.write_at(place + KEY_AT, key);
        space.write_at(place + VALUE_AT, value);
    }

    /// Makes all chains end at their heads, and counts no record.
    pub(crate) fn clear_heads<P: Space>(&self, space: &mut P)
        requires pages { HasPages self.now.records (P.contents space.old) }
        requires honest { P.honest space.old }
        ensures links { (node : ℕ) → node < HEADS → link_of (P.contents space.new) node ≡ 0 }
        ensures count { count_of (P.contents space.new) ≡ 0 }
        ensures pages { HasPages self.now.records (P.contents space.new) }
        ensures rest { P.rest space.new ≡ P.rest space.old }
        ensures honest { P.honest space.new }
    {
        for head in 0..HEADS {
            self.set_link(space, head, FREE);
        }
        self.set_count(space, 0);
    }
}
