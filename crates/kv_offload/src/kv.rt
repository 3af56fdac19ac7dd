//! The store and its calls.

ghost use Rattle.std.specs.Prelude.{◌≡◌, ◌≢◌, ◌+◌, ◌*◌, ◌-◌, ◌<◌, ◌≤◌, ℕ, [], ◌∷◌, ◌++◌, length, ◌==◌, if◌then◌else◌, IfNone, IfSome, IfErr, IfOk, drop};
ghost use Rattle.std.specs.FinMap.Entries.{find};
ghost use Rattle.flat_model.specs.Objects.{key_cmp, kv_put, kv_get, kv_delete};
ghost use Rattle.kv_offload.specs.declared.layout.TheConstants.{MOST_RECORDS};
ghost use Rattle.kv_offload.specs.Found.{IsFound, IsAbsent};
ghost use Rattle.kv_offload.specs.Layout.{key_of, head_of, link_of, count_of, next_free, value_size};
ghost use Rattle.kv_offload.specs.Stored.{IsStore, HasPages, pairs_in, object_in, given_by, answered};
ghost use Rattle.cl_types.specs.declared.limits.TheConstants.{KEY_BYTES, VALUE_BYTES};

use crate::layout::{FREE, HEADS, head_of};
use cl_types::limits::PART_BYTES;
use cl_types::reply::Refusal;
use cl_types::space::Space;

/// A key-value store of 1 to 4,096 records.
#[derive(Clone, Copy, Debug)]
pub struct Kv {
    pub records: u32,
}

/// Where a record stands.
#[derive(Drop)]
pub struct Found {
    /// The node that leads to it.
    pub before: u32,
    /// Its own node.
    pub node: u32,
    /// The node behind it, or `FREE` where it is the last of its chain.
    pub next: u32,
    /// The length of its value.
    pub value_len: usize,
}

impl Kv {
    /// Makes the space the empty store.
    pub fn init<P: Space>(&self, space: &mut P)
        requires pages { HasPages self.now.records (P.contents space.old) }
        requires honest { P.honest space.old }
        ensures store { IsStore self.now.records (P.contents space.new) }
        ensures empty { pairs_in self.now.records (P.contents space.new) ≡ [] }
        ensures rest { P.rest space.new ≡ P.rest space.old }
        ensures honest { P.honest space.new }
    {
        self.clear_heads(space);
        self.set_link(space, FREE, HEADS);
        self.free_slots(space);
    }

    /// Puts the value at the key. A new key is refused as `ObjectFull` exactly where `records` keys are stored.
    pub fn put<P: Space>(&self, space: &mut P, key: &[u8], value: &[u8]) -> Result<(), Refusal>
        requires store { IsStore self.now.records (P.contents space.old) }
        requires some { 1 ≤ length key.now }
        requires key { length key.now ≤ KEY_BYTES }
        requires value { length value.now ≤ VALUE_BYTES }
        requires honest { P.honest space.old }
        ensures given { given_by result [] (object_in self.now.records (P.contents space.new))
            ≡ kv_put self.now.records (pairs_in self.now.records (P.contents space.old)) key.now
            value.now }
        ensures refused { IfErr result (λ _. P.contents space.new ≡ P.contents space.old) }
        ensures store { IsStore self.now.records (P.contents space.new) }
        ensures rest { P.rest space.new ≡ P.rest space.old }
        ensures honest { P.honest space.new }
    {
        if let Some(found) = self.find(space, key) {
            self.fill(space, found.node - HEADS, found.next, key, value);
            return Ok(());
        }
        let node = self.link(space, FREE);
        if node == FREE {
            return Err(Refusal::ObjectFull);
        }
        self.add(space, node, key, value);
        Ok(())
    }

    /// Writes the value of the key to the front of `out`, and answers its length. A key that isn't there is refused
    /// as `NoKey`.
    pub fn get<P: Space>(
        &self,
        space: &mut P,
        key: &[u8],
        out: &mut [u8; PART_BYTES as usize],
    ) -> Result<usize, Refusal>
        requires store { IsStore self.now.records (P.contents space.old) }
        requires some { 1 ≤ length key.now }
        requires key { length key.now ≤ KEY_BYTES }
        requires honest { P.honest space.old }
        ensures given { let pairs = pairs_in self.now.records (P.contents space.old) in
            given_by result (answered result out.new)
            (object_in self.now.records (P.contents space.new))
            ≡ kv_get self.now.records pairs (find key_cmp key.now pairs) }
        ensures size { IfOk result (λ size. size ≤ VALUE_BYTES) }
        ensures behind { IfOk result (λ size. drop size out.new ≡ drop size out.old) }
        ensures refused { IfErr result (λ _. out.new ≡ out.old) }
        ensures contents { P.contents space.new ≡ P.contents space.old }
        ensures rest { P.rest space.new ≡ P.rest space.old }
        ensures honest { P.honest space.new }
    {
        let Some(found) = self.find(space, key) else {
            return Err(Refusal::NoKey);
        };
        let (value, _) = out.split_at_mut(found.value_len);
        self.read_value(space, found.node - HEADS, value);
        Ok(found.value_len)
    }

    /// Takes the key out with its value. A key that isn't there is refused as `NoKey`.
    pub fn delete<P: Space>(&self, space: &mut P, key: &[u8]) -> Result<(), Refusal>
        requires store { IsStore self.now.records (P.contents space.old) }
        requires some { 1 ≤ length key.now }
        requires key { length key.now ≤ KEY_BYTES }
        requires honest { P.honest space.old }
        ensures given { given_by result [] (object_in self.now.records (P.contents space.new))
            ≡ kv_delete self.now.records (pairs_in self.now.records (P.contents space.old)) key.now }
        ensures refused { IfErr result (λ _. P.contents space.new ≡ P.contents space.old) }
        ensures store { IsStore self.now.records (P.contents space.new) }
        ensures rest { P.rest space.new ≡ P.rest space.old }
        ensures honest { P.honest space.new }
    {
        let Some(found) = self.find(space, key) else {
            return Err(Refusal::NoKey);
        };
        self.remove(space, key, found);
        Ok(())
    }

    /// How many keys are stored.
    pub fn count<P: Space>(&self, space: &mut P) -> u32
        requires store { IsStore self.now.records (P.contents space.old) }
        requires honest { P.honest space.old }
        ensures count { result ≡ length (pairs_in self.now.records (P.contents space.old)) }
        ensures contents { P.contents space.new ≡ P.contents space.old }
        ensures rest { P.rest space.new ≡ P.rest space.old }
        ensures honest { P.honest space.new }
    {
        self.counted(space)
    }

    /// The node behind that of a slot while all slots are free.
    fn next_free(&self, slot: u32) -> u32
        requires slot { slot < self.now.records }
        requires few { self.now.records ≤ MOST_RECORDS }
        ensures node { result ≡ next_free self.now.records slot }
        ensures below { result < 65536 }
    {
        if slot + 1 < self.records {
            HEADS + (slot + 1)
        } else {
            FREE
        }
    }

    /// Makes all slots free, each with the next one behind it.
    fn free_slots<P: Space>(&self, space: &mut P)
        requires pages { HasPages self.now.records (P.contents space.old) }
        requires links { (node : ℕ) → node < HEADS
            → link_of (P.contents space.old) node ≡ (if node == 0 then HEADS else 0) }
        requires count { count_of (P.contents space.old) ≡ 0 }
        requires honest { P.honest space.old }
        ensures store { IsStore self.now.records (P.contents space.new) }
        ensures empty { pairs_in self.now.records (P.contents space.new) ≡ [] }
        ensures rest { P.rest space.new ≡ P.rest space.old }
        ensures honest { P.honest space.new }
    {
        for slot in 0..self.records {
            self.clear(space, slot, self.next_free(slot));
        }
    }

    /// The record of a key.
    fn find<P: Space>(&self, space: &mut P, key: &[u8]) -> Option<Found>
        requires store { IsStore self.now.records (P.contents space.old) }
        requires some { 1 ≤ length key.now }
        requires key { length key.now ≤ KEY_BYTES }
        requires honest { P.honest space.old }
        ensures absent { IfNone result (IsAbsent self.now.records (P.contents space.old) key.now) }
        ensures found { IfSome result (λ found. IsFound self.now.records (P.contents space.old) key.now found) }
        ensures contents { P.contents space.new ≡ P.contents space.old }
        ensures rest { P.rest space.new ≡ P.rest space.old }
        ensures honest { P.honest space.new }
    {
        let mut before = head_of(key);
        let mut node = self.link(space, before);
        while node != FREE {
            let visit = self.visit(space, node - HEADS, key);
            if visit.has_key {
                return Some(Found {
                    before,
                    node,
                    next: visit.next,
                    value_len: visit.value_len,
                });
            }
            before = node;
            node = visit.next;
        }
        None
    }

    /// Puts a record with a new key into the first free slot, which is this node.
    fn add<P: Space>(&self, space: &mut P, node: u32, key: &[u8], value: &[u8])
        requires store { IsStore self.now.records (P.contents space.old) }
        requires absent { IsAbsent self.now.records (P.contents space.old) key.now }
        requires free { node ≡ link_of (P.contents space.old) 0 }
        requires held { node ≢ 0 }
        requires some { 1 ≤ length key.now }
        requires key { length key.now ≤ KEY_BYTES }
        requires value { length value.now ≤ VALUE_BYTES }
        requires honest { P.honest space.old }
        ensures given { Ok ([], object_in self.now.records (P.contents space.new))
            ≡ kv_put self.now.records (pairs_in self.now.records (P.contents space.old)) key.now
            value.now }
        ensures store { IsStore self.now.records (P.contents space.new) }
        ensures rest { P.rest space.new ≡ P.rest space.old }
        ensures honest { P.honest space.new }
    {
        let head = head_of(key);
        let next_free = self.link(space, node);
        let first = self.link(space, head);
        self.set_link(space, FREE, next_free);
        self.fill(space, node - HEADS, first, key, value);
        self.set_link(space, head, node);
        let count = self.counted(space);
        self.set_count(space, count + 1);
    }

    /// Takes a record out of its chain, and makes its slot the first free one.
    fn remove<P: Space>(&self, space: &mut P, key: &[u8], found: Found)
        requires store { IsStore self.now.records (P.contents space.old) }
        requires some { 1 ≤ length key.now }
        requires found { IsFound self.now.records (P.contents space.old) key.now found }
        requires honest { P.honest space.old }
        ensures given { Ok ([], object_in self.now.records (P.contents space.new))
            ≡ kv_delete self.now.records (pairs_in self.now.records (P.contents space.old)) key.now }
        ensures store { IsStore self.now.records (P.contents space.new) }
        ensures rest { P.rest space.new ≡ P.rest space.old }
        ensures honest { P.honest space.new }
    {
        let first_free = self.link(space, FREE);
        self.set_link(space, found.before, found.next);
        self.clear(space, found.node - HEADS, first_free);
        self.set_link(space, FREE, found.node);
        let count = self.counted(space);
        self.set_count(space, count - 1);
    }
}
