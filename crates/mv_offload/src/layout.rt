//! Where the counts, the heads of the objects and the records are, and each access to them.

ghost use Rattle.std.specs.Prelude.{◌≡◌, ◌+◌, ◌*◌, ◌-◌, ◌<◌, ◌≤◌, ℕ, length, take, drop};
ghost use Rattle.cl_types.specs.Bytes.{bytes_at, with_bytes};
ghost use Rattle.cl_types.specs.Spaces.{IsInOnePage};
ghost use Rattle.mv_offload.specs.Layout.{number_at, put_number, put_record, record_place, head_place, objects_of, count_of, last_of, number_of, link_of, size_of, bytes_of};
ghost use Rattle.mv_offload.specs.Stored.{HasPages};

use crate::mv::Mv;
use cl_types::limits::{PAGE_BYTES, PART_BYTES};
use cl_types::space::Space;

/// The greatest number of objects. Their heads fit the first page.
pub const MOST_OBJECTS: u32 = 256;

/// The greatest number of versions over all objects. It is small enough that each record's number has two bytes.
pub const MOST_VERSIONS: u32 = 4096;

/// The greatest number of bytes of a version.
pub const VERSION_BYTES: u32 = 256;

/// Where the number of objects is, in the first page.
pub const OBJECTS_AT: u32 = 0;

/// Where the number of versions over all objects is, in the first page.
pub const COUNT_AT: u32 = 2;

/// Where the heads of the objects begin, in the first page.
pub const HEADS_AT: u32 = 4;

/// How many bytes a head has.
pub const HEAD_BYTES: u32 = 4;

/// Where the number of versions is in a head. The last record's number is before it.
pub const NUMBER_AT: u32 = 2;

/// How many records a page has.
pub const PAGE_RECORDS: u32 = 15;

/// How many bytes a record has.
pub const RECORD_BYTES: u32 = 273;

/// Where the length of the version is in a record. The number of the record before is before it.
pub const LENGTH_AT: u32 = 2;

/// Where the bytes of the version begin in a record.
pub const BYTES_AT: u32 = 4;

// A record has room for the longest version, a page for its records, and the first page for the counts and the heads.
const _: () = prove!(BYTES_AT + VERSION_BYTES <= RECORD_BYTES);

const _: () = prove!(PAGE_RECORDS * RECORD_BYTES <= PAGE_BYTES);

const _: () = prove!(HEADS_AT + HEAD_BYTES * MOST_OBJECTS <= PAGE_BYTES);

// A number of two bytes has room for each record's number.
const _: () = prove!(MOST_VERSIONS < 65536);

/// Where a record begins; the first one has the slot 0.
fn record_place(slot: u32) -> u32
    requires { slot < MOST_VERSIONS }
    ensures { result ≡ record_place slot }
{
    PAGE_BYTES * (1 + slot / PAGE_RECORDS) + RECORD_BYTES * (slot % PAGE_RECORDS)
}

/// Where the head of an object is; the first one has the index 0.
fn head_place(index: u32) -> u32
    requires { index < MOST_OBJECTS }
    ensures { result ≡ head_place index }
{
    HEADS_AT + HEAD_BYTES * index
}

/// The number of two bytes at a place.
fn read_number<P: Space>(space: &mut P, place: u32) -> u32
    requires honest { P.honest space.old }
    requires within { IsInOnePage place 2 (length (P.contents space.old)) }
    ensures number { result ≡ number_at place (P.contents space.old) }
    ensures below { result < 65536 }
    ensures contents { P.contents space.new ≡ P.contents space.old }
    ensures rest { P.rest space.new ≡ P.rest space.old }
    ensures honest { P.honest space.new }
{
    let mut bytes = [0; 2];
    space.read_at(place, &mut bytes);
    u16::from_be_bytes(bytes) as u32
}

/// Puts a number of two bytes at a place.
fn write_number<P: Space>(space: &mut P, place: u32, number: u32)
    requires honest { P.honest space.old }
    requires within { IsInOnePage place 2 (length (P.contents space.old)) }
    requires number { number < 65536 }
    ensures contents { P.contents space.new ≡ put_number place number (P.contents space.old) }
    ensures rest { P.rest space.new ≡ P.rest space.old }
    ensures honest { P.honest space.new }
{
    space.write_at(place, &(number as u16).to_be_bytes());
}

impl Mv {
    /// How many objects there are.
    pub(crate) fn objects_held<P: Space>(&self, space: &mut P) -> u32
        requires pages { HasPages self.now.objects self.now.versions (P.contents space.old) }
        requires honest { P.honest space.old }
        ensures number { result ≡ objects_of (P.contents space.old) }
        ensures contents { P.contents space.new ≡ P.contents space.old }
        ensures rest { P.rest space.new ≡ P.rest space.old }
        ensures honest { P.honest space.new }
    {
        read_number(space, OBJECTS_AT)
    }

    /// How many versions there are over all objects.
    pub(crate) fn versions_held<P: Space>(&self, space: &mut P) -> u32
        requires pages { HasPages self.now.objects self.now.versions (P.contents space.old) }
        requires honest { P.honest space.old }
        ensures number { result ≡ count_of (P.contents space.old) }
        ensures contents { P.contents space.new ≡ P.contents space.old }
        ensures rest { P.rest space.new ≡ P.rest space.old }
        ensures honest { P.honest space.new }
    {
        read_number(space, COUNT_AT)
    }

    /// The number of the last record of an object, or 0 where it has none.
    pub(crate) fn last<P: Space>(&self, space: &mut P, index: u32) -> u32
        requires pages { HasPages self.now.objects self.now.versions (P.contents space.old) }
        requires index { index < MOST_OBJECTS }
        requires honest { P.honest space.old }
        ensures number { result ≡ last_of (P.contents space.old) index }
        ensures below { result < 65536 }
        ensures contents { P.contents space.new ≡ P.contents space.old }
        ensures rest { P.rest space.new ≡ P.rest space.old }
        ensures honest { P.honest space.new }
    {
        read_number(space, head_place(index))
    }

    /// How many versions an object has.
    pub(crate) fn number<P: Space>(&self, space: &mut P, index: u32) -> u32
        requires pages { HasPages self.now.objects self.now.versions (P.contents space.old) }
        requires index { index < MOST_OBJECTS }
        requires honest { P.honest space.old }
        ensures number { result ≡ number_of (P.contents space.old) index }
        ensures contents { P.contents space.new ≡ P.contents space.old }
        ensures rest { P.rest space.new ≡ P.rest space.old }
        ensures honest { P.honest space.new }
    {
        read_number(space, head_place(index) + NUMBER_AT)
    }

    /// The number of the record before the one in a slot, or 0 where it is its object's first.
    pub(crate) fn link<P: Space>(&self, space: &mut P, slot: u32) -> u32
        requires pages { HasPages self.now.objects self.now.versions (P.contents space.old) }
        requires slot { slot < self.now.versions }
        requires honest { P.honest space.old }
        ensures number { result ≡ link_of (P.contents space.old) slot }
        ensures contents { P.contents space.new ≡ P.contents space.old }
        ensures rest { P.rest space.new ≡ P.rest space.old }
        ensures honest { P.honest space.new }
    {
        read_number(space, record_place(slot))
    }

    /// Writes the version in a slot to the front of `out`, and answers its length.
    pub(crate) fn copy<P: Space>(
        &self,
        space: &mut P,
        slot: u32,
        out: &mut [u8; PART_BYTES as usize],
    ) -> usize
        requires pages { HasPages self.now.objects self.now.versions (P.contents space.old) }
        requires slot { slot < self.now.versions }
        requires short { size_of (P.contents space.old) slot ≤ VERSION_BYTES }
        requires honest { P.honest space.old }
        ensures bytes { take result out.new ≡ bytes_of (P.contents space.old) slot }
        ensures behind { drop result out.new ≡ drop result out.old }
        ensures size { result ≡ size_of (P.contents space.old) slot }
        ensures contents { P.contents space.new ≡ P.contents space.old }
        ensures rest { P.rest space.new ≡ P.rest space.old }
        ensures honest { P.honest space.new }
    {
        let place = record_place(slot);
        let size = read_number(space, place + LENGTH_AT) as usize;
        let (front, _) = out.split_at_mut(size);
        space.read_at(place + BYTES_AT, front);
        size
    }

    /// Sets how many objects there are.
    pub(crate) fn set_objects<P: Space>(&self, space: &mut P, number: u32)
        requires pages { HasPages self.now.objects self.now.versions (P.contents space.old) }
        requires number { number < 65536 }
        requires honest { P.honest space.old }
        ensures contents { P.contents space.new ≡ put_number OBJECTS_AT number (P.contents space.old) }
        ensures rest { P.rest space.new ≡ P.rest space.old }
        ensures honest { P.honest space.new }
    {
        write_number(space, OBJECTS_AT, number);
    }

    /// Sets how many versions there are over all objects.
    pub(crate) fn set_versions<P: Space>(&self, space: &mut P, number: u32)
        requires pages { HasPages self.now.objects self.now.versions (P.contents space.old) }
        requires number { number < 65536 }
        requires honest { P.honest space.old }
        ensures contents { P.contents space.new ≡ put_number COUNT_AT number (P.contents space.old) }
        ensures rest { P.rest space.new ≡ P.rest space.old }
        ensures honest { P.honest space.new }
    {
        write_number(space, COUNT_AT, number);
    }

    /// Sets the last record of an object and how many versions it has.
    pub(crate) fn set_head<P: Space>(&self, space: &mut P, index: u32, last: u32, number: u32)
        requires pages { HasPages self.now.objects self.now.versions (P.contents space.old) }
        requires index { index < MOST_OBJECTS }
        requires last { last < 65536 }
        requires number { number < 65536 }
        requires honest { P.honest space.old }
        ensures contents { P.contents space.new
            ≡ put_number (head_place index + NUMBER_AT) number (put_number (head_place index) last (P.contents space.old)) }
        ensures rest { P.rest space.new ≡ P.rest space.old }
        ensures honest { P.honest space.new }
    {
        let place = head_place(index);
        write_number(space, place, last);
        write_number(space, place + NUMBER_AT, number);
    }

    /// Writes a record: the number of the one before it, the length, and the bytes.
    pub(crate) fn set_record<P: Space>(&self, space: &mut P, slot: u32, before: u32, bytes: &[u8])
        requires pages { HasPages self.now.objects self.now.versions (P.contents space.old) }
        requires slot { slot < self.now.versions }
        requires before { before < 65536 }
        requires short { length bytes.now ≤ VERSION_BYTES }
        requires honest { P.honest space.old }
        ensures contents { P.contents space.new ≡ put_record slot before bytes.now (P.contents space.old) }
        ensures rest { P.rest space.new ≡ P.rest space.old }
        ensures honest { P.honest space.new }
    {
        let place = record_place(slot);
        write_number(space, place, before);
        write_number(space, place + LENGTH_AT, bytes.len() as u32);
        space.write_at(place + BYTES_AT, bytes);
    }
}
