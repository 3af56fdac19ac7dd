//! Multi-version objects and their calls.

ghost use Rattle.std.specs.Prelude.{◌≡◌, ◌+◌, ◌*◌, ◌-◌, ◌<◌, ◌≤◌, ℕ, [], ◌∷◌, ◌++◌, None, Some, length, take, drop, slice_get, slice_set, IfNone, IfSome, IfErr, IfOk};
ghost use Rattle.mv_offload.specs.declared.layout.TheConstants.{MOST_VERSIONS, VERSION_BYTES};
ghost use Rattle.mv_offload.specs.Versions.{mv_create, mv_append, mv_read, item_numbered, version_of, latest_of};
ghost use Rattle.mv_offload.specs.Layout.{objects_of, count_of, number_of, bytes_of, size_of};
ghost use Rattle.mv_offload.specs.Stored.{HasPages, IsStore, IsObject, held_in, object_in, versions_at, given_by, numbered, answered, answered_latest};

use cl_types::limits::PART_BYTES;
use cl_types::reply::Refusal;
use cl_types::space::Space;

/// Objects that keep all their versions.
#[derive(Clone, Copy, Debug)]
pub struct Mv {
    /// How many objects there may be: 1 to 256.
    pub objects: u32,
    /// How many versions there may be over all objects: 1 to 4,096.
    pub versions: u32,
}

impl Mv {
    /// Makes the space hold no object.
    pub fn init<P: Space>(&self, space: &mut P)
        requires pages { HasPages self.now.objects self.now.versions (P.contents space.old) }
        requires honest { P.honest space.old }
        ensures store { IsStore self.now.objects self.now.versions (P.contents space.new) }
        ensures empty { held_in (P.contents space.new) ≡ [] }
        ensures rest { P.rest space.new ≡ P.rest space.old }
        ensures honest { P.honest space.new }
    {
        self.set_objects(space, 0);
        self.set_versions(space, 0);
    }

    /// Adds an object without a version, and answers its number. It is refused as `ObjectFull` if and only if there are
    /// `objects` objects.
    pub fn create<P: Space>(&self, space: &mut P) -> Result<u32, Refusal>
        requires store { IsStore self.now.objects self.now.versions (P.contents space.old) }
        requires honest { P.honest space.old }
        ensures given { given_by result (numbered result) (object_in self.now.objects self.now.versions (P.contents space.new))
            ≡ mv_create self.now.objects self.now.versions (held_in (P.contents space.old)) }
        ensures refused { IfErr result (λ _. P.contents space.new ≡ P.contents space.old) }
        ensures store { IsStore self.now.objects self.now.versions (P.contents space.new) }
        ensures rest { P.rest space.new ≡ P.rest space.old }
        ensures honest { P.honest space.new }
    {
        let index = self.objects_held(space);
        if index >= self.objects {
            return Err(Refusal::ObjectFull);
        }
        self.set_head(space, index, 0, 0);
        self.set_objects(space, index + 1);
        Ok(index + 1)
    }

    /// Adds these bytes as the latest version of an object, and answers the version's number. It is refused as `NoKey`
    /// if and only if there is no such object, and else as `ObjectFull` if and only if there are `versions` versions
    /// over all objects.
    pub fn append<P: Space>(&self, space: &mut P, object: u32, bytes: &[u8]) -> Result<u32, Refusal>
        requires store { IsStore self.now.objects self.now.versions (P.contents space.old) }
        requires bytes { length bytes.now ≤ VERSION_BYTES }
        requires honest { P.honest space.old }
        ensures given { let held = held_in (P.contents space.old) in
            given_by result (numbered result) (object_in self.now.objects self.now.versions (P.contents space.new))
            ≡ mv_append self.now.objects self.now.versions held object bytes.now (item_numbered object held) }
        ensures refused { IfErr result (λ _. P.contents space.new ≡ P.contents space.old) }
        ensures store { IsStore self.now.objects self.now.versions (P.contents space.new) }
        ensures rest { P.rest space.new ≡ P.rest space.old }
        ensures honest { P.honest space.new }
    {
        let Some(number) = self.find(space, object) else {
            return Err(Refusal::NoKey);
        };
        let slot = self.versions_held(space);
        if slot >= self.versions {
            return Err(Refusal::ObjectFull);
        }
        self.add(space, object - 1, slot, number, bytes);
        Ok(number + 1)
    }

    /// Writes a version to the front of `out`, and answers its length. It is refused as `NoKey` if and only if there is
    /// no such object or no such version.
    pub fn read<P: Space>(
        &self,
        space: &mut P,
        object: u32,
        version: u32,
        out: &mut [u8; PART_BYTES as usize],
    ) -> Result<usize, Refusal>
        requires store { IsStore self.now.objects self.now.versions (P.contents space.old) }
        requires honest { P.honest space.old }
        ensures given { let held = held_in (P.contents space.old) in
            given_by result (answered result out.new) (object_in self.now.objects self.now.versions (P.contents space.new))
            ≡ mv_read self.now.objects self.now.versions held (version_of version (item_numbered object held)) }
        ensures size { IfOk result (λ size. size ≤ VERSION_BYTES) }
        ensures behind { IfOk result (λ size. drop size out.new ≡ drop size out.old) }
        ensures refused { IfErr result (λ _. out.new ≡ out.old) }
        ensures contents { P.contents space.new ≡ P.contents space.old }
        ensures rest { P.rest space.new ≡ P.rest space.old }
        ensures honest { P.honest space.new }
    {
        let Some(number) = self.find(space, object) else {
            return Err(Refusal::NoKey);
        };
        if version == 0 || version > number {
            return Err(Refusal::NoKey);
        }
        let slot = self.slot(space, object - 1, version, number - version);
        Ok(self.copy(space, slot, out))
    }

    /// Writes the latest version of an object to the front of `out`, and answers its number and its length. It is
    /// refused as `NoKey` if and only if there is no such object or it has no version.
    pub fn latest<P: Space>(
        &self,
        space: &mut P,
        object: u32,
        out: &mut [u8; PART_BYTES as usize],
    ) -> Result<(u32, usize), Refusal>
        requires store { IsStore self.now.objects self.now.versions (P.contents space.old) }
        requires honest { P.honest space.old }
        ensures given { let held = held_in (P.contents space.old) in
            given_by result (answered_latest result out.new) (object_in self.now.objects self.now.versions (P.contents space.new))
            ≡ mv_read self.now.objects self.now.versions held (latest_of (item_numbered object held)) }
        ensures size { IfOk result (λ given. given.1 ≤ VERSION_BYTES) }
        ensures behind { IfOk result (λ given. drop given.1 out.new ≡ drop given.1 out.old) }
        ensures refused { IfErr result (λ _. out.new ≡ out.old) }
        ensures contents { P.contents space.new ≡ P.contents space.old }
        ensures rest { P.rest space.new ≡ P.rest space.old }
        ensures honest { P.honest space.new }
    {
        let Some(number) = self.find(space, object) else {
            return Err(Refusal::NoKey);
        };
        if number == 0 {
            return Err(Refusal::NoKey);
        }
        let slot = self.slot(space, object - 1, number, 0);
        let size = self.copy(space, slot, out);
        Ok((number, size))
    }

    /// How many versions an object has, or `None` where there is no such object.
    fn find<P: Space>(&self, space: &mut P, object: u32) -> Option<u32>
        requires store { IsStore self.now.objects self.now.versions (P.contents space.old) }
        requires honest { P.honest space.old }
        ensures absent { IfNone result (item_numbered object (held_in (P.contents space.old)) ≡ None) }
        ensures found { IfSome result (λ number. IsObject (P.contents space.old) object number) }
        ensures contents { P.contents space.new ≡ P.contents space.old }
        ensures rest { P.rest space.new ≡ P.rest space.old }
        ensures honest { P.honest space.new }
    {
        if object == 0 || object > self.objects_held(space) {
            return None;
        }
        Some(self.number(space, object - 1))
    }

    /// The slot of a version of an object, which so many versions follow.
    fn slot<P: Space>(&self, space: &mut P, index: u32, version: u32, mut behind: u32) -> u32
        requires store { IsStore self.now.objects self.now.versions (P.contents space.old) }
        requires index { index < objects_of (P.contents space.old) }
        requires version { 1 ≤ version }
        requires behind { version + behind ≡ number_of (P.contents space.old) index }
        requires honest { P.honest space.old }
        ensures slot { result < count_of (P.contents space.old) }
        ensures version { slice_get (versions_at (P.contents space.old) index) (version - 1)
            ≡ Some (bytes_of (P.contents space.old) result) }
        ensures contents { P.contents space.new ≡ P.contents space.old }
        ensures rest { P.rest space.new ≡ P.rest space.old }
        ensures honest { P.honest space.new }
    {
        let mut node = self.last(space, index);
        while behind > 0 {
            node = self.link(space, node - 1);
            behind -= 1;
        }
        node - 1
    }

    /// Writes the next record, as the latest version of an object. The head comes after the record that it leads to.
    fn add<P: Space>(&self, space: &mut P, index: u32, slot: u32, number: u32, bytes: &[u8])
        requires store { IsStore self.now.objects self.now.versions (P.contents space.old) }
        requires index { index < objects_of (P.contents space.old) }
        requires slot { slot ≡ count_of (P.contents space.old) }
        requires room { slot < self.now.versions }
        requires number { number ≡ number_of (P.contents space.old) index }
        requires bytes { length bytes.now ≤ VERSION_BYTES }
        requires honest { P.honest space.old }
        ensures held { held_in (P.contents space.new)
            ≡ slice_set (held_in (P.contents space.old)) index (versions_at (P.contents space.old) index ++ bytes.now ∷ []) }
        ensures store { IsStore self.now.objects self.now.versions (P.contents space.new) }
        ensures rest { P.rest space.new ≡ P.rest space.old }
        ensures honest { P.honest space.new }
    {
        let before = self.last(space, index);
        self.set_record(space, slot, before, bytes);
        self.set_head(space, index, slot + 1, number + 1);
        self.set_versions(space, slot + 1);
    }
}
