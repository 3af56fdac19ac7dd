//! `RangeLists`: the ranges of each space, in the order in which they came.

ghost use Rattle.std.specs.Prelude.{◌≡◌, ◌≢◌, ℕ, ◌+◌, ◌<◌, false, true, [], ◌∷◌, ◌++◌, length, slice_get, option_map, IfOk, IfNone, IfSome};
ghost use Rattle.index_lists.specs.NodeLists.{list_at, IsValid};
ghost use Rattle.range_alloc.specs.Nodes.{AreFree, IsNodeOf, node_count, ranges_of};
ghost use Rattle.range_alloc.specs.RangeSets.{drop_start, has_start, ranges_in};
ghost use Rattle.range_alloc.specs.declared.lists.TheConstants.{SPACES};

use cl_types::items::NoMemory;
use cl_types::numbers::{Space16, Vpn};
use index_lists::Lists;
use std::alloc::Global;
use std::marker::Model;

/// How many spaces there are: one for each number of a `Space16`.
pub const SPACES: u32 = 65536;

/// The ranges of each space, by their starts and their numbers of pages, in the order in which they were added.
#[derive(Drop)]
pub struct RangeLists {
    // A list of nodes for each space, and then that of the nodes that no range has.
    lists: Lists,
    // Start and number of pages of the range that has the node.
    ranges: Vec<(u16, u16)>,
}

impl Model for RangeLists {
    ghost use Rattle.range_alloc.specs.RangeSets.{RangeSets};

    ghost Value = { RangeSets };

    ghost use Rattle.range_alloc.specs.Nodes.{IsSound, range_sets};

    ghost view = { λ s. range_sets s.lists s.ranges.items };

    ghost invariant = { λ s. IsSound s.lists s.ranges.items };
}

impl RangeLists {
    /// No range, and room for so many. `NoMemory` comes where an allocation was refused.
    pub fn create(alloc: Global, nodes: u32) -> Result<RangeLists, NoMemory>
        ensures nodes { IfOk result (λ s. s.nodes ≡ nodes) }
        ensures count { IfOk result (λ s. s.count ≡ 0) }
        ensures empty { IfOk result (λ s. (space : ℕ) → space < SPACES → ranges_in s space ≡ []) }
    {
        let lists = free_lists(alloc, nodes, SPACES)?;
        let mut ranges = Vec::new(alloc);
        ranges.resize(nodes as usize, (0, 0))?;
        Ok(RangeLists { lists, ranges })
    }

    /// Puts a range last in the list of its space.
    pub fn add(&mut self, space: Space16, start: Vpn, pages: u16)
        requires room { self.old.count < self.old.nodes }
        requires absent { has_start start.0 (ranges_in self.old space.0) ≡ false }
        ensures last { ranges_in self.new space.0 ≡ ranges_in self.old space.0 ++ (start.0, pages) ∷ [] }
        ensures others { (other : ℕ) → other < SPACES → other ≢ space.0 → ranges_in self.new other ≡ ranges_in self.old other }
        ensures count { self.new.count ≡ self.old.count + 1 }
        ensures nodes { self.new.nodes ≡ self.old.nodes }
    {
        if let Some(node) = self.lists.pop_front(SPACES) {
            self.ranges[node as usize] = (start.0, pages);
            self.lists.push_back(space.0 as u32, node);
        }
    }

    /// Takes the range out that begins here.
    pub fn drop_range(&mut self, space: Space16, start: Vpn)
        requires stands { has_start start.0 (ranges_in self.old space.0) ≡ true }
        ensures gone { ranges_in self.new space.0 ≡ drop_start start.0 (ranges_in self.old space.0) }
        ensures others { (other : ℕ) → other < SPACES → other ≢ space.0 → ranges_in self.new other ≡ ranges_in self.old other }
        ensures count { self.new.count + 1 ≡ self.old.count }
        ensures nodes { self.new.nodes ≡ self.old.nodes }
    {
        let list = space.0 as u32;
        if let Some(node) = node_of(&self.lists, &self.ranges, list, start.0) {
            self.lists.remove(node);
            self.lists.push_back(SPACES, node);
        }
    }

    /// The start of the first range of a space. `None` comes if and only if the space has no range.
    pub fn first(&self, space: Space16) -> Option<Vpn>
        ensures { option_map (λ vpn. vpn.0) result
            ≡ option_map (λ range. range.0) (slice_get (ranges_in self.now space.0) 0) }
    {
        match self.lists.first(space.0 as u32) {
            Some(node) => Some(Vpn(self.ranges[node as usize].0)),
            None => None,
        }
    }
}

// So many empty lists, and then one of all nodes.
fn free_lists(alloc: Global, nodes: u32, empty: u32) -> Result<Lists, NoMemory>
    requires { empty < 65537 }
    ensures { IfOk result (AreFree nodes empty) }
{
    let Ok(mut lists) = Lists::create(alloc, nodes, empty + 1) else {
        return Err(NoMemory);
    };
    free_all(&mut lists, nodes, empty);
    Ok(lists)
}

// Puts all nodes into the last list.
fn free_all(lists: &mut Lists, nodes: u32, last: u32)
    requires nodes { lists.old.nodes ≡ nodes }
    requires count { length lists.old.lists ≡ last + 1 }
    requires empty { (list : ℕ) → list_at lists.old list ≡ [] }
    requires none { node_count lists.old ≡ 0 }
    requires valid { IsValid lists.old }
    ensures { AreFree nodes last lists.new }
{
    for node in 0..nodes {
        lists.push_back(last, node);
    }
}

// The node in this list of the range that begins here.
fn node_of(lists: &Lists, ranges: &[(u16, u16)], list: u32, start: u16) -> Option<u32>
    requires list { list < length lists.now.lists }
    requires ranges { length ranges.now ≡ lists.now.nodes }
    requires valid { IsValid lists.now }
    ensures absent { IfNone result (has_start start (ranges_of ranges.now (list_at lists.now list)) ≡ false) }
    ensures found { IfSome result (λ node. IsNodeOf lists.now ranges.now list start node) }
{
    let mut at = lists.first(list);
    while let Some(node) = at {
        if ranges[node as usize].0 == start {
            return Some(node);
        }
        at = lists.next(node);
    }
    None
}
