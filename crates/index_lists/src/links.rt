//! Rings of places, each with the place behind it and the place before it.

ghost use Rattle.std.specs.Prelude.{◌≡◌, ◌<◌, length, slice_index, IfOk};
ghost use Rattle.std.specs.List.{range_with_len};
ghost use Rattle.index_lists.specs.Linked.{next_put, prev_put, next_cut, prev_cut};

use std::alloc::{AllocError, Global};

// Each place is in one ring:  next   4 -> 1 -> 3 -> 4     prev   4 -> 3 -> 1 -> 4
#[derive(Drop)]
pub struct Links {
    pub next: Vec<usize>,
    pub prev: Vec<usize>,
}

impl Links {
    /// Each place in a ring of its own.
    pub fn rings(alloc: Global, places: usize) -> Result<Links, AllocError>
        ensures next { IfOk result (λ links. links.next.items ≡ range_with_len 0 places) }
        ensures prev { IfOk result (λ links. links.prev.items ≡ range_with_len 0 places) }
    {
        let mut next = Vec::new(alloc);
        let mut prev = Vec::new(alloc);
        for place in 0..places {
            next.push(place)?;
            prev.push(place)?;
        }
        Ok(Links { next, prev })
    }

    /// Puts a node right behind a place.
    pub fn put(&mut self, place: usize, node: usize)
        requires same_len { length self.old.next.items ≡ length self.old.prev.items }
        requires place_in { place < length self.old.next.items }
        requires node_in { node < length self.old.next.items }
        requires behind_in { slice_index self.old.next.items place < length self.old.prev.items }
        ensures next { self.new.next.items ≡ next_put self.old.next.items place node }
        ensures prev { self.new.prev.items ≡ prev_put self.old.next.items self.old.prev.items place node }
    {
        let behind = self.next[place];
        self.next[node] = behind;
        self.prev[node] = place;
        self.next[place] = node;
        self.prev[behind] = node;
    }

    /// Takes a node out from between the places around it.
    pub fn cut(&mut self, node: usize)
        requires same_len { length self.old.next.items ≡ length self.old.prev.items }
        requires node_in { node < length self.old.next.items }
        requires before_in { slice_index self.old.prev.items node < length self.old.next.items }
        requires behind_in { slice_index self.old.next.items node < length self.old.prev.items }
        ensures next { self.new.next.items ≡ next_cut self.old.next.items self.old.prev.items node }
        ensures prev { self.new.prev.items ≡ prev_cut self.old.next.items self.old.prev.items node }
    {
        let before = self.prev[node];
        let behind = self.next[node];
        self.next[before] = behind;
        self.prev[behind] = before;
    }
}
