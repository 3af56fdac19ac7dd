//! `Lists`: the lists and their calls.

ghost use Rattle.std.specs.Prelude.{◌≡◌, ℕ, ◌<◌, [], ◌∷◌, ◌++◌, length, drop, replicate, slice_get, IfOk, IfSome, IfNone};
ghost use Rattle.index_lists.specs.NodeLists.{NodeLists, list_at, IsIn, IsFree, IsHeld, IsValid, with_list, without, put_after, after};

use crate::links::Links;
use std::alloc::{AllocError, Global};
use std::marker::Model;

/// There was no memory for the lists.
#[derive(Clone, Copy, Debug, PartialEq, Eq)]
pub struct NoMemory;

impl From<AllocError> for NoMemory {
    fn from(_error: AllocError) -> Self {
        NoMemory
    }
}

/// Lists of node numbers. A node is in one list at most, and there once.
#[derive(Drop)]
pub struct Lists {
    nodes: u32,
    lists: u32,
    // Node n has the place n. List l has the place `nodes + l`, at which its ring begins and ends,
    // so that an end is a place like any other. Four nodes, 1 and 3 in list 0, and list 1 empty:
    //     4 -> 1 -> 3 -> 4     5 -> 5
    links: Links,
    // The list that each node is in.
    owner: Vec<Option<u32>>,
}

impl Model for Lists {
    ghost use Rattle.index_lists.specs.NodeLists.{NodeLists};

    ghost Value = { NodeLists };

    ghost use Rattle.index_lists.specs.Linked.{IsSound, node_lists};

    ghost view = { λ s. node_lists s.nodes s.lists s.links.next.items };

    ghost invariant = { λ s. IsSound s.nodes s.lists s.links.next.items s.links.prev.items s.owner.items };
}

impl Lists {
    /// This many lists, all empty, for the nodes below `nodes`. `NoMemory` comes where an
    /// allocation was refused.
    pub fn create(alloc: Global, nodes: u32, lists: u32) -> Result<Lists, NoMemory>
        ensures empty { IfOk result (λ s. s ≡ record { nodes = nodes; lists = replicate lists [] }) }
        ensures valid { IfOk result IsValid }
    {
        let links = Links::rings(alloc, nodes as usize + lists as usize)?;
        let mut owner = Vec::new(alloc);
        owner.resize(nodes as usize, None)?;
        Ok(Lists {
            nodes,
            lists,
            links,
            owner,
        })
    }

    /// The first node of a list. `None` comes exactly where the list is empty.
    pub fn first(&self, list: u32) -> Option<u32>
        requires { list < length self.now.lists }
        ensures first { result ≡ slice_get (list_at self.now list) 0 }
        ensures valid { IsValid self.now }
    {
        let node = self.links.next[self.nodes as usize + list as usize];
        if node < self.nodes as usize {
            Some(node as u32)
        } else {
            None
        }
    }

    /// The node right behind a node in its list. `None` comes exactly where the node is the last.
    pub fn next(&self, node: u32) -> Option<u32>
        requires { IsHeld self.now node }
        ensures next { (list : ℕ) → IsIn self.now list node → result ≡ after node (list_at self.now list) }
        ensures valid { IsValid self.now }
    {
        let behind = self.links.next[node as usize];
        if behind < self.nodes as usize {
            Some(behind as u32)
        } else {
            None
        }
    }

    /// The list that a node is in. `None` comes exactly where it is in no list.
    pub fn list_of(&self, node: u32) -> Option<u32>
        requires { node < self.now.nodes }
        ensures found { IfSome result (λ list. IsIn self.now list node) }
        ensures free { IfNone result (IsFree self.now node) }
        ensures valid { IsValid self.now }
    {
        self.owner[node as usize]
    }

    /// Puts a node that is in no list at the end of a list.
    pub fn push_back(&mut self, list: u32, node: u32)
        requires list_in { list < length self.old.lists }
        requires node_in { node < self.old.nodes }
        requires free { IsFree self.old node }
        ensures lists { self.new ≡ with_list self.old list (list_at self.old list ++ node ∷ []) }
        ensures valid { IsValid self.new }
    {
        let last = self.links.prev[self.nodes as usize + list as usize];
        self.links.put(last, node as usize);
        self.owner[node as usize] = Some(list);
    }

    /// Puts a node that is in no list at the front of a list.
    pub fn push_front(&mut self, list: u32, node: u32)
        requires list_in { list < length self.old.lists }
        requires node_in { node < self.old.nodes }
        requires free { IsFree self.old node }
        ensures lists { self.new ≡ with_list self.old list (node ∷ list_at self.old list) }
        ensures valid { IsValid self.new }
    {
        self.links
            .put(self.nodes as usize + list as usize, node as usize);
        self.owner[node as usize] = Some(list);
    }

    /// Puts a node that is in no list right behind one that is in a list, and into that list.
    pub fn insert_after(&mut self, node: u32, after: u32)
        requires node_in { node < self.old.nodes }
        requires free { IsFree self.old node }
        requires after_held { IsHeld self.old after }
        ensures nodes { self.new.nodes ≡ self.old.nodes }
        ensures count { length self.new.lists ≡ length self.old.lists }
        ensures lists { (list : ℕ) → IsIn self.old list after
            → self.new ≡ with_list self.old list (put_after after node (list_at self.old list)) }
        ensures valid { IsValid self.new }
    {
        self.links.put(after as usize, node as usize);
        self.owner[node as usize] = self.owner[after as usize];
    }

    /// Takes a node out of its list.
    pub fn remove(&mut self, node: u32)
        requires { IsHeld self.old node }
        ensures nodes { self.new.nodes ≡ self.old.nodes }
        ensures count { length self.new.lists ≡ length self.old.lists }
        ensures lists { (list : ℕ) → IsIn self.old list node
            → self.new ≡ with_list self.old list (without node (list_at self.old list)) }
        ensures valid { IsValid self.new }
    {
        self.links.cut(node as usize);
        self.owner[node as usize] = None;
    }

    /// Takes the first node of a list out of it, and gives it. `None` comes exactly where the list
    /// is empty.
    pub fn pop_front(&mut self, list: u32) -> Option<u32>
        requires { list < length self.old.lists }
        ensures first { result ≡ slice_get (list_at self.old list) 0 }
        ensures rest { self.new ≡ with_list self.old list (drop 1 (list_at self.old list)) }
        ensures valid { IsValid self.new }
    {
        let node = self.first(list)?;
        self.remove(node);
        Some(node)
    }
}
