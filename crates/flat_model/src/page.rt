//! A mapped page. A clause sees it as the `Page` of a state.

ghost use Rattle.std.specs.Prelude.{◌≡◌, ◌+◌, ◌≤◌, ◌==◌, ◌↔◌, IfOk, OnOk, OnErr, IsTrue, None, is_some, length};
ghost use Rattle.std.specs.List.{list_all};
ghost use Rattle.cl_types.specs.Bytes.{bytes_at, fresh_bytes, with_bytes, zeros};
ghost use Rattle.std.specs.Int.{from_le_bytes, w64};
ghost use Rattle.cl_types.specs.Pages.{word_at};
ghost use Rattle.flat_model.specs.Rows.{with_put};
ghost use Rattle.flat_model.specs.State.{bytes_of};

use cl_types::call::Perm;
use cl_types::items::{Bytes, NoMemory};
use cl_types::limits::PAGE_BYTES;
use std::alloc::Global;
use std::marker::Model;

/// A mapped page: what may be done with it, and its `PAGE_BYTES` bytes, or none where it is fresh.
#[derive(Drop)]
pub struct MappedPage {
    perm: Perm,
    bytes: Option<Vec<u8>>,
}

impl Model for MappedPage {
    ghost use Rattle.std.specs.Prelude.{◌≡◌, IfSome, length, option_map};
    ghost use Rattle.cl_types.specs.declared.limits.TheConstants.{PAGE_BYTES};
    ghost use Rattle.flat_model.specs.State.{Page};

    ghost Value = { Page };

    ghost view = { λ page. record { perm = page.perm; bytes = option_map (λ bytes. bytes.items) page.bytes } };

    ghost invariant = { λ page. IfSome page.bytes (λ bytes. length bytes.items ≡ PAGE_BYTES) };
}

fn are_zeros(bytes: &[u8]) -> bool
    ensures { result ≡ list_all (λ b. b == 0) bytes.now }
{
    bytes.iter().all(|b| *b == 0)
}

#[tactic(auto, using(crate::proofs::FreshLemmas::many_zeros, crate::proofs::FreshLemmas::are_all_zero, crate::proofs::FreshLemmas::length_zeros))]
fn are_so_many_zeros(bytes: &[u8], n: usize) -> bool
    ensures { IsTrue result ↔ (bytes.now ≡ zeros n) }
{
    bytes.len() == n && are_zeros(bytes)
}

impl MappedPage {
    /// A fresh page.
    pub fn fresh(perm: Perm) -> MappedPage
        ensures { result ≡ record { perm = perm; bytes = None } }
    {
        MappedPage { perm, bytes: None }
    }

    /// What may be done with it.
    pub fn perm(&self) -> Perm
        ensures { result ≡ self.now.perm }
    {
        self.perm
    }

    /// Whether it has bytes.
    pub fn has_bytes(&self) -> bool
        ensures { result ≡ is_some self.now.bytes }
    {
        self.bytes.is_some()
    }

    /// Whether these are its `n` bytes from a place on.
    #[tactic(auto, using(crate::proofs::FreshLemmas::fresh_piece))]
    pub fn shows(&self, at: usize, n: usize, shown: &[u8]) -> bool
        requires within { at + n ≤ PAGE_BYTES }
        ensures { IsTrue result ↔ (shown.now ≡ bytes_at at n (bytes_of self.now)) }
    {
        match &self.bytes {
            None => are_so_many_zeros(shown, n),
            Some(bytes) => shown == &bytes[at..at + n],
        }
    }

    /// Its `n` bytes from a place on.
    #[tactic(auto, using(crate::proofs::FreshLemmas::fresh_piece))]
    pub fn piece(&self, alloc: Global, at: usize, n: usize) -> Result<Bytes, NoMemory>
        requires within { at + n ≤ PAGE_BYTES }
        ensures { IfOk result (λ piece. piece ≡ bytes_at at n (bytes_of self.now)) }
    {
        match &self.bytes {
            None => list_of(alloc, &so_many_zeros(alloc, n)?),
            Some(bytes) => list_of(alloc, &bytes[at..at + n]),
        }
    }

    /// The word of 8 bytes from a place on.
    #[tactic(auto, using(crate::proofs::FreshLemmas::fresh_word))]
    pub fn word(&self, at: usize) -> u64
        requires { at + 8 ≤ PAGE_BYTES }
        ensures { result ≡ word_at at (bytes_of self.now) }
    {
        match &self.bytes {
            None => 0,
            Some(bytes) => word_of(&bytes[at..at + 8]),
        }
    }

    /// Puts bytes at a place. A fresh page has bytes from then on. Without memory it stays as it
    /// was.
    pub fn put(&mut self, alloc: Global, at: usize, bytes: &[u8]) -> Result<(), NoMemory>
        requires { at + length bytes.now ≤ PAGE_BYTES }
        ensures put { OnOk result (self.new ≡ with_put at bytes.now self.old) }
        ensures unchanged { OnErr result (self.new ≡ self.old) }
    {
        match &mut self.bytes {
            Some(old) => put_in(old, at, bytes),
            None => {
                let mut fresh = fresh_page(alloc)?;
                put_in(&mut fresh, at, bytes);
                self.bytes = Some(fresh);
            }
        }
        Ok(())
    }
}

fn list_of(alloc: Global, bytes: &[u8]) -> Result<Bytes, NoMemory>
    ensures { IfOk result (λ list. list ≡ bytes.now) }
{
    let mut list = Bytes::create(alloc);
    list.append(bytes)?;
    Ok(list)
}

fn word_of(bytes: &[u8]) -> u64
    requires { length bytes.now ≡ 8 }
    ensures { result ≡ from_le_bytes w64 bytes.now }
{
    u64::from_le_bytes([
        bytes[0], bytes[1], bytes[2], bytes[3], bytes[4], bytes[5], bytes[6], bytes[7],
    ])
}

fn so_many_zeros(alloc: Global, n: usize) -> Result<Vec<u8>, NoMemory>
    ensures { IfOk result (λ bytes. bytes.items ≡ zeros n) }
{
    Ok(vec![in alloc; 0; n]?)
}

#[tactic(auto, using(crate::proofs::FreshLemmas::fresh_is_zeros, crate::proofs::FreshLemmas::length_fresh))]
fn fresh_page(alloc: Global) -> Result<Vec<u8>, NoMemory>
    ensures bytes { IfOk result (λ bytes. bytes.items ≡ fresh_bytes) }
    ensures size { IfOk result (λ bytes. length bytes.items ≡ PAGE_BYTES) }
{
    so_many_zeros(alloc, PAGE_BYTES as usize)
}

fn put_in(page: &mut Vec<u8>, at: usize, bytes: &[u8])
    requires { at + length bytes.now ≤ length page.old.items }
    ensures put { page.new.items ≡ with_bytes at bytes.now page.old.items }
    ensures size { length page.new.items ≡ length page.old.items }
{
    page[at..at + bytes.len()].copy_from_slice(bytes);
}
