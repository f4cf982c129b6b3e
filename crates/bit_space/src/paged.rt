//! A cache of the pages of a space.

ghost use Rattle.std.specs.Prelude.{◌≡◌, ◌+◌, ◌*◌, ◌%◌, ◌≤◌, length, slice_range, IfOk, IfSome, OnOk, OnErr};
ghost use Rattle.bit_space.specs.SpaceView.{GivesRange, HasRisen, Keeps};
ghost use Rattle.bit_space.specs.Pages.{IsPage, ArePages};

use crate::memory::Memory;
use crate::space::{DeviceFault, Space};
use lru::LruCache;
use std::alloc::Global;
use std::marker::Model;
use std::num::NonZeroUsize;

/// The bytes of a page.
const PAGE: u64 = 4096;

/// How many pages are cached.
const PAGES: usize = 16;

/// A space whose pages are cached as they are read: up to 16 pages of 4,096 bytes, of which the
/// least recently used is dropped first. A page for which an allocation fails is read each time.
///
/// It has the length and the bytes of the space under it, and fails only where that one fails.
#[derive(Drop)]
pub struct Paged<S: Space> {
    alloc: Global,
    inner: S,
    pages: LruCache<u64, Vec<u8>>,
}

impl<S: Space> Model for Paged<S> {
    ghost Value = { S };

    ghost view = { λ p. p.inner };

    ghost invariant = { λ p. ArePages (S.view p.inner) p.pages.entries };
}

impl<S: Space + Drop> Paged<S> {
    /// Puts a cache over a space. Where the allocation of the cache fails, the space is dropped.
    pub fn new(alloc: Global, inner: S) -> Result<Paged<S>, Memory>
        ensures { IfOk result (λ paged. paged ≡ inner) }
    {
        let Some(cap) = NonZeroUsize::new(PAGES) else {
            return Err(Memory);
        };
        match LruCache::new(alloc, cap) {
            Ok(pages) => Ok(Paged {
                alloc,
                inner,
                pages,
            }),
            Err(_) => Err(Memory),
        }
    }
}

impl<S: Space> Paged<S> {
    // Reads bytes of one page.
    #[inline(always)]
    fn read_part(&mut self, at: u64, into: &mut [u8]) -> Result<(), DeviceFault>
        requires inside { at + length into.old ≤ (S.view self.old).len }
        requires one_page { at % 4096 + length into.old ≤ 4096 }
        ensures keeps { Keeps (S.view self.old) (S.view self.new) }
        ensures bytes { OnOk result (GivesRange (S.view self.old) at (length into.old) into.new) }
        ensures failed { OnErr result (HasRisen (S.view self.old).failures (S.view self.new).failures) }
    {
        let page = at / PAGE;
        let offset = (at % PAGE) as usize;
        if let Some((newest, bytes)) = self.pages.peek_mru() {
            if *newest == page {
                copy_part(bytes.as_slice(), offset, into);
                return Ok(());
            }
        }
        self.read_older(at, into)
    }

    // Reads bytes of one page. The page is the newest afterwards, where there is memory for it.
    #[inline(never)]
    fn read_older(&mut self, at: u64, into: &mut [u8]) -> Result<(), DeviceFault>
        requires inside { at + length into.old ≤ (S.view self.old).len }
        requires one_page { at % 4096 + length into.old ≤ 4096 }
        ensures keeps { Keeps (S.view self.old) (S.view self.new) }
        ensures bytes { OnOk result (GivesRange (S.view self.old) at (length into.old) into.new) }
        ensures failed { OnErr result (HasRisen (S.view self.old).failures (S.view self.new).failures) }
    {
        let page = at / PAGE;
        let offset = (at % PAGE) as usize;
        if let Some(bytes) = self.pages.peek(&page) {
            copy_part(bytes.as_slice(), offset, into);
            let _ = self.pages.promote(&page);
            return Ok(());
        }
        match load(self.alloc, &mut self.inner, page)? {
            Some(bytes) => {
                copy_part(bytes.as_slice(), offset, into);
                let _ = self.pages.put(page, bytes);
                Ok(())
            }
            None => self.inner.read_at(at, into),
        }
    }

    // Reads bytes of several pages, one page after another.
    #[inline(never)]
    fn read_across(&mut self, at: u64, into: &mut [u8]) -> Result<(), DeviceFault>
        requires { at + length into.old ≤ (S.view self.old).len }
        ensures keeps { Keeps (S.view self.old) (S.view self.new) }
        ensures bytes { OnOk result (GivesRange (S.view self.old) at (length into.old) into.new) }
        ensures failed { OnErr result (HasRisen (S.view self.old).failures (S.view self.new).failures) }
    {
        let page = PAGE as usize;
        let mut done = 0;
        while done < into.len() {
            let place = at + done as u64;
            let rest = page - (place % PAGE) as usize;
            let count = rest.min(into.len() - done);
            self.read_part(place, &mut into[done..done + count])?;
            done += count;
        }
        Ok(())
    }
}

// Fills `into` with the bytes of a page from `offset` on.
fn copy_part(content: &[u8], offset: usize, into: &mut [u8])
    requires { offset + length into.old ≤ length content.now }
    ensures { into.new ≡ slice_range content.now offset (offset + length into.old) }
{
    into.copy_from_slice(&content[offset..offset + into.len()]);
}

// Reads a page. `None` says that there is no memory for it.
fn load<S: Space>(alloc: Global, inner: &mut S, page: u64) -> Result<Option<Vec<u8>>, DeviceFault>
    requires { 4096 * page ≤ (S.view inner.old).len }
    ensures keeps { Keeps (S.view inner.old) (S.view inner.new) }
    ensures page { IfOk result (λ found. IfSome found (λ bytes. IsPage (S.view inner.old) page bytes.items)) }
    ensures failed { OnErr result (HasRisen (S.view inner.old).failures (S.view inner.new).failures) }
{
    let first = page * PAGE;
    let size = PAGE.min(inner.len() - first) as usize;
    let Ok(mut bytes) = vec![in alloc; 0u8; size] else {
        return Ok(None);
    };
    inner.read_at(first, bytes.as_mut_slice())?;
    Ok(Some(bytes))
}

impl<S: Space> Space for Paged<S> {
    ghost view = { λ s. S.view s };

    ghost short = { λ s. S.short s };

    ghost whole = { λ s. S.whole s };

    fn len(&self) -> u64 {
        self.inner.len()
    }

    #[inline(always)]
    fn read_at(&mut self, at: u64, into: &mut [u8]) -> Result<(), DeviceFault> {
        let offset = (at % PAGE) as usize;
        if into.len() <= PAGE as usize - offset {
            return self.read_part(at, into);
        }
        self.read_across(at, into)
    }
}
