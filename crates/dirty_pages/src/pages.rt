// The flags of all pages.

ghost use Rattle.std.specs.Prelude.{◌≡◌, ◌<◌, ℕ, List, length, true, false, ◌==◌, IfOk};
ghost use Rattle.std.specs.List.{list_any};
ghost use Rattle.dirty_pages.specs.Pages.{PageStates, is_dirty, is_protected, in_snapshot, fresh, served, protected, snapshot_of, copied, served_all};

use crate::flags::PageFlags;
use bitflags::Flags;
use ckpt_base::NoMemory;
use std::alloc::Global;
use std::marker::Model;

/// The flags of every page of a memory. Contracts see which pages are dirty and which are in the snapshot; a page that is not dirty is protected.
#[derive(Drop)]
pub struct Pages {
    flags: Vec<PageFlags>,
}

impl Model for Pages {
    ghost use Rattle.std.specs.Prelude.{All, map};
    ghost use Rattle.dirty_pages.specs.Pages.{PageStates};

    ghost Value = { PageStates };

    ghost use Rattle.dirty_pages.specs.Flags.{IsPage, is_dirty, is_marked};

    ghost view = { λ p. record { dirty = map is_dirty p.flags.items; in_snapshot = map is_marked p.flags.items } };

    ghost invariant = { λ p. All IsPage p.flags.items };
}

impl Pages {
    /// Pages that are all dirty, and in no snapshot.
    pub fn new(alloc: Global, pages: u32) -> Result<Pages, NoMemory>
        ensures answer { IfOk result (λ p. p ≡ fresh pages) }
    {
        Ok(Pages {
            flags: vec![in alloc; PageFlags::DIRTY; pages as usize]?,
        })
    }

    /// Whether page `p` is protected against writes.
    #[inline(always)]
    pub fn is_protected(&self, p: u32) -> bool
        requires page { p < length self.now.dirty }
        ensures answer { result ≡ is_protected self.now p }
    {
        self.flags[p as usize].contains(PageFlags::PROTECTED)
    }

    /// Whether page `p` was served since it was last protected.
    pub fn is_dirty(&self, p: u32) -> bool
        requires page { p < length self.now.dirty }
        ensures answer { result ≡ is_dirty self.now p }
    {
        self.flags[p as usize].contains(PageFlags::DIRTY)
    }

    /// Whether page `p` is in the snapshot.
    pub fn in_snapshot(&self, p: u32) -> bool
        requires page { p < length self.now.dirty }
        ensures answer { result ≡ in_snapshot self.now p }
    {
        self.flags[p as usize].contains(PageFlags::IN_SNAPSHOT)
    }

    /// Makes the protected page `p` dirty.
    pub fn serve_fault(&mut self, p: u32)
        requires page { p < length self.old.dirty }
        requires protected { is_protected self.old p ≡ true }
        requires apart { in_snapshot self.old p ≡ false }
        ensures exact { self.new ≡ served self.old p }
    {
        self.flags[p as usize].open();
    }

    /// Protects every page, so that none is dirty.
    pub fn protect_all(&mut self)
        ensures exact { self.new ≡ protected self.old }
    {
        for flags in self.flags.iter_mut() {
            flags.protect();
        }
    }

    /// Makes the dirty pages the snapshot, and protects every page.
    pub fn snapshot(&mut self)
        requires none { (p : ℕ) → in_snapshot self.old p ≡ false }
        ensures exact { self.new ≡ snapshot_of self.old }
    {
        for flags in self.flags.iter_mut() {
            flags.save();
        }
    }

    /// Takes page `p` out of the snapshot.
    pub fn copied(&mut self, p: u32)
        requires page { p < length self.old.dirty }
        requires marked { in_snapshot self.old p ≡ true }
        ensures exact { self.new ≡ copied self.old p }
    {
        self.flags[p as usize].release();
    }
}

/// A law: after `protect_all` the dirty pages are exactly those that were served since.
pub fn dirty_pages_are_served_pages()
    ensures law { (pages : PageStates) (ps : List ℕ) (p : ℕ) → p < length pages.dirty → is_dirty (served_all (protected pages) ps) p ≡ list_any (λ q. q == p) ps }
{}
