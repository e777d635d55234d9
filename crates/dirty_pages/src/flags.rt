// The flags of one page.

ghost use Rattle.std.specs.Prelude.{⊤, [], ◌∷◌, ◌≡◌, codes, true, false, not};
ghost use Rattle.dirty_pages.specs.Flags.{IsPage, is_dirty, is_marked};

use bitflags::{Flag, Flags, bitflag_items};

/// The flags of one page: PROTECTED where a write has to be announced by a fault, DIRTY where it was written since it was protected, IN_SNAPSHOT
/// where its content is still to be copied.
#[derive(Clone, Copy, PartialEq, Eq, Debug)]
pub struct PageFlags(u8);

bitflag_items! {
    impl PageFlags: u8 {
        const PROTECTED = 1;
        const DIRTY = 2;
        const IN_SNAPSHOT = 4;
    }
}

impl Flags for PageFlags {
    type Bits = u8;

    ghost exact = { ⊤ };

    ghost table = { (codes "PROTECTED", 1) ∷ (codes "DIRTY", 2) ∷ (codes "IN_SNAPSHOT", 4) ∷ [] };

    ghost set_of = { λ p. p.0 };

    fn flags<'a>() -> &'a [Flag<PageFlags>] {
        PageFlags::FLAGS
    }

    fn bits(&self) -> u8 {
        self.0
    }

    fn from_bits_retain(bits: u8) -> PageFlags {
        PageFlags(bits)
    }
}

impl PageFlags {
    /// Makes the page dirty.
    pub(crate) fn open(&mut self)
        requires { IsPage self.old }
        ensures page { IsPage self.new }
        ensures dirty { is_dirty self.new ≡ true }
        ensures marked { is_marked self.new ≡ is_marked self.old }
    {
        self.insert(PageFlags::DIRTY);
        self.remove(PageFlags::PROTECTED);
    }

    /// Protects the page.
    pub(crate) fn protect(&mut self)
        requires { IsPage self.old }
        ensures page { IsPage self.new }
        ensures dirty { is_dirty self.new ≡ false }
        ensures marked { is_marked self.new ≡ is_marked self.old }
    {
        self.remove(PageFlags::DIRTY);
        self.insert(PageFlags::PROTECTED);
    }

    /// Makes the page part of the snapshot where it is dirty.
    fn mark(&mut self)
        requires page { IsPage self.old }
        requires marked { is_marked self.old ≡ false }
        ensures page { IsPage self.new }
        ensures dirty { is_dirty self.new ≡ is_dirty self.old }
        ensures marked { is_marked self.new ≡ is_dirty self.old }
    {
        if !self.contains(PageFlags::DIRTY) {
            return;
        }
        self.insert(PageFlags::IN_SNAPSHOT);
    }

    /// Makes the page part of the snapshot where it is dirty, and protects it.
    pub(crate) fn save(&mut self)
        requires page { IsPage self.old }
        requires marked { is_marked self.old ≡ false }
        ensures page { IsPage self.new }
        ensures dirty { is_dirty self.new ≡ false }
        ensures marked { is_marked self.new ≡ is_dirty self.old }
    {
        self.mark();
        self.protect();
    }

    /// Takes the page out of the snapshot.
    pub(crate) fn release(&mut self)
        requires { IsPage self.old }
        ensures page { IsPage self.new }
        ensures dirty { is_dirty self.new ≡ is_dirty self.old }
        ensures marked { is_marked self.new ≡ false }
    {
        self.remove(PageFlags::IN_SNAPSHOT);
    }
}
