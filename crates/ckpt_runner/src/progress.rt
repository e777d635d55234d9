//! What the run so far leaves for the next image.
ghost use Rattle.std.specs.Prelude.{◌≡◌, ◌+◌, ◌<◌, ℕ, true, false, [], ◌∷◌};
ghost use Rattle.ckpt_base.specs.Event.{Event};
ghost use Rattle.run_images.specs.Since.{Since, at_first, is_due, with_event};
ghost use Rattle.ckpt_runner.specs.Lives.{progress_in};

/// What the run so far leaves for the next image, but for the cells written since the newest one, which the pages tell, and the length of the output.
#[derive(Clone, Copy, Debug, PartialEq, Eq)]
pub struct Progress {
    /// The number of the newest image, 0 for none.
    pub number: u32,
    /// The ticks at its checkpoint.
    pub newest_tick: u64,
    /// The directive in force, 0 for none.
    pub directive: u16,
    /// Whether an image was taken since the directive was executed.
    pub included: bool,
    /// How many bytes of the input were taken.
    pub input_place: u64,
}

impl Progress {
    /// Before the first event.
    pub fn at_first() -> Progress
        ensures answer { result ≡ progress_in at_first }
    {
        Progress {
            number: 0,
            newest_tick: 0,
            directive: 0,
            included: false,
            input_place: 0,
        }
    }

    /// Whether a checkpoint that is passed after so many ticks takes an image, where so many steps lie between two images at least.
    pub fn is_due(&self, every: u32, ticks: u64) -> bool
        ensures answer { (s : Since) → self.now ≡ progress_in s → result ≡ is_due every s ticks }
        ensures later { result ≡ true → self.now.newest_tick < ticks }
        ensures number { result ≡ true → self.now.number < 4294967295 }
    {
        if ticks <= self.newest_tick || self.number == u32::MAX {
            return false;
        }
        self.number == 0 || every as u64 <= ticks - self.newest_tick
    }

    /// After a directive was executed.
    pub fn exclude(&mut self, directive: u16)
        ensures answer { (every : ℕ) (s : Since) → self.old ≡ progress_in s → self.new ≡ progress_in (with_event every (Event.Excluded directive) s) }
    {
        self.directive = directive;
        self.included = false;
    }

    /// After an image was taken behind so many ticks.
    pub fn take(&mut self, ticks: u64)
        requires number { self.old.number < 4294967295 }
        ensures exact { self.new ≡ record self.old { number = self.old.number + 1; newest_tick = ticks; included = true } }
    {
        self.number += 1;
        self.newest_tick = ticks;
        self.included = true;
    }
}
