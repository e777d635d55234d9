ghost use Rattle.std.specs.Prelude.{◌≡◌};
ghost use Rattle.ckpt_base.specs.Faults.{counted, is_listed};

/// One more, but for a count that stands at the greatest u64.
pub fn count_on(n: u64) -> u64
    ensures answer { result ≡ counted n }
{
    n.saturating_add(1)
}

/// Whether the call of this number is one of those that fail.
pub fn fails_at(failing: &[u64], call: u64) -> bool
    ensures answer { result ≡ is_listed failing.now call }
{
    failing.iter().any(|n| *n == call)
}
