// Laws of the pace: functions that do nothing, whose contracts are theorems.

ghost use Rattle.std.specs.Prelude.{◌≤◌, ◌<◌, ℕ, List};
ghost use Rattle.ckpt_runner.specs.Pace.{InPace, pace_sum};

/// Where the pace is kept and no call is due, the calls done are exactly those up to which the sum of the pace has come.
pub fn calls_come_by_sums()
    ensures done { (pace : List ℕ) (used total done since wait k : ℕ) → InPace pace used total done since wait → k ≤ done → pace_sum pace used k ≤ since }
    ensures to_come { (pace : List ℕ) (used total done since wait k : ℕ) → InPace pace used total done since wait → 0 < wait → done < k → k ≤ total
        → since < pace_sum pace used k }
{}
