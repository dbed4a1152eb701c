// How many trials gave what is expected, of how many.
ghost use Rattle.std.specs.Prelude.{◌≡◌, ◌+◌, ◌-◌, ◌%◌, ◌^◌, ◌==◌, cond};

use std::ops::AddAssign;

#[derive(Clone, Copy, Debug, Default, PartialEq, Eq)]
pub struct Tally {
    pub passed: u64,
    pub tried: u64,
}

impl Tally {
    // Of one trial.
    pub fn of(passes: bool) -> Self
        ensures { result ≡ record { passed = cond passes 1 0; tried = 1 } }
    {
        Tally {
            passed: u64::from(passes),
            tried: 1,
        }
    }

    pub fn all_passed(self) -> bool
        ensures { result ≡ (self.passed == self.tried) }
    {
        self.passed == self.tried
    }

    pub fn failed(self) -> u64
        ensures { result ≡ (self.tried + (2 ^ 64 - self.passed)) % 2 ^ 64 }
    {
        self.tried.wrapping_sub(self.passed)
    }
}

// Sums wrap so that no bound has to be carried: no run comes near 2^64 trials.
impl AddAssign for Tally {
    ghost add_assign_gives = { λ a b c. c ≡ record { passed = (a.passed + b.passed) % 2 ^ 64; tried = (a.tried + b.tried) % 2 ^ 64 } };

    fn add_assign(&mut self, other: Tally) {
        self.passed = self.passed.wrapping_add(other.passed);
        self.tried = self.tried.wrapping_add(other.tried);
    }
}
