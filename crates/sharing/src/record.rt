// What a record tells and takes when a total is shared out.
ghost use Rattle.std.specs.Prelude.{◌≡◌, ℕ, Bool};

pub trait Shares {
    // whether it takes part
    ghost part: { Self → Bool };

    // its weight
    ghost weighs: { Self → ℕ };

    // the record once it has taken a share
    ghost given: { Self → ℕ → Self };

    // the share that it holds
    ghost holds: { Self → ℕ };

    fn takes_part(&self) -> bool
        ensures { result ≡ part self.now };

    fn weight(&self) -> u32
        ensures { result ≡ weighs self.now };

    fn take_share(&mut self, share: u32)
        ensures { self.new ≡ given self.old share };

    ghost same_part: { (x : Self) (s : ℕ) → part (given x s) ≡ part x };

    ghost same_weight: { (x : Self) (s : ℕ) → weighs (given x s) ≡ weighs x };

    ghost takes: { (x : Self) (s : ℕ) → holds (given x s) ≡ s };
}
