//! The numbers of which facts say that something is a multiple.

ghost use Rattle.std.specs.Prelude.{◌≡◌, ◌==◌, ◌%◌, ◌^◌, true};
ghost use Rattle.x64_insn.specs.Words.{modulo};
ghost use Rattle.jz_facts.specs.Facts.{is_among, multiples};
ghost use Rattle.jz_fact_readings.specs.Multiples.{times_of};

/// 2, 4 or 8.
#[derive(Clone, Copy, PartialEq, Eq)]
pub enum Times {
    Two,
    Four,
    Eight,
}

impl Times {
    /// The number by its value.
    pub fn from_value(m: u64) -> Times
        requires { is_among m multiples ≡ true }
        ensures { times_of result ≡ m }
    {
        if m == 2 {
            return Times::Two;
        }
        if m == 4 {
            return Times::Four;
        }
        Times::Eight
    }

    /// Its value.
    pub fn value(self) -> u64
        ensures { result ≡ times_of self }
    {
        match self {
            Times::Two => 2,
            Times::Four => 4,
            Times::Eight => 8,
        }
    }

    /// Whether a whole number is a multiple.
    pub fn divides(self, n: i128) -> bool
        ensures { result ≡ (modulo n (times_of self) == 0) }
    {
        match self {
            Times::Two => n.rem_euclid(2) == 0,
            Times::Four => n.rem_euclid(4) == 0,
            Times::Eight => n.rem_euclid(8) == 0,
        }
    }

    /// Whether 2 to the power is a multiple.
    pub fn divides_power(self, power: u128) -> bool
        ensures { result ≡ (2 ^ power % times_of self == 0) }
    {
        match self {
            Times::Two => power >= 1,
            Times::Four => power >= 2,
            Times::Eight => power >= 3,
        }
    }
}
