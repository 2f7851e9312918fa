//! Numbers below 2 to the 192.

ghost use Rattle.std.specs.Prelude.{◌≡◌, ◌<◌, ◌≤◌, ◌+◌, ◌-◌, ◌*◌, ◌^◌, nat_le};
ghost use Rattle.jz_wide.specs.Values.{value, sum};

/// 2 to the 64.
const BASE: u128 = 0x1_0000_0000_0000_0000;

/// 2 to the 64, `high` times, and `low`.
#[derive(Clone, Copy)]
pub struct Wide {
    high: u128,
    low: u64,
}

impl Wide {
    /// A number of 128 bits.
    pub fn of(n: u128) -> Wide
        ensures { value result ≡ n }
    {
        Wide {
            high: n / BASE,
            low: (n % BASE) as u64,
        }
    }

    /// The product of a number of 128 bits and one of 64.
    pub fn product(n: u128, times: u64) -> Wide
        ensures { value result ≡ n * times }
    {
        let times = times as u128;
        let low = (n % BASE) * times;
        let high = (n / BASE) * times;
        Wide {
            high: high + low / BASE,
            low: (low % BASE) as u64,
        }
    }

    /// The sum of two, which is below 2 to the 192.
    pub fn plus(self, other: Wide) -> Wide
        requires { value self + value other < 2 ^ 192 }
        ensures { value result ≡ value self + value other }
    {
        let low = (self.low as u128) + (other.low as u128);
        Wide {
            high: self.high + other.high + low / BASE,
            low: (low % BASE) as u64,
        }
    }

    /// Whether it is no greater than another one.
    pub fn is_at_most(self, other: Wide) -> bool
        ensures { result ≡ nat_le (value self) (value other) }
    {
        if self.high == other.high {
            return self.low <= other.low;
        }
        self.high < other.high
    }

    /// What is left of it without another one, which is no greater.
    pub fn minus(self, other: Wide) -> Wide
        requires { value other ≤ value self }
        ensures { value result ≡ value self - value other }
    {
        if other.low <= self.low {
            return Wide {
                high: self.high - other.high,
                low: self.low - other.low,
            };
        }
        Wide {
            high: self.high - other.high - 1,
            low: 0xffff_ffff_ffff_ffff - (other.low - self.low) + 1,
        }
    }
}

/// The sum of numbers of 128 bits.
pub fn total(numbers: &[u128]) -> Wide
    ensures all { value result ≡ sum numbers.now }
    ensures few { value result ≤ 2 ^ 191 }
{
    let mut all = Wide::of(0);
    for n in numbers {
        all = all.plus(Wide::of(*n));
    }
    all
}
