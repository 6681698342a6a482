// Rounding to thousandths, for every number of 64 bits.
ghost use Rattle.std.specs.Prelude.{◌≡◌};
ghost use Rattle.amounts.specs.Rounding.{rounded};

// A thousandth in parts of 10^-12, and half of it.
const THOUSANDTH: u64 = 1000000000;

const HALF: u64 = 500000000;

// Half is not added to the amount itself: that can leave 64 bits.
pub fn rounded(amount: u64) -> u64
    ensures { result ≡ rounded amount }
{
    amount / THOUSANDTH + amount % THOUSANDTH / HALF
}
