// Fractions of two whole numbers (document 02, A9): lowest terms, comparison, and sum and mean where they fit 64 bits.
#![tactic(auto)]

ghost use Rattle.std.specs.Prelude.{◌≡◌, ◌*◌, ◌<◌};
ghost use Rattle.fraction.specs.Divisor as divisor;
ghost use Rattle.fraction.specs.Fraction.{lowest_terms, is_below};
ghost use Rattle.fraction.specs.Bounded as bound;

#[repr(C)]
#[derive(Clone, Copy)]
pub struct Fraction {
    pub numerator: u64,
    pub denominator: u64,
}

// The greatest common divisor, by Euclid's algorithm.
// Kept: the loop is a `while`, since how often a remainder is taken is known only when it is 0.
fn gcd(a: u64, b: u64) -> u64
    ensures { result ≡ divisor.gcd a b }
{
    let (mut x, mut y) = (a, b);
    while y != 0 {
        (x, y) = (y, x % y);
    }
    x
}

fn least_common_multiple(a: u64, b: u64) -> Option<u64>
    ensures { result ≡ bound.bounded (divisor.lcm a b) }
{
    Fraction::lowest_terms(a, b).numerator.checked_mul(b)
}

impl Fraction {
    // 0 over 0. Pub for `c_library`, which answers it where a table is refused.
    // Kept: it is a fraction and no Option: `lowest_terms` gives it of 0 and 0, and C has 0 and 0 in the two fields (`no_fraction`).
    pub const NONE: Fraction = Fraction {
        numerator: 0,
        denominator: 0,
    };

    // 0 over 0 stays as it is.
    pub fn lowest_terms(a: u64, b: u64) -> Fraction
        ensures { result ≡ lowest_terms a b }
    {
        let common = gcd(a, b);
        if common == 0 {
            return Fraction::NONE;
        }
        Fraction {
            numerator: a / common,
            denominator: b / common,
        }
    }

    // Kept: no PartialOrd: 1/2 and 2/4 are not equal by their parts, and 0/0 is below no fraction and above none, so that its laws fail.
    #[tactic(auto, unfolding(crate::specs::Fraction::is_below))]
    pub fn is_below(self, other: Fraction) -> bool
        ensures { result ≡ is_below self other }
    {
        let left = u128::from(self.numerator) * u128::from(other.denominator);
        let right = u128::from(other.numerator) * u128::from(self.denominator);
        left < right
    }

    // A sum with one fraction more, over the least common denominator. A share is at most 1, so that its part of the numerator fits where the
    // denominator does. Pub for `unity_table`, whose shares are such.
    pub fn plus(self, share: Fraction) -> Option<Fraction>
        requires { bound.Addable self share }
        ensures { result ≡ bound.bounded_fraction (bound.plus self share) }
    {
        let denominator = least_common_multiple(self.denominator, share.denominator)?;
        let scaled = self.numerator.checked_mul(denominator / self.denominator)?;
        let added = share.numerator * (denominator / share.denominator);
        let numerator = scaled.checked_add(added)?;
        Some(Fraction {
            numerator,
            denominator,
        })
    }

    // A sum divided by a count, in lowest terms: the count is reduced too before it is multiplied, so that no more is refused than has to be.
    // Pub for `unity_table`, which divides by the number of shares.
    pub fn divided(self, count: u64) -> Option<Fraction>
        requires { (0 < self.denominator) × (0 < count) }
        ensures { result ≡ bound.bounded_fraction (lowest_terms self.numerator (self.denominator * count)) }
    {
        let reduced = Fraction::lowest_terms(self.numerator, self.denominator);
        let parts = Fraction::lowest_terms(reduced.numerator, count);
        let denominator = reduced.denominator.checked_mul(parts.denominator)?;
        Some(Fraction {
            numerator: parts.numerator,
            denominator,
        })
    }
}
