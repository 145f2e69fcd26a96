// Numbers: Euclid's rule, least common multiples under a limit, lowest terms.
#![tactic(auto)]

ghost use Rattle.std.specs.Prelude.{◌≡◌, ◌<◌};
ghost use Rattle.std.specs.Int.{IsGcd};
ghost use Rattle.numbers.specs.Divide.{gcd as gcd_of, lowest_terms};
ghost use Rattle.numbers.specs.Multiple.{lcm, lcm_all, within};

// A fraction, above over below.
#[derive(Clone, Copy)]
pub struct Fraction {
    pub above: u32,
    pub below: u32,
}

// The greatest common divisor; of 0 and 0 it is 0. By recursion, as document 01 names it.
pub fn gcd(a: u32, b: u32) -> u32
    ensures value { result ≡ gcd_of a b }
    ensures which { IsGcd a b result }
{
    if b == 0 { a } else { gcd(b, a % b) }
}

// A fraction in lowest terms; both parts of 0 over 0 stay 0.
pub fn lowest_terms(above: u32, below: u32) -> Fraction
    ensures { result ≡ lowest_terms above below }
{
    let divisor = gcd(above, below);
    if divisor == 0 {
        return Fraction { above: 0, below: 0 };
    }
    Fraction {
        above: above / divisor,
        below: below / divisor,
    }
}

// The least common multiple of all periods where it is at most `most`; 0 where a period is 0.
pub fn least_multiple(periods: &[u32], most: u32) -> Option<u32>
    ensures { result ≡ within most (lcm_all periods.now) }
{
    // A 0 makes the whole 0, however large the multiple of the others.
    if periods.contains(&0) {
        return Some(0);
    }
    let mut multiple = 1;
    for &period in periods.iter().rev() {
        // With no 0 the multiple never falls again, so once above is above for good.
        multiple = multiple_with(period, multiple, most)?;
    }
    limited(u64::from(multiple), most)
}

// The least common multiple of two numbers where it is at most `most`.
fn multiple_with(a: u32, b: u32, most: u32) -> Option<u32>
    requires { 0 < a }
    ensures { result ≡ within most (lcm a b) }
{
    // As a u64, since the product of two u32 may be no u32.
    let part = a / gcd(a, b);
    limited(u64::from(part) * u64::from(b), most)
}

// The number itself where it is at most `most`.
fn limited(multiple: u64, most: u32) -> Option<u32>
    ensures { result ≡ within most multiple }
{
    u32::try_from(multiple).ok().filter(|&fits| fits <= most)
}
