// The field of an accepted set, laid out once for all its slots.
#![tactic(auto)]

ghost use Rattle.std.specs.Prelude.{◌≡◌};
ghost use Rattle.field.specs.LayOut.{filled_with, lay_out, requirements_in, periods_in};

use rule::Weight;

// The requirements and the periods of the tasks, the spare's after the last, and how many places that makes.
// Two arrays, since there is no heap, and the slots take the two lists of document 01.
#[derive(Drop)]
pub struct Laid {
    pub requirements: [u32; 65],
    pub periods: [u32; 65],
    pub size: usize,
}

// The parts that are laid out. Where `size` is more than 65, as of a set that no admission accepts, it is all 65.
impl Laid {
    pub fn requirements(&self) -> &[u32]
        ensures { result.now ≡ requirements_in self.now }
    {
        &self.requirements[..self.size.min(65)]
    }

    pub fn periods(&self) -> &[u32]
        ensures { result.now ≡ periods_in self.now }
    {
        &self.periods[..self.size.min(65)]
    }
}

#[tactic(auto, unfolding(crate::specs::LayOut::lay_out, rule::specs::Layout::requirement_of, rule::specs::Layout::period_of, rule::specs::Layout::places_of))]
pub fn lay_out(requirements: &[u32], periods: &[u32], spare: Option<Weight>) -> Laid
    ensures { result ≡ lay_out requirements.now periods.now spare }
{
    let n = requirements.len();
    // One expression for both cases: of a `Laid` in each the two arrays were copied once more, on every slot and listing.
    let (e, p, size) = match spare {
        None => (0, 0, n),
        Some(Weight { e, p }) => (e, p, n + 1),
    };
    Laid {
        requirements: filled(requirements, e),
        periods: filled(periods, p),
        size,
    }
}

// The first 65 numbers of a list, and `rest` where it has ended. A call of its own, so that it stores where its caller wants the array: inline
// it was cleared and copied as often again.
#[inline(never)]
fn filled(list: &[u32], rest: u32) -> [u32; 65]
    ensures { result ≡ filled_with list.now rest }
{
    let mut all = [rest; 65];
    let n = list.len().min(65);
    all[..n].copy_from_slice(&list[..n]);
    all
}
