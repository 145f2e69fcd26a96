// A case for each entry: a line for what is asked, and a line for the answer.
use crate::show::{
    self, Admitted, Alike, Answer, Choice, Compared, Dealt, Fraction, Marks, Numbers, Refused, Set,
    Standing,
};
use rule::Weight;

// Admission of a set.
pub fn admission(rt: &impl Print, set: Set<'_>) {
    show::text(rt, set);
    admitted(rt, set);
}

// Admission of a set whose tasks are all alike.
pub fn alike(rt: &impl Print, set: Set<'_>) {
    show::text(rt, Alike(set));
    admitted(rt, set);
}

fn admitted(rt: &impl Print, set: Set<'_>) {
    let admission = admission::admit(set.requirements, set.periods, set.m);
    show::reply(rt, Answer(admission.map(Admitted)));
}

// Comparison of two tasks at a time.
pub fn comparison(rt: &impl Print, one: Weight, other: Weight, t: u32) {
    show::text(
        rt,
        format_args!("{} against {} at time {t}", Fraction(one), Fraction(other)),
    );
    let comparison = order::compare(one, other, t);
    show::reply(rt, Answer(comparison.map(Compared)));
}

// One slot.
pub fn slot<const N: usize>(rt: &impl Print, set: Set<'_>, mut counts: [u32; N], t: u32) {
    show::text(
        rt,
        Standing {
            set,
            t,
            counts: &counts,
        },
    );
    let Set {
        requirements,
        periods,
        m,
    } = set;
    let mut bytes = [0; N];
    let slot = slot::slot(requirements, periods, &mut counts, &mut bytes, m, t);
    let dealt = Dealt {
        choice: Choice { bytes: &bytes, m },
        counts: &counts,
    };
    show::reply(rt, Answer(slot.map(|()| dealt)));
}

// A run from time t on.
pub fn run(rt: &impl Print, slots: u32, set: Set<'_>, counts: &mut [u32], log: &mut [u8], t: u32) {
    show::text(
        rt,
        format_args!("{slots} slots of {}", Standing { set, t, counts }),
    );
    let ran = run::run(slots, set.requirements, set.periods, counts, log, set.m, t);
    show::reply(
        rt,
        format_args!("done: {} slots, counts now{}", ran.done, Numbers(counts)),
    );
    match ran.end {
        Ok(()) => show::text(rt, "\n"),
        Err(refusal) => show::reply(rt, Refused(refusal)),
    }
}

// A listing of standings.
pub fn listing<const N: usize>(rt: &impl Print, set: Set<'_>, counts: &[u32; N], t: u32) {
    show::text(rt, Standing { set, t, counts });
    let mut bytes = [0; N];
    let listing = listing::list(set.requirements, set.periods, counts, &mut bytes, set.m, t);
    show::reply(rt, Answer(listing.map(|()| Marks(&bytes))));
}
