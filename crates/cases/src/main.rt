// The cases of document 01 that are run: each is put to a proved entry, and the answer is written in words.
#![tactic(auto)]

mod ask;
mod show;

use rule::Weight;
use show::{Choice, Set};

// The paper's set.
const PAPER: Set<'static> = Set {
    requirements: &[1, 2, 5, 8],
    periods: &[3, 4, 7, 11],
    m: 3,
};

// Two tasks that take turns on one unit.
const TURNS: Set<'static> = Set {
    requirements: &[1, 1],
    periods: &[2, 2],
    m: 1,
};

fn main(rt: HostRuntime) {
    multiples(&rt);
    tasks_and_units(&rt);
    loads(&rt);
    comparisons(&rt);
    last_slots(&rt);
    last_listings(&rt);
    longest_runs(&rt);
    paper(&rt);
}

// L on both sides of its limit. The limit itself is no L, since a period is at most 65535.
fn multiples(rt: &impl Print) {
    show::text(rt, "The limit of L\n");
    for periods in [[65535, 16], [65535, 32], [31775, 33], [17, 61681]] {
        ask::admission(
            rt,
            Set {
                requirements: &[1, 1],
                periods: &periods,
                m: 1,
            },
        );
    }
}

// The most tasks and one more, the most units and one more.
fn tasks_and_units(rt: &impl Print) {
    show::text(rt, "\nThe limits of tasks and units\n");
    let halves = Set {
        requirements: &[1; 64],
        periods: &[2; 64],
        m: 32,
    };
    ask::alike(
        rt,
        Set {
            periods: &[64; 64],
            m: 1,
            ..halves
        },
    );
    ask::alike(
        rt,
        Set {
            requirements: &[1; 65],
            periods: &[65; 65],
            m: 1,
        },
    );
    ask::alike(rt, halves);
    ask::alike(rt, Set { m: 33, ..halves });
}

// The paper's set, on enough units and on one too few.
fn loads(rt: &impl Print) {
    show::text(rt, "\nThe load\n");
    ask::admission(rt, PAPER);
    ask::admission(rt, Set { m: 2, ..PAPER });
}

// Each of the three answers, then the last time and one later.
fn comparisons(rt: &impl Print) {
    show::text(rt, "\nThe order of two tasks\n");
    let half = Weight { e: 1, p: 2 };
    let third = Weight { e: 1, p: 3 };
    ask::comparison(rt, Weight { e: 2, p: 3 }, third, 0);
    ask::comparison(rt, half, third, 1);
    ask::comparison(rt, third, Weight { e: 1, p: 6 }, 3);
    ask::comparison(rt, half, third, 16777215);
    ask::comparison(rt, half, third, 16777216);
}

// One slot at the last time and one later, and a run that comes past it.
fn last_slots(rt: &impl Print) {
    show::text(rt, "\nThe last time\n");
    ask::slot(rt, TURNS, [8388608, 8388607], 16777215);
    ask::slot(rt, TURNS, [8388608; 2], 16777216);
    ask::run(rt, 4, TURNS, &mut [8388607; 2], &mut [0; 8], 16777214);
}

// A listing at the last time and one later.
fn last_listings(rt: &impl Print) {
    show::text(rt, "\nThe last listing\n");
    ask::listing(rt, TURNS, &[8388608, 8388607], 16777215);
    ask::listing(rt, TURNS, &[8388608; 2], 16777216);
}

// The most slots of a run, and one more.
fn longest_runs(rt: &impl Print) {
    show::text(rt, "\nThe longest run\n");
    ask::run(rt, 1024, PAPER, &mut [0; 4], &mut [0; 4096], 0);
    ask::run(rt, 1025, PAPER, &mut [0; 4], &mut [0; 4100], 0);
}

// The paper's set slot by slot, and how its tasks then stand.
fn paper(rt: &impl Print) {
    show::text(rt, "\nThe paper's set\n");
    let mut counts = [0; 4];
    let mut log = [0; 80];
    ask::run(rt, 20, PAPER, &mut counts, &mut log, 0);
    for (time, bytes) in log.chunks_exact(4).enumerate() {
        let choice = Choice { bytes, m: PAPER.m };
        show::text(rt, format_args!("    slot {time}: {choice}\n"));
    }
    ask::listing(rt, PAPER, &counts, 20);
}
