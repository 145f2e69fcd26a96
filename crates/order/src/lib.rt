// The order of two tasks at a time, by their strings.
#![tactic(auto)]

ghost use Rattle.std.specs.Prelude.{◌≡◌, ◌^◌, ◌<◌, ◌≤◌, pos, ◌-ℤ◌};
ghost use Rattle.rule.specs.Limits.{multiple_most, time_most};
ghost use Rattle.rule.specs.Task.{sign, symbol, higher, compare};
ghost use Rattle.rule.specs.Outcomes.{comparison};
ghost use Rattle.order.specs.Engine.{Bounds, engine};

use rule::{Order, Refusal, Symbol, Weight};
use std::cmp::Ordering;

// The sign of a signed difference, written -, 0 or +: a form that document 01 names. A `match` on `cmp(&0)` has the same three cases.
pub fn sign_of(difference: i64) -> Symbol
    ensures { result ≡ sign difference }
{
    if difference < 0 {
        Symbol::Minus
    } else if difference == 0 {
        Symbol::Zero
    } else {
        Symbol::Plus
    }
}

// a - b - d, which may be below zero.
fn difference(a: u64, b: u64, d: u64) -> i64
    requires { (b ≤ a) × (a < 2 ^ 63) × (d < 2 ^ 63) }
    ensures { result ≡ pos a -ℤ pos b -ℤ pos d }
{
    (a as i64) - (b as i64) - (d as i64)
}

// The symbol of a task at time i. The products fit 63 bits, since the period is at most L's limit.
fn symbol_at(task: Weight, i: u32) -> Symbol
    requires { Bounds multiple_most task.e task.p }
    ensures { result ≡ symbol task.e task.p i }
{
    let e = task.e as u64;
    let p = task.p as u64;
    let i = i as u64;
    let next = i + 1;
    let floor = e * i / p;
    sign_of(difference(e * next, p * floor, p))
}

// The task with the higher symbol goes first; of one symbol neither does. No `From<Ordering>`: it is asked here alone.
fn higher(first: Symbol, second: Symbol) -> Order
    ensures { result ≡ higher first second }
{
    match first.cmp(&second) {
        Ordering::Less => Order::Second,
        Ordering::Equal => Order::Tie,
        Ordering::Greater => Order::First,
    }
}

// Follows both strings from t + 1 on, up to the first place where the two symbols differ or both are 0: a loop with `break`, as document 01
// names it.
fn follow(first: Weight, second: Weight, t: u32) -> Order
    requires first_bounds { Bounds multiple_most first.e first.p }
    requires second_bounds { Bounds multiple_most second.e second.p }
    requires t_le_time_most { t ≤ time_most }
    ensures { result ≡ compare t first.e first.p second.e second.p }
{
    let mut i = t + 1;
    'places: loop {
        let symbol = symbol_at(first, i);
        let order = higher(symbol, symbol_at(second, i));
        if order != Order::Tie || symbol == Symbol::Zero {
            break order;
        }
        i += 1;
    }
}

// The plain engine. It takes a spare too, whose period may be L. What it does not take it answers by a tie, as `engine` says, and no Option:
// it could not fail and does not.
pub fn plain(first: Weight, second: Weight, t: u32) -> Order
    ensures { result ≡ engine first.e first.p second.e second.p t }
{
    if !first.bounded(rule::MULTIPLE_MOST) {
        return Order::Tie;
    }
    if !second.bounded(rule::MULTIPLE_MOST) {
        return Order::Tie;
    }
    if rule::TIME_MOST < t {
        return Order::Tie;
    }
    follow(first, second, t)
}

// The comparison of two records at a time: refusal 4 with place 0 or 1, refusal 7, or the order of their strings.
pub fn compare(first: Weight, second: Weight, t: u32) -> Result<Order, Refusal>
    ensures { result ≡ comparison first.e first.p second.e second.p t }
{
    if !first.is_valid() {
        return Err(Refusal::Record { place: 0 });
    }
    if !second.is_valid() {
        return Err(Refusal::Record { place: 1 });
    }
    if t > rule::TIME_MOST {
        return Err(Refusal::Time);
    }
    Ok(plain(first, second, t))
}
