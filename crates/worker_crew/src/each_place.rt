//! A call at each place of a slice, each in a thread of its own where one can be made.
ghost use Rattle.std.specs.Prelude.{◌+◌, ◌^◌, ◌<◌, length};
ghost use Rattle.std.specs.Fork.{AcceptsAt, ChangesAt, AcceptsEach, ChangesEach};
ghost use denote.Param.Send.{IsSync, IsSend};
ghost use Rattle.worker_crew.specs.Places.{HoldsFrom, ChangesFrom};

use crate::joining::beside;
use std::sync::Wait;
use std::thread::Threads;

fn at_one<T, F: Fn(usize, &mut T)>(f: &F, place: usize, item: &mut T)
    requires { AcceptsAt F.Fn f.now place item.old }
    ensures { ChangesAt F.Fn f.now place item.old item.new }
{
    f(place, item);
}

/// The calls one after another, at the places from `base` on.
fn in_turn<T, F: Fn(usize, &mut T)>(items: &mut [T], base: usize, f: &F)
    requires room { base + length items.old < 2 ^ 64 }
    requires accepts { HoldsFrom (AcceptsAt F.Fn f.now) base items.old }
    ensures { ChangesFrom (ChangesAt F.Fn f.now) base items.old items.new }
{
    for k in 0..items.len() {
        at_one(f, base + k, &mut items[k]);
    }
}

/// The calls at the places from `base` on, one half of them beside the other. The slice is the last parameter, since a closure has
/// to read the other references before it lends the slice.
#[cycle(halves)]
fn each_from<R: Threads + Wait + Sync, T: Send, F: Fn(usize, &mut T) + Sync>(
    rt: &R,
    f: &F,
    base: usize,
    items: &mut [T],
)
    requires room { base + length items.old < 2 ^ 64 }
    requires accepts { HoldsFrom (AcceptsAt F.Fn f.now) base items.old }
    ensures { ChangesFrom (ChangesAt F.Fn f.now) base items.old items.new }
{
    if items.len() < 2 {
        in_turn(items, base, f);
        return;
    }
    let middle = items.len() / 2;
    let (low, high) = items.split_at_mut(middle);
    both_halves(rt, f, base, low, base + middle, high);
}

// A function apart from `each_from`, so that what the closures require is what this function is given.
#[cycle(halves)]
fn both_halves<R: Threads + Wait + Sync, T: Send, F: Fn(usize, &mut T) + Sync>(
    rt: &R,
    f: &F,
    base: usize,
    low: &mut [T],
    middle: usize,
    high: &mut [T],
)
    requires some_low { 0 < length low.old }
    requires some_high { 0 < length high.old }
    requires room_low { base + length low.old < 2 ^ 64 }
    requires room_high { middle + length high.old < 2 ^ 64 }
    requires low { HoldsFrom (AcceptsAt F.Fn f.now) base low.old }
    requires high { HoldsFrom (AcceptsAt F.Fn f.now) middle high.old }
    ensures low { ChangesFrom (ChangesAt F.Fn f.now) base low.old low.new }
    ensures high { ChangesFrom (ChangesAt F.Fn f.now) middle high.old high.new }
{
    let mut first = ||
        requires { IsSync R.row × IsSync F.row × IsSend T.row × (base + length low.now < 2 ^ 64) × HoldsFrom (AcceptsAt F.Fn f.now) base low.now }
        ensures { ChangesFrom (ChangesAt F.Fn f.entry.now) base low.entry.now low.exit.now }
    { each_from(rt, f, base, low) };
    let mut second = ||
        requires { IsSync R.row × IsSync F.row × IsSend T.row × (middle + length high.now < 2 ^ 64) × HoldsFrom (AcceptsAt F.Fn f.now) middle high.now }
        ensures { ChangesFrom (ChangesAt F.Fn f.entry.now) middle high.entry.now high.exit.now }
    { each_from(rt, f, middle, high) };
    beside(rt, &mut first, &mut second);
}

/// Calls the closure with each place and its element, each in a thread of its own where one can be made, and otherwise one after
/// another.
pub(crate) fn for_each_beside<R: Threads + Wait + Sync, T: Send, F: Fn(usize, &mut T) + Sync>(
    rt: &R,
    items: &mut [T],
    f: &F,
)
    requires accepts { AcceptsEach F.Fn f.now items.old }
    ensures { ChangesEach F.Fn f.now items.old items.new }
{
    each_from(rt, f, 0, items);
}
