//! Threads that take turns, and what they leave.
ghost use Rattle.std.specs.Prelude.{◌≡◌, ◌<◌, ◌-◌, ◌^◌, [], ◌∷◌, OnOk, IfOk};
ghost use Rattle.turn_meaning.specs.Passes.{IsIdleOf, Splits};

use crate::marks::Marks;
use lf_terms::Memory;
use std::sync::Wait;
use std::thread::{Threads, join};
use turn_lock::{Pass, Turns};

pub type Marked = Pass<Marks>;

/// What the threads left: the marks in order, how many each thread added, and how many passes were made.
#[derive(Drop)]
pub struct Left {
    pub marks: Vec<u32>,
    pub added: [u32; 4],
    pub made: u32,
}

/// A pass with the next number. There always is one, since so few passes are made.
pub fn split_off(turns: &Turns<Marks>, first: &mut Marked) -> Marked
    requires first { IsIdleOf turns.now first.old × (first.old.number ≡ 0) }
    requires room { first.old.made < 2 ^ 32 - 1 }
    ensures { Splits (λ mark. mark) first.old first.new result }
{
    match turns.split(first) {
        Ok(pass) => pass,
        Err(_) => unreachable!(),
    }
}

/// One turn, in which the pass adds its mark.
pub fn add_one<R: Wait>(rt: &R, turns: &Turns<Marks>, pass: &mut Marked) -> Result<(), Memory>
    requires { IsIdleOf turns.now pass.old }
    ensures { pass.new ≡ record pass.old { seen = pass.new.seen } }
{
    let mut marks = turns.take(rt, pass);
    let added = marks.add(Turns::number(pass));
    turns.give(pass, marks);
    added
}

/// One turn, in which the pass adds nothing. The answer is how many marks there are.
pub fn look_on<R: Wait>(rt: &R, turns: &Turns<Marks>, pass: &mut Marked) -> usize
    requires { IsIdleOf turns.now pass.old }
    ensures { pass.new ≡ record pass.old { seen = pass.new.seen } }
{
    let marks = turns.take(rt, pass);
    let found = marks.marks.len();
    turns.give(pass, marks);
    found
}

/// So many turns, each of which adds a mark.
pub fn add_all<R: Wait>(
    rt: &R,
    turns: &Turns<Marks>,
    mut pass: Marked,
    rounds: u32,
) -> (Marked, u32)
    requires { IsIdleOf turns.now pass }
    ensures { result.0 ≡ record pass { seen = result.0.seen } }
{
    let mut added = 0;
    for _ in 0..rounds {
        if add_one(rt, turns, &mut pass).is_ok() {
            added += 1;
        }
    }
    (pass, added)
}

/// Two threads.
pub fn add_by_two<R: Threads + Wait + Sync>(
    rt: &R,
    turns: &Turns<Marks>,
    one: Marked,
    two: Marked,
    rounds: u32,
) -> ((Marked, u32), (Marked, u32))
    requires one { IsIdleOf turns.now one }
    requires two { IsIdleOf turns.now two }
    ensures one { result.0.0 ≡ record one { seen = result.0.0.seen } }
    ensures two { result.1.0 ≡ record two { seen = result.1.0.seen } }
{
    join(
        rt,
        || -> (Marked, u32)
            requires { IsIdleOf turns.now one }
            ensures { result.0 ≡ record one { seen = result.0.seen } }
        { add_all(rt, turns, one, rounds) },
        || -> (Marked, u32)
            requires { IsIdleOf turns.now two }
            ensures { result.0 ≡ record two { seen = result.0.seen } }
        { add_all(rt, turns, two, rounds) },
    )
}

/// Two threads, whose passes are joined into pass 0 in one order or the other.
pub fn by_two<R: Threads + Wait + Sync>(
    rt: &R,
    turns: Turns<Marks>,
    mut first: Marked,
    rounds: u32,
    later_first: bool,
) -> Left
    requires { IsIdleOf turns first × (first.number ≡ 0) × (first.made ≡ 1) × (first.joined ≡ []) }
{
    let one = split_off(&turns, &mut first);
    let two = split_off(&turns, &mut first);
    let (one, two) = add_by_two(rt, &turns, one, two, rounds);
    let added = [one.1, two.1, 0, 0];
    if later_first {
        turns.join(&mut first, two.0);
        turns.join(&mut first, one.0);
    } else {
        turns.join(&mut first, one.0);
        turns.join(&mut first, two.0);
    }
    let made = Turns::made(&first);
    Left {
        marks: turns.end(first).marks,
        added,
        made,
    }
}

/// Four threads, of which two are joined through another.
pub fn by_four<R: Threads + Wait + Sync>(
    rt: &R,
    turns: Turns<Marks>,
    mut first: Marked,
    rounds: u32,
) -> Left
    requires { IsIdleOf turns first × (first.number ≡ 0) × (first.made ≡ 1) × (first.joined ≡ []) }
{
    let one = split_off(&turns, &mut first);
    let two = split_off(&turns, &mut first);
    let three = split_off(&turns, &mut first);
    let four = split_off(&turns, &mut first);
    let shared = &turns;
    let ((one, two), (three, four)) = join(
        rt,
        || -> ((Marked, u32), (Marked, u32))
            requires { IsIdleOf shared.now one × IsIdleOf shared.now two }
            ensures { (result.0.0 ≡ record one { seen = result.0.0.seen }) × (result.1.0 ≡ record two { seen = result.1.0.seen }) }
        { add_by_two(rt, shared, one, two, rounds) },
        || -> ((Marked, u32), (Marked, u32))
            requires { IsIdleOf shared.now three × IsIdleOf shared.now four }
            ensures { (result.0.0 ≡ record three { seen = result.0.0.seen }) × (result.1.0 ≡ record four { seen = result.1.0.seen }) }
        { add_by_two(rt, shared, three, four, rounds) },
    );
    let added = [one.1, two.1, three.1, four.1];
    let (mut one, mut four) = (one.0, four.0);
    turns.join(&mut one, two.0);
    turns.join(&mut four, three.0);
    turns.join(&mut first, four);
    turns.join(&mut first, one);
    let made = Turns::made(&first);
    Left {
        marks: turns.end(first).marks,
        added,
        made,
    }
}
