ghost use Rattle.std.specs.Prelude.{◌≡◌, IfOk, [], true};
ghost use Rattle.turn_meaning.specs.Passes.{IsIdleOf};
ghost use Rattle.turn_meaning.specs.Numbers.{are_of};

use crate::marks::Marks;
use crate::runs::{Left, Marked, add_one, by_four, by_two, look_on, split_off};
use lf_terms::Memory;
use std::alloc::Global;
use std::sync::Wait;
use std::test::*;
use std::thread::Threads;
use turn_lock::{NewFault, Turns};

const ROUNDS: u32 = 10_000;

fn lock_over(alloc: Global, marks: Marks) -> Result<(Turns<Marks>, Marked), Memory>
    requires { are_of (λ mark. mark) 0 marks.marks.items ≡ true }
    ensures { IfOk result (λ made. IsIdleOf made.0 made.1 × (made.1.number ≡ 0) × (made.1.made ≡ 1) × (made.1.joined ≡ [])) }
{
    match Turns::new(alloc, marks) {
        Ok(made) => Ok(made),
        Err(NewFault::Memory(_)) => Err(Memory),
    }
}

/// How often the number stands there.
fn times(marks: &[u32], number: u32) -> usize {
    marks.iter().filter(|mark| **mark == number).count()
}

/// Whether these are the marks that were left.
fn are_left(left: Marks, marks: &[u32]) -> bool {
    let same = left.marks.as_slice() == marks;
    drop(left);
    same
}

#[test]
fn pass_0_alone(rt: HostRuntime) -> Result<(), Fail> {
    let (turns, mut first) = lock_over(rt.alloc(), Marks::new(rt.alloc()))?;
    let added = add_one(&rt, &turns, &mut first).is_ok();
    let found = look_on(&rt, &turns, &mut first);
    let added_again = add_one(&rt, &turns, &mut first).is_ok();
    let (number, made) = (Turns::number(&first), Turns::made(&first));
    let left = are_left(turns.end(first), &[0, 0]);
    assert!(rt; added && added_again && found == 1);
    assert!(rt; number == 0 && made == 1);
    assert!(rt; left);
    Ok(())
}

#[test]
fn a_split_pass_sees_what_was_added(rt: HostRuntime) -> Result<(), Fail> {
    let (turns, mut first) = lock_over(rt.alloc(), Marks::new(rt.alloc()))?;
    let mut other = split_off(&turns, &mut first);
    let numbers = (
        Turns::number(&first),
        Turns::number(&other),
        Turns::made(&first),
    );
    let added = add_one(&rt, &turns, &mut first).is_ok();
    let found = look_on(&rt, &turns, &mut other);
    let added_there = add_one(&rt, &turns, &mut other).is_ok();
    turns.join(&mut first, other);
    let left = are_left(turns.end(first), &[0, 1]);
    assert!(rt; added && added_there && found == 1);
    assert_eq!(rt; numbers, (0, 1, 2));
    assert!(rt; left);
    Ok(())
}

/// How many marks two or four threads left, how many of them each added and is told to have added, and how many passes were made.
type Counts = (usize, [usize; 4], [u32; 4], u32);

fn counts(left: Left) -> Counts {
    let marks = left.marks.as_slice();
    let found = [
        times(marks, 1),
        times(marks, 2),
        times(marks, 3),
        times(marks, 4),
    ];
    let counts = (marks.len(), found, left.added, left.made);
    drop(left);
    counts
}

/// What two threads leave, whose passes are joined in one order or the other.
fn left_by_two<R: Threads + Wait + Sync>(
    rt: &R,
    alloc: Global,
    later_first: bool,
) -> Result<Counts, Memory> {
    let (turns, first) = lock_over(alloc, Marks::new(alloc))?;
    Ok(counts(by_two(rt, turns, first, ROUNDS, later_first)))
}

/// What four threads leave.
fn left_by_four<R: Threads + Wait + Sync>(rt: &R, alloc: Global) -> Result<Counts, Memory> {
    let (turns, first) = lock_over(alloc, Marks::new(alloc))?;
    Ok(counts(by_four(rt, turns, first, ROUNDS)))
}

#[test]
fn two_threads(rt: HostRuntime) -> Result<(), Fail> {
    let in_order = left_by_two(&rt, rt.alloc(), false)?;
    let later_first = left_by_two(&rt, rt.alloc(), true)?;
    let each = [10_000, 10_000, 0, 0];
    let wanted = (20_000, each, [ROUNDS, ROUNDS, 0, 0], 3);
    assert_eq!(rt; in_order, wanted);
    assert_eq!(rt; later_first, wanted);
    Ok(())
}

#[test]
fn four_threads_joined_in_pairs(rt: HostRuntime) -> Result<(), Fail> {
    let found = left_by_four(&rt, rt.alloc())?;
    assert_eq!(rt; found, (40_000, [10_000; 4], [ROUNDS; 4], 5));
    Ok(())
}
