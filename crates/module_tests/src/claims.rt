//! Claims that meet other calls. Each begins with a new board, and answers whether all went as it should.

use crate::calls::{Heard, bring, claim, close, is_installed, is_of, is_stale, put, release, told};
use crate::edits::is_exhausted;
use module_graph::Subject;
use std::alloc::Global;
use verdict_board::Board;

const FIRST: &str = "%sig A = { a : type. }.";

const SECOND: &str = "%sig A = { a : type. b : a. }.";

/// A claim, an edit of its input, a second claim of the same module by another pass, and both installs: the first is stale, the
/// second is not.
pub fn claimed_twice<S: Subject>(alloc: Global, subject: &S, board: &mut Board<S>) -> bool {
    let put_first = put(alloc, board, "A", FIRST);
    let Some(first) = claim(alloc, board, 1) else {
        return false;
    };
    let edited = put(alloc, board, "A", SECOND);
    match claim(alloc, board, 2) {
        Some(second) => {
            let used = is_of(&first, "A", &[("A", 1)]) && is_of(&second, "A", &[("A", 2)]);
            let stale = bring(alloc, subject, board, 1, first);
            let first_is_stale = is_stale(stale, "A", 2);
            let fresh = bring(alloc, subject, board, 2, second);
            let second_is_fresh = is_installed(fresh);
            put_first && edited && used && first_is_stale && second_is_fresh
        }
        None => {
            release(board, 1, first);
            false
        }
    }
}

/// While a module is claimed and unchanged no other pass claims it; once it is released it is claimed again.
pub fn released_and_claimed_again<S: Subject>(
    alloc: Global,
    subject: &S,
    board: &mut Board<S>,
) -> bool {
    let put_first = put(alloc, board, "A", FIRST);
    let Some(first) = claim(alloc, board, 1) else {
        return false;
    };
    match claim(alloc, board, 2) {
        Some(second) => {
            release(board, 1, first);
            release(board, 2, second);
            false
        }
        None => {
            release(board, 1, first);
            put_first && is_claimed_at(alloc, subject, board, 3)
        }
    }
}

/// Whether the next claim is the entry at this place, counted from 0, and its verdict is installed.
fn is_claimed_at<S: Subject>(alloc: Global, subject: &S, board: &mut Board<S>, place: u64) -> bool {
    let Some(job) = claim(alloc, board, 2) else {
        return false;
    };
    let there = job.claim() == place;
    let reply = bring(alloc, subject, board, 2, job);
    let installed = is_installed(reply);
    there && installed
}

/// The board is closed while a claim is open: its verdict is installed all the same, and nothing more is claimed.
pub fn closed_before_the_install<S: Subject>(
    alloc: Global,
    subject: &S,
    board: &mut Board<S>,
) -> bool {
    let put_first = put(alloc, board, "A", FIRST);
    let put_second = put(alloc, board, "B", "%sig B = { b : type. }.");
    let Some(job) = claim(alloc, board, 1) else {
        return false;
    };
    close(board);
    let reply = bring(alloc, subject, board, 1, job);
    let installed = is_installed(reply);
    let told_of = told(alloc, board, "A") == Heard::Verdict
        && told(alloc, board, "B") == Heard::Pending;
    put_first && put_second && installed && told_of && is_exhausted(alloc, board)
}
