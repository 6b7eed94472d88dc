//! Edits while a claim is open, and before one. Each begins with a new board, and answers whether all went as it should.

use crate::calls::{Heard, bring, claim, is_installed, is_of, is_stale, put, told};
use module_graph::Subject;
use std::alloc::Global;
use verdict_board::Board;

const NAT: &str = "%sig Nat = { nat : type. z : nat. s : nat -> nat. }.";

const MISSPELLED: &str = "%sig Nat = { nat : type. z : nar. s : nat -> nat. }.";

const USER: &str = "%sig User = { %include Nat. }.";

/// A claim by pass 0, an edit of the module, and the install, which is stale.
pub fn stale_by_one_edit<S: Subject>(alloc: Global, subject: &S, board: &mut Board<S>) -> bool {
    let first = put(alloc, board, "Nat", NAT);
    let Some(job) = claim(alloc, board, 0) else {
        return false;
    };
    let used = is_of(&job, "Nat", &[("Nat", 1)]);
    let edited = put(alloc, board, "Nat", MISSPELLED);
    let reply = bring(alloc, subject, board, 0, job);
    let stale = is_stale(reply, "Nat", 2);
    first && used && edited && stale
}

/// The same with a second edit, which puts the first text back: the stamp is newer all the same.
fn stale_by_two_edits<S: Subject>(alloc: Global, subject: &S, board: &mut Board<S>) -> bool {
    let first = put(alloc, board, "Nat", NAT);
    let Some(job) = claim(alloc, board, 0) else {
        return false;
    };
    let edited = put(alloc, board, "Nat", MISSPELLED);
    let back = put(alloc, board, "Nat", NAT);
    let reply = bring(alloc, subject, board, 0, job);
    let stale = is_stale(reply, "Nat", 3);
    first && edited && back && stale
}

/// The module is claimed with this stamp of its own, and its verdict is installed.
fn judged_at<S: Subject>(alloc: Global, subject: &S, board: &mut Board<S>, stamp: u32) -> bool {
    let pending = told(alloc, board, "Nat") == Heard::Pending;
    let Some(job) = claim(alloc, board, 0) else {
        return false;
    };
    let used = is_of(&job, "Nat", &[("Nat", stamp)]);
    let reply = bring(alloc, subject, board, 0, job);
    let installed = is_installed(reply);
    pending && used && installed && told(alloc, board, "Nat") == Heard::Verdict
}

/// After two edits the install is stale; the module is judged at the newer stamp, and then nothing is ready.
pub fn judged_again<S: Subject>(alloc: Global, subject: &S, board: &mut Board<S>) -> bool {
    let stale = stale_by_two_edits(alloc, subject, board);
    let again = judged_at(alloc, subject, board, 3);
    stale && again && is_exhausted(alloc, board)
}

/// Whether no module is ready. One that is ready is claimed and released.
pub fn is_exhausted<S: Subject>(alloc: Global, board: &mut Board<S>) -> bool {
    match claim(alloc, board, 0) {
        Some(job) => {
            board.release(0, job);
            false
        }
        None => true,
    }
}

/// A module that a claim found absent is put before its install.
pub fn an_absent_name_is_put<S: Subject>(alloc: Global, subject: &S, board: &mut Board<S>) -> bool {
    let first = put(alloc, board, "User", USER);
    let Some(job) = claim(alloc, board, 1) else {
        return false;
    };
    let used = is_of(&job, "User", &[("Nat", 0), ("User", 1)]);
    let edited = put(alloc, board, "Nat", NAT);
    let reply = bring(alloc, subject, board, 1, job);
    let stale = is_stale(reply, "Nat", 2);
    first && used && edited && stale
}

/// An edit of a module that the claimed one does not reach.
pub fn another_is_edited<S: Subject>(alloc: Global, subject: &S, board: &mut Board<S>) -> bool {
    let first = put(alloc, board, "Nat", NAT);
    let Some(job) = claim(alloc, board, 1) else {
        return false;
    };
    let edited = put(alloc, board, "User", USER);
    let reply = bring(alloc, subject, board, 1, job);
    let installed = is_installed(reply);
    first && edited && installed
}

/// Two modules that include each other are told of at once, and nothing is ready; once one of them lets the other go, both are
/// judged.
pub fn a_cycle_is_broken<S: Subject>(alloc: Global, subject: &S, board: &mut Board<S>) -> bool {
    let first = put(alloc, board, "User", USER);
    let second = put(alloc, board, "Nat", "%sig Nat = { %include User. }.");
    let cyclic = are_told(alloc, board, Heard::Verdict) && is_exhausted(alloc, board);
    let broken = put(alloc, board, "Nat", NAT);
    let pending = are_told(alloc, board, Heard::Pending);
    let judged = judged_at(alloc, subject, board, 3);
    first && second && cyclic && broken && pending && judged
}

/// Whether the same is told of both.
fn are_told<S: Subject>(alloc: Global, board: &Board<S>, what: Heard) -> bool {
    told(alloc, board, "Nat") == what && told(alloc, board, "User") == what
}
