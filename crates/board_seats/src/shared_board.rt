//! The shared board, its passes, and its end.
ghost use Rattle.std.specs.Prelude.{◌≡◌, ◌≢◌, ◌-◌, ◌<◌, ◌^◌, true, IfOk, IfErr, IsOk};
ghost use Rattle.turn_meaning.specs.Numbers.{are_of};
ghost use Rattle.turn_meaning.specs.Passes.{IsIdleOf, first_pass, Takes, Splits, Joins, HasJoinedAll, HasTurnOf, MayGive, after_turn};
ghost use Rattle.board_meaning.specs.Points.{number_of};
ghost use Rattle.board_meaning.specs.Legal.{IsLegal};
ghost use Rattle.turn_lock.specs.declared.turns.NewFault.TheVariants.{Memory as NoMemory};

use crate::bell::Bell;
use crate::{BoardPass, Seated};
use lf_terms::Memory;
use module_graph::Subject;
use std::alloc::Global;
use std::marker::Model;
use std::sync::Wait;
use std::sync::atomic::AtomicU64;
use std::sync::atomic::Ordering::SeqCst;
use turn_lock::{NewFault, Turns};
use verdict_board::Board;

/// A board whose calls can be made by several threads, each through a pass of its own. Each call waits for a turn and does what
/// the board's call does, with the pass's number. It is seen as the name that no other lock has, which its passes carry too.
#[derive(Drop)]
pub struct SharedBoard<S: Subject> {
    turns: Turns<Seated<S>>,
    /// Rings where there may be a job. A report that says that a verdict is to come wakes one that waits for one, so does a claim
    /// behind which a further module may be ready, and a release: whoever is woken claims, and so wakes the next, for as long as
    /// there may be jobs. An edit that puts a long text wakes one. A short one is judged in less time than it takes to wake somebody,
    /// and while texts are put one after another the turns of those that were woken would only hold up the next edit: it waits until
    /// somebody asks for its verdict, or until somebody has slept for as long as workers do. An install wakes nobody: who installed
    /// goes on, and its next claim wakes. A close wakes all. The board is given back before the bell rings, so a turn behind it finds
    /// what changed.
    pub(crate) jobs: Bell,
    /// How many passes were made beside pass 0, each for a worker.
    pub(crate) workers: AtomicU64,
    /// How many claims found a module.
    pub(crate) claims: AtomicU64,
    /// How many claims have ended, those among them that were made before the board was shared.
    pub(crate) ended: AtomicU64,
    /// How many passes wait for a turn.
    pub(crate) waiting: AtomicU64,
    /// 1 once the board is closed.
    pub(crate) is_closed: AtomicU64,
    /// Rings at the end of each claim, and wakes all that wait for one.
    pub(crate) ends: Bell,
}

impl<S: Subject> Model for SharedBoard<S> {
    ghost use Rattle.atomic_table.specs.Seated.{TableId};

    ghost Value = { TableId };

    ghost view = { λ b. b.turns };
}

impl<S: Subject> SharedBoard<S> {
    /// A shared board over a board all of whose entries are of pass 0, and its pass 0, which has seen them. Where there is no
    /// memory the board comes back.
    pub fn new(
        alloc: Global,
        board: Board<S>,
    ) -> Result<(SharedBoard<S>, BoardPass<S>), NewFault<Board<S>>>
        requires zeros { are_of number_of 0 board ≡ true }
        ensures first { IfOk result (λ made. made.1 ≡ first_pass made.0 board) }
        ensures back { IfErr result (λ fault. fault ≡ NoMemory board) }
    {
        match Turns::new(alloc, Seated::new(board)) {
            Ok((turns, pass)) => Ok((
                SharedBoard {
                    turns,
                    jobs: Bell::new(),
                    workers: AtomicU64::new(0),
                    claims: AtomicU64::new(0),
                    ended: AtomicU64::new(0),
                    waiting: AtomicU64::new(0),
                    is_closed: AtomicU64::new(0),
                    ends: Bell::new(),
                },
                pass,
            )),
            Err(NewFault::Memory(seated)) => Err(NewFault::Memory(seated.into_board())),
        }
    }

    /// A pass with the next number, which has seen what pass 0 has. `Memory` never comes: a pass takes no memory.
    pub fn split(&self, first: &mut BoardPass<S>) -> Result<BoardPass<S>, Memory>
        requires first { IsIdleOf self.now first.old × (first.old.number ≡ 0) }
        requires room { first.old.made < 2 ^ 32 - 1 }
        ensures made { IsOk result }
        ensures next { IfOk result (λ made. Splits number_of first.old first.new made) }
    {
        self.workers.fetch_add(1, SeqCst);
        self.turns.split(first)
    }

    /// Joins another pass, which is not pass 0, into a pass. It takes no memory.
    pub fn join(&self, pass: &mut BoardPass<S>, other: BoardPass<S>)
        requires pass { IsIdleOf self.now pass.old }
        requires other { IsIdleOf self.now other × (other.number ≢ 0) }
        ensures joins { Joins number_of pass.old other pass.new }
    {
        self.turns.join(pass, other);
    }

    /// Ends the sharing, once every other pass is joined into pass 0. The board's history is what pass 0 has seen, and it is
    /// legal. It takes no memory.
    pub fn end(self, pass: BoardPass<S>) -> Board<S>
        requires first { IsIdleOf self pass × (pass.number ≡ 0) }
        requires joined { HasJoinedAll pass }
        ensures seen { result ≡ pass.seen }
        ensures legal { IsLegal S.subject.dependencies result }
    {
        let SharedBoard {
            turns,
            jobs: _,
            workers: _,
            claims: _,
            ended: _,
            waiting: _,
            is_closed: _,
            ends: _,
        } = self;
        turns.end(pass).into_board()
    }

    /// Waits for a turn and takes the board, whose history is legal.
    pub(crate) fn take<R: Wait>(&self, rt: &R, pass: &mut BoardPass<S>) -> Board<S>
        requires idle { IsIdleOf self.now pass.old }
        ensures takes { Takes number_of pass.old result pass.new }
        ensures legal { IsLegal S.subject.dependencies result }
    {
        self.waiting.fetch_add(1, SeqCst);
        let seated = self.turns.take(rt, pass);
        self.waiting.fetch_sub(1, SeqCst);
        seated.into_board()
    }

    /// Gives the board back, with the entries with which it was taken or with one more of the pass's number.
    pub(crate) fn give(&self, pass: &mut BoardPass<S>, board: Board<S>)
        requires turn { HasTurnOf self.now pass.old }
        requires entries { MayGive number_of pass.old board }
        ensures gives { pass.new ≡ after_turn pass.old board }
    {
        self.turns.give(pass, Seated::new(board));
    }
}
