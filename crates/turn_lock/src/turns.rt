//! The lock, and its calls.
ghost use Rattle.std.specs.Prelude.{◌≡◌, ◌≢◌, ◌-◌, ◌<◌, ◌^◌, true, length, IfOk, IfErr, IsOk};
ghost use Rattle.turn_meaning.specs.Numbers.{are_of};
ghost use Rattle.turn_meaning.specs.Passes.{IsIdleOf, HasTurnOf, first_pass, Takes, MayGive, after_turn, Splits, Joins, HasJoinedAll};
ghost use Rattle.turn_lock.specs.declared.turns.NewFault.TheVariants.{Memory as NoMemory};

use crate::pass::Pass;
use crate::rule::TurnTable;
use crate::sleepers::Sleepers;
use crate::steps::{enter_new, join_in, note, pass_on, put_in, split_off, take_out};
use crate::story::Story;
use crate::waits::{draw_ticket, wait_for_turn};
use atomic_table::{Refused, Table};
use lf_terms::Memory;
use std::alloc::{AllocFailed, Global};
use std::marker::Model;
use std::snapshot::Snapshot;
use std::sync::Wait;

/// A value under a lock whose passes take turns with it, in the order in which they drew tickets. It is seen as the name that no
/// other lock has, which its passes carry too.
#[derive(Drop)]
pub struct Turns<T: Story> {
    table: TurnTable<T>,
    sleepers: Sleepers,
}

impl<T: Story> Model for Turns<T> {
    ghost use Rattle.atomic_table.specs.Seated.{TableId};
    ghost use Rattle.turn_lock.specs.Steps.{IsTable};

    ghost Value = { TableId };

    ghost view = { λ t. t.table.shared.table_id };

    ghost invariant = { λ t. IsTable t.table.shared.table_id t.table.shared.table_id };
}

/// No lock was made.
#[derive(Drop)]
pub enum NewFault<T> {
    /// There was no memory. The value comes back.
    Memory(T),
}

impl<T: Story> Turns<T> {
    /// A lock over a value whose entries all carry the number 0, and its pass 0, which has seen them.
    pub fn new(alloc: Global, value: T) -> Result<(Turns<T>, Pass<T>), NewFault<T>>
        requires zeros { are_of T.number 0 (T.entries value) ≡ true }
        ensures first { IfOk result (λ made. made.1 ≡ first_pass made.0 (T.entries value)) }
        ensures back { IfErr result (λ fault. fault ≡ NoMemory value) }
    {
        let count = value.count();
        let about = Snapshot::of(&value);
        let mut slots = Vec::new(alloc);
        if let Err(failed) = slots.push(Some(value)) {
            let AllocFailed { value } = failed;
            slots.destroy_empty();
            return Err(NewFault::Memory(value.unwrap()));
        }
        match Table::new(alloc, &[0, 0, count], slots, &about) {
            Ok((table, place)) => {
                let pass = Pass {
                    number: 0,
                    made: 1,
                    count,
                    place,
                };
                Ok((
                    Turns {
                        table,
                        sleepers: Sleepers::new(),
                    },
                    pass,
                ))
            }
            Err(Refused { mut slots }) => {
                let value = slots.pop().unwrap();
                slots.destroy_empty();
                Err(NewFault::Memory(value.unwrap()))
            }
        }
    }

    /// Waits for a turn and takes the value. It draws no turn once all 2^64 - 1 tickets are drawn, and then does not return. It
    /// takes no memory.
    pub fn take<R: Wait>(&self, rt: &R, pass: &mut Pass<T>) -> T
        requires idle { IsIdleOf self.now pass.old }
        ensures takes { Takes T.number pass.old (T.entries result) pass.new }
    {
        let top = &self.table.shared;
        let own = draw_ticket(rt, top, &mut pass.place);
        wait_for_turn(rt, top, &self.sleepers, &mut pass.place, own);
        pass.count = note(top, &mut pass.place);
        take_out(top, &mut pass.place)
    }

    /// Gives the value back, with the entries with which it was taken or with one more of the pass's number. It takes no memory.
    pub fn give(&self, pass: &mut Pass<T>, value: T)
        requires turn { HasTurnOf self.now pass.old }
        requires entries { MayGive T.number pass.old (T.entries value) }
        ensures gives { pass.new ≡ after_turn pass.old (T.entries value) }
    {
        let top = &self.table.shared;
        pass.count = enter_new(top, &mut pass.place, &value, pass.number, pass.count);
        put_in(top, &mut pass.place, value);
        let ended = pass_on(top, &mut pass.place);
        self.sleepers.wake(ended.wrapping_add(1));
    }

    /// A pass with the next number, which has seen what pass 0 has. `Memory` never comes: a pass takes no memory.
    pub fn split(&self, first: &mut Pass<T>) -> Result<Pass<T>, Memory>
        requires first { IsIdleOf self.now first.old × (first.old.number ≡ 0) }
        requires room { first.old.made < 2 ^ 32 - 1 }
        ensures made { IsOk result }
        ensures next { IfOk result (λ made. Splits T.number first.old first.new made) }
    {
        let place = split_off(&self.table.shared, &mut first.place);
        let number = first.made;
        first.made += 1;
        Ok(Pass {
            number,
            made: 0,
            count: first.count,
            place,
        })
    }

    /// Joins another pass, which is not pass 0, into a pass. It takes no memory.
    pub fn join(&self, pass: &mut Pass<T>, other: Pass<T>)
        requires pass { IsIdleOf self.now pass.old }
        requires other { IsIdleOf self.now other × (other.number ≢ 0) }
        ensures joins { Joins T.number pass.old other pass.new }
    {
        let Pass {
            number: _,
            made: _,
            count,
            place,
        } = other;
        join_in(&self.table.shared, &mut pass.place, place);
        pass.count = pass.count.max(count);
    }

    /// The pass's number.
    pub fn number(pass: &Pass<T>) -> u32
        ensures number { result ≡ pass.now.number }
    {
        pass.number
    }

    /// How many passes were made, pass 0 counted, of which the pass has to be pass 0.
    pub fn made(pass: &Pass<T>) -> u32
        requires first { pass.now.number ≡ 0 }
        ensures made { result ≡ pass.now.made }
    {
        pass.made
    }

    /// Ends the lock, once every other pass is joined into pass 0. The value has the entries that pass 0 has seen. It takes no
    /// memory.
    pub fn end(self, pass: Pass<T>) -> T
        requires first { IsIdleOf self pass × (pass.number ≡ 0) }
        requires joined { HasJoinedAll pass }
        ensures seen { T.entries result ≡ pass.seen }
    {
        let Turns { table, sleepers: _ } = self;
        let Pass {
            number: _,
            made: _,
            count: _,
            place,
        } = pass;
        let mut closed = table.close_with(place);
        let value = closed.take(0);
        closed.free();
        value.unwrap()
    }
}
