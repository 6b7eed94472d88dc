//! The steps on the lock's table, one function each.
ghost use Rattle.std.specs.Prelude.{◌≡◌, ◌≢◌, ℕ, ◌+◌, ◌<◌, ◌^◌, List, [], ◌∷◌, ◌++◌, ◌⊎◌, true, length, None, Some, MatchBool};
ghost use Rattle.turn_meaning.specs.Numbers.{are_of_others};
ghost use Rattle.turn_meaning.specs.Passes.{HasOneMore};
ghost use Rattle.turn_lock.specs.declared.view.Stage.TheVariants.{Idle, Drawn, Found};
ghost use Rattle.turn_lock.specs.Views.{at_stage, has_turn, joined_in, with_one_more, split_view, with_other};
ghost use Rattle.turn_lock.specs.Steps.{IsTable, IsFound, IsAlone, Notes, Merges};

use crate::plays::{Adding, Beside, Draw, Enter, Look, Merge, Note, OneMore, PassOn, Tell};
use crate::rule::{Place, Top};
use crate::story::Story;
use std::marker::Brand;

const TICKET: usize = 0;

const SERVING: usize = 1;

const COUNT: usize = 2;

const SLOT: usize = 0;

/// Any ticket that was the next at some time.
pub fn guess<T: Story>(top: &Top<T>) -> u64
    requires { IsTable top.now.table_id top.now.table_id }
{
    top.peek(TICKET)
}

/// Draws the ticket `next`, if it is the next. The answer is the ticket that was the next.
pub fn draw<T: Story>(top: &Top<T>, place: &mut Place<T>, next: u64) -> u64
    requires table { IsTable top.now.table_id place.old.table_id }
    requires idle { place.old.me.0.stage ≡ Idle }
    requires room { next + 1 < 2 ^ 64 }
    ensures table { place.new.table_id ≡ place.old.table_id }
    ensures drawn { result ≡ next → place.new.me ≡ (at_stage (Drawn next) place.old.me.0, place.old.me.1) }
    ensures other { result ≢ next → place.new.me ≡ place.old.me }
{
    top.compare_exchange::<Draw>(place, TICKET, next, next + 1)
}

/// Whether the ticket has its turn.
pub fn look<T: Story>(top: &Top<T>, place: &mut Place<T>, own: u64) -> bool
    requires table { IsTable top.now.table_id place.old.table_id }
    requires drawn { place.old.me.0.stage ≡ Drawn own }
    ensures table { place.new.table_id ≡ place.old.table_id }
    ensures found { MatchBool result (place.new.me ≡ (at_stage (Found own) place.old.me.0, place.old.me.1)) (place.new.me ≡ place.old.me) }
{
    top.load::<Look>(place, SERVING) == own
}

/// Takes the slot with the value, and answers how many entries the value has.
pub fn note<T: Story>(top: &Top<T>, place: &mut Place<T>) -> u64
    requires table { IsTable top.now.table_id place.old.table_id }
    requires found { IsFound place.old.me.0.stage }
    requires named { 0 < length place.old.me.0.numbers }
    requires empty { place.old.me.1 ≡ [] }
    ensures table { place.new.table_id ≡ place.old.table_id }
    ensures notes { (own : ℕ) × Notes T.entries T.number own place.old.me result place.new.me }
{
    top.load::<Note>(place, COUNT)
}

/// Takes the value out of the slot in the hand.
pub fn take_out<T: Story>(top: &Top<T>, place: &mut Place<T>) -> T
    requires table { IsTable top.now.table_id place.old.table_id }
    requires hand { (x : T) × (place.old.me.1 ≡ (0, Some x) ∷ []) }
    ensures table { place.new.table_id ≡ place.old.table_id }
    ensures value { place.old.me.1 ≡ (0, Some result) ∷ [] }
    ensures hand { place.new.me ≡ (place.old.me.0, (0, None) ∷ []) }
{
    top.exchange(place, SLOT, None).unwrap()
}

/// Adds the entry of the pass's own number to the history. The value, which has it, is for the proof alone.
fn enter<T: Story, N: Adding<T::Entry>>(top: &Top<T>, place: &mut Place<T>, value: &T)
    requires table { IsTable top.now.table_id place.old.table_id }
    requires turn { has_turn place.old.me.0.stage ≡ true }
    requires entry { (own : ℕ) × (joined : List ℕ) × (e : T.Entry) × (place.old.me.0.numbers ≡ own ∷ joined) × (T.number e ≡ own) × (N.added ≡ e ∷ []) }
    requires room { length place.old.me.0.seen + 1 < 2 ^ 64 }
    ensures table { place.new.table_id ≡ place.old.table_id }
    ensures entered { place.new.me ≡ (record place.old.me.0 { seen = place.old.me.0.seen ++ N.added }, place.old.me.1) }
{
    let _ = value;
    top.fetch_add::<Enter<N>>(place, COUNT, 1);
}

/// Enters what the value has beyond the entries seen, of which there are so many, and answers how many the value has.
pub fn enter_new<T: Story>(
    top: &Top<T>,
    place: &mut Place<T>,
    value: &T,
    number: u32,
    seen: u64,
) -> u64
    requires table { IsTable top.now.table_id place.old.table_id }
    requires turn { has_turn place.old.me.0.stage ≡ true }
    requires named { place.old.me.0.numbers ≡ number ∷ joined_in place.old.me.0.numbers }
    requires seen { seen ≡ length place.old.me.0.seen }
    requires entries { (T.entries value.now ≡ place.old.me.0.seen) ⊎ HasOneMore T.number number place.old.me.0.seen (T.entries value.now) }
    ensures table { place.new.table_id ≡ place.old.table_id }
    ensures entered { place.new.me ≡ (record place.old.me.0 { seen = T.entries value.now }, place.old.me.1) }
    ensures count { result ≡ length (T.entries value.now) }
{
    let count = value.count();
    if count != seen {
        enter::<T, Brand>(top, place, value);
    }
    count
}

/// Puts the value into the slot in the hand.
pub fn put_in<T: Story>(top: &Top<T>, place: &mut Place<T>, value: T)
    requires table { IsTable top.now.table_id place.old.table_id }
    requires hand { place.old.me.1 ≡ (0, None) ∷ [] }
    ensures table { place.new.table_id ≡ place.old.table_id }
    ensures hand { place.new.me ≡ (place.old.me.0, (0, Some value) ∷ []) }
{
    match top.exchange(place, SLOT, Some(value)) {
        None => {}
        Some(_) => unreachable!(),
    }
}

/// Gives the slot back, and the turn to the next ticket. The answer is the ticket whose turn it was.
pub fn pass_on<T: Story>(top: &Top<T>, place: &mut Place<T>) -> u64
    requires table { IsTable top.now.table_id place.old.table_id }
    requires turn { has_turn place.old.me.0.stage ≡ true }
    requires hand { (x : T) × (place.old.me.1 ≡ (0, Some x) ∷ []) × (T.entries x ≡ place.old.me.0.seen) }
    ensures table { place.new.table_id ≡ place.old.table_id }
    ensures passed { place.new.me ≡ (at_stage Idle place.old.me.0, []) }
{
    top.fetch_add::<PassOn>(place, SERVING, 1)
}

/// A new seat, for the pass with the next number.
pub fn split_off<T: Story>(top: &Top<T>, first: &mut Place<T>) -> Place<T>
    requires table { IsTable top.now.table_id first.old.table_id }
    requires first { (joined : List ℕ) × (first.old.me.0.numbers ≡ 0 ∷ joined) }
    ensures table { (first.new.table_id ≡ first.old.table_id) × (result.table_id ≡ first.old.table_id) }
    ensures first { first.new.me ≡ (with_one_more first.old.me.0, first.old.me.1) }
    ensures next { result.me ≡ (split_view first.old.me.0, []) }
    ensures unused { are_of_others T.number first.old.me.0.made first.old.me.0.seen ≡ true }
{
    top.load::<Tell>(first, TICKET);
    top.split_seat::<OneMore>(first)
}

/// The seat takes in another.
pub fn join_in<T: Story>(top: &Top<T>, place: &mut Place<T>, other: Place<T>)
    requires table { IsTable top.now.table_id place.old.table_id × (other.table_id ≡ top.now.table_id) }
    requires alone { IsAlone place.old.me.0 × IsAlone other.me.0 }
    requires named { (own : ℕ) × (joined : List ℕ) × (place.old.me.0.numbers ≡ own ∷ joined) }
    requires empty { other.me.1 ≡ [] }
    ensures table { place.new.table_id ≡ place.old.table_id }
    ensures merged { Merges T.number (with_other place.old.me.0 other.me.0, place.old.me.1) place.new.me }
{
    top.join_seat::<Beside>(place, other);
    top.load::<Merge>(place, TICKET);
}
