//! The loops that wait for a turn.
ghost use Rattle.std.specs.Prelude.{◌≡◌};
ghost use Rattle.turn_lock.specs.declared.view.Stage.TheVariants.{Idle, Drawn, Found};
ghost use Rattle.turn_lock.specs.Views.{at_stage};
ghost use Rattle.turn_lock.specs.Steps.{IsTable};

use crate::rule::{Place, Top};
use crate::sleepers::Sleepers;
use crate::steps::{draw, guess, look};
use crate::story::Story;
use crossbeam_utils::Backoff;
use std::sync::Wait;

/// Draws a ticket. The ticket 2^64 - 1 is never drawn: once it is the next, this does not return.
pub fn draw_ticket<T: Story, R: Wait>(rt: &R, top: &Top<T>, place: &mut Place<T>) -> u64
    requires table { IsTable top.now.table_id place.old.table_id }
    requires idle { place.old.me.0.stage ≡ Idle }
    ensures table { place.new.table_id ≡ place.old.table_id }
    ensures drawn { place.new.me ≡ (at_stage (Drawn result) place.old.me.0, place.old.me.1) }
{
    let backoff = Backoff::new();
    let mut next = guess(top);
    for _ in rt.forever() {
        if next == u64::MAX {
            backoff.snooze();
            continue;
        }
        let found = draw(top, place, next);
        if found == next {
            return next;
        }
        next = found;
        backoff.spin();
    }
    unreachable!()
}

/// So often is looked for a turn before the sleep. A look costs less than a microsecond, a sleep and its end some fifty.
const LOOKS: u32 = 100;

/// Waits until the ticket has its turn. A short wait looks again and again, a longer one sleeps.
pub fn wait_for_turn<T: Story, R: Wait>(
    rt: &R,
    top: &Top<T>,
    sleepers: &Sleepers,
    place: &mut Place<T>,
    own: u64,
)
    requires table { IsTable top.now.table_id place.old.table_id }
    requires drawn { place.old.me.0.stage ≡ Drawn own }
    ensures table { place.new.table_id ≡ place.old.table_id }
    ensures found { place.new.me ≡ (at_stage (Found own) place.old.me.0, place.old.me.1) }
{
    let backoff = Backoff::new();
    let mut looks = 0;
    for _ in rt.forever() {
        if look(top, place, own) {
            return;
        }
        if looks < LOOKS {
            looks += 1;
            backoff.snooze();
            continue;
        }
        let announced = sleepers.announce(own);
        if look(top, place, own) {
            return;
        }
        announced.wait(rt);
    }
    unreachable!()
}
