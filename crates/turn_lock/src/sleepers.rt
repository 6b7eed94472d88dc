//! Where those sleep whose turn is to come.

use crossbeam_utils::sync::{EventCount, Key};

/// How many places there are: where no more passes wait, the end of a turn wakes no other pass than the next.
const PLACES: u64 = 16;

/// Places to sleep, one for all tickets with the same remainder. Whoever is woken looks for its turn again, so no proof rests on
/// them.
#[derive(Drop)]
pub struct Sleepers {
    places: [EventCount; 16],
}

impl Sleepers {
    /// Nobody sleeps.
    pub fn new() -> Sleepers {
        Sleepers {
            places: [
                EventCount::new(),
                EventCount::new(),
                EventCount::new(),
                EventCount::new(),
                EventCount::new(),
                EventCount::new(),
                EventCount::new(),
                EventCount::new(),
                EventCount::new(),
                EventCount::new(),
                EventCount::new(),
                EventCount::new(),
                EventCount::new(),
                EventCount::new(),
                EventCount::new(),
                EventCount::new(),
            ],
        }
    }

    /// Announces a sleep until the turn of a ticket. It may follow if the turn has not come behind the announcement.
    pub fn announce(&self, ticket: u64) -> Key<'_> {
        self.places[(ticket % PLACES) as usize].prepare_wait()
    }

    /// Wakes who sleeps until the turn of a ticket.
    pub fn wake(&self, ticket: u64) {
        self.places[(ticket % PLACES) as usize].notify_all();
    }
}
