//! A crew.
ghost use Rattle.std.specs.Prelude.{◌≡◌};

use crate::Worker;
use module_graph::Subject;
use std::marker::Model;

/// Workers, seen as the list of them, in the order of their passes' numbers.
#[derive(Drop)]
pub struct Crew<S: Subject> {
    pub(crate) workers: Vec<Worker<S>>,
}

impl<S: Subject> Model for Crew<S> {
    ghost use Rattle.std.specs.Prelude.{List};
    ghost use Rattle.atomic_table.specs.Seated.{TableId};
    ghost use Rattle.worker_crew.specs.Workers as crews;

    ghost Value = { List (crews.Worker TableId) };

    ghost view = { λ c. c.workers.items };
}

impl<S: Subject> Crew<S> {
    /// The workers.
    pub fn workers(&self) -> &[Worker<S>]
        ensures { result.now ≡ self.now }
    {
        self.workers.as_slice()
    }
}
