//! What leads a session.
ghost use Rattle.mmt_top.specs.Session.{IsLed};

use crate::front::lead;
use board_front::{Hall, Mmt};
use board_seats::BoardPass;
use mmt_outside::{Gate, Sink, Source};
use run_status::Status;
use std::sync::Wait;
use worker_crew::Front;

/// Plays the script on a source, and writes what is printed to a sink.
pub(crate) struct ScriptFront;

impl<S: Source, K: Sink> Front<Mmt, S, K> for ScriptFront {
    ghost use Rattle.board_front.specs.Staying.{IsAtFront};

    type End = Status;

    ghost leads = { λ front status source rest sink written last. IsLed status (S.left source) (S.left rest) (S.faults source) (S.faults rest)
        (K.taken sink) (K.taken written) (K.faults sink) (K.faults written) last };

    fn lead<R: Wait, G: Gate>(
        &self,
        hall: &Hall<'_, R, Mmt, G>,
        pass: &mut BoardPass<Mmt>,
        source: &mut S,
        sink: &mut K,
    ) -> Status {
        lead(hall, pass, source, sink)
    }
}
