//! Counted steps take no bytes.
ghost use Rattle.std.specs.Prelude.{◌≡◌, ◌<◌};

use lf_terms::Steps;
use std::marker::Brand;
use std::sync::ledger::{Blank, Ledger};

/// Two steps, and how many bytes the counter takes.
fn counted<L: Ledger>(blank: Blank) -> usize
    requires name { blank.name ≡ L.name }
    requires parts { blank.parts ≡ L.parts }
    requires some { 0 < blank.parts }
{
    let mut steps = Steps::<L>::new(blank);
    steps.tick();
    steps.tick();
    size_of_val(&steps)
}

#[test]
fn steps_take_no_bytes(rt: HostRuntime) {
    assert_eq!(rt; counted::<Brand>(Blank::new(1)), 0);
}
