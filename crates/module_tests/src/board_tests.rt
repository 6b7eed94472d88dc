//! The calls on boards of modules.

use crate::{claims, edits};
use lf_terms::Memory;
use module_check::Mmt;
use std::alloc::Global;
use std::test::Fail;
use verdict_board::Board;

fn board(alloc: Global) -> Result<Board<Mmt>, Memory> {
    Board::new(alloc, Mmt)
}

fn stale_by_one_edit(alloc: Global) -> Result<bool, Memory> {
    let mut board = board(alloc)?;
    Ok(edits::stale_by_one_edit(alloc, &Mmt, &mut board))
}

fn judged_again(alloc: Global) -> Result<bool, Memory> {
    let mut board = board(alloc)?;
    Ok(edits::judged_again(alloc, &Mmt, &mut board))
}

fn an_absent_name_is_put(alloc: Global) -> Result<bool, Memory> {
    let mut board = board(alloc)?;
    Ok(edits::an_absent_name_is_put(alloc, &Mmt, &mut board))
}

fn another_is_edited(alloc: Global) -> Result<bool, Memory> {
    let mut board = board(alloc)?;
    Ok(edits::another_is_edited(alloc, &Mmt, &mut board))
}

fn a_cycle_is_broken(alloc: Global) -> Result<bool, Memory> {
    let mut board = board(alloc)?;
    Ok(edits::a_cycle_is_broken(alloc, &Mmt, &mut board))
}

fn claimed_twice(alloc: Global) -> Result<bool, Memory> {
    let mut board = board(alloc)?;
    Ok(claims::claimed_twice(alloc, &Mmt, &mut board))
}

fn released_and_claimed_again(alloc: Global) -> Result<bool, Memory> {
    let mut board = board(alloc)?;
    Ok(claims::released_and_claimed_again(alloc, &Mmt, &mut board))
}

fn closed_before_the_install(alloc: Global) -> Result<bool, Memory> {
    let mut board = board(alloc)?;
    Ok(claims::closed_before_the_install(alloc, &Mmt, &mut board))
}

#[test]
fn calls_on_a_board(rt: HostRuntime) -> Result<(), Fail> {
    let alloc = rt.alloc();
    assert!(rt; stale_by_one_edit(alloc)?, "a stale install");
    assert!(rt; judged_again(alloc)?, "a stale module is judged again");
    assert!(rt;
        an_absent_name_is_put(alloc)?,
        "an absent name put before the install"
    );
    assert!(rt; another_is_edited(alloc)?, "an edit outside of the reach");
    assert!(rt; a_cycle_is_broken(alloc)?, "a cycle made and broken");
    assert!(rt; claimed_twice(alloc)?, "two claims of one name");
    assert!(rt; released_and_claimed_again(alloc)?, "a released claim");
    assert!(rt;
        closed_before_the_install(alloc)?,
        "a close before the install"
    );
    Ok(())
}
