//! The loops beside a session: what a collection clears is handed over, an action is run, and objects go that were
//! dropped, though nobody asks for a collection.
use super::clients::{After, Client};
use super::player::serve_all;
use std::test::Fail;

#[test]
fn loops_work(rt: HostRuntime) -> Result<(), Fail> {
    let clients = [Client::new(
        "queue; new -; weak 2 1; drop 2; gc; poll 1 until; cleaner; new -; register 4 5 7; drop 5; gc; notes until; new -; drop 5; stat until fewer; bye",
        "= 1; = 2; = 3; ok; ok; = 2; = 4; = 5; = 6; ok; ok; list 7; = 5; ok; fewer; ok",
    )];
    serve_all(rt, &rt, 65_536, &clients, After::Nothing, 0)?;
    Ok(())
}

// A cycle begins once a quarter of the cells was taken, and by then three of the four objects are dropped.
#[test]
fn the_marker_works(rt: HostRuntime) -> Result<(), Fail> {
    let clients = [Client::new(
        "new -; drop 1; new -; drop 1; new -; drop 1; new -; stat until; bye",
        "= 1; ok; = 1; ok; = 1; ok; = 1; stat 1 0 0 0 0; ok",
    )];
    let (_, marked) = serve_all(rt, &rt, 16, &clients, After::Nothing, 0)?;
    if marked == 0 {
        return Err("the marker's seat has no entries".into());
    }
    Ok(())
}
