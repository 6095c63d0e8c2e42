//! A session that waits in `remove` is woken.
use super::clients::{After, Client};
use super::player::serve_all;
use std::test::Fail;

#[test]
fn by_an_enqueue_of_another(rt: HostRuntime) -> Result<(), Fail> {
    let clients = [
        Client::new("queue; bind q 1; remove 1; bye", "= 1; ok; = 2; ok"),
        Client::new(
            "find q; new -; weak 2 1; enqueue 3; bye",
            "= 1; = 2; = 3; yes; ok",
        ),
    ];
    serve_all(rt, &rt, 16, &clients, After::Replies(2), 0)?;
    Ok(())
}

#[test]
fn by_the_handler(rt: HostRuntime) -> Result<(), Fail> {
    let clients = [
        Client::new(
            "queue; new -; weak 2 1; drop 2; remove 1; bye",
            "= 1; = 2; = 3; ok; = 2; ok",
        ),
        Client::new("gc; bye", "ok; ok"),
    ];
    serve_all(rt, &rt, 16, &clients, After::Replies(4), 0)?;
    Ok(())
}
