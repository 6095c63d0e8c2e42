//! A row is an event in words, as `jlr_words` reads them, or a reply. What it tells, with the resource that it carries
//! behind `with`, is written in words again, and has to be the row; where it is something else, that stands behind an
//! arrow. Each operand of a row is another number, so that none can stand for another.
use jlr_event::event::{Event, Reply};
use jlr_machine::ask::{Answer, Ask};
use std::alloc::{AllocError, Global};
use std::test::Fail;

mod held;
mod replies;
mod writing;

use held::wrong_words;
use jlr_words::{event_of, parts_of};
use replies::reply_of;
use writing::{answer_text, ask_text, with_resource};

const ARROW: &str = " -> ";

const EVENTS: &str = "
    by 3 join
    by 3 leave
    by 3 new ri
    by 3 array 4096
    by 3 put 4 5 6
    by 3 put 4 4095 6
    by 3 get 4 5
    by 3 get 4 300
    by 3 set_int 4 5 -70000
    by 3 int 4 5
    by 3 dup 4
    by 3 drop 4
    by 3 same 4 5
    by 3 soft 4 5
    by 3 weak 4 5
    by 3 phantom 4 5
    by 3 deref 4
    by 3 refers 4 5
    by 3 clear 4
    by 3 enqueue 4
    by 3 enqueued 4
    by 3 queue
    by 3 poll 4
    by 3 remove 4
    by 3 cleaner
    by 3 register 4 5 70000
    by 3 clean 4
    by 3 prepare
    by 3 opened 9 -> by 3 opened ok with 9
    by 3 opened NotFound
    by 3 check_out 4
    by 3 check_in data 6162 9 -> by 3 check_in data ab with 9
    by 3 check_in 200 9 -> by 3 check_in wrote 200 with 9
    by 3 check_in Other 9 -> by 3 check_in failed Other with 9
    by 3 close 4
    finish 255 70000 ok
    finish 255 70000 Denied
    by 3 bind log_1 4
    by 3 find log_1
    by 3 unbind log_1
    by 3 names
    by 3 full
    by 3 full_clearing
    by 3 stat
    by 3 notes
    by 3 faults
    hand_over
    take_up
    begin
    collect
    abandon
    mark 64 -> none
";

const REPLIES: &str = "
    handle 7
    out 2 with 9
    more -> none
    done -> none
    idle -> none
";

// What the rows tell of.
#[derive(Clone, Copy)]
enum Rows {
    Events,
    Replies,
}

#[test]
fn events_are_their_asks(rt: HostRuntime) -> Result<(), Fail> {
    are_told(rt.alloc(), EVENTS, Rows::Events)
}

#[test]
fn replies_are_their_answers(rt: HostRuntime) -> Result<(), Fail> {
    are_told(rt.alloc(), REPLIES, Rows::Replies)?;
    match wrong_words(rt.alloc())? {
        Some(row) => Err(Fail::new(row)),
        None => Ok(()),
    }
}

fn are_told(alloc: Global, rows: &str, of: Rows) -> Result<(), Fail> {
    for row in rows.lines() {
        is_told(alloc, row.trim(), of)?;
    }
    Ok(())
}

fn is_told(alloc: Global, row: &str, of: Rows) -> Result<(), Fail> {
    if row.is_empty() {
        return Ok(());
    }
    let (given, wanted) = row.split_once(ARROW).unwrap_or((row, row));
    let got = told(alloc, given, of)?;
    is_wanted(row, wanted, got.as_str())
}

fn is_wanted(row: &str, wanted: &str, got: &str) -> Result<(), Fail> {
    if got == wanted {
        return Ok(());
    }
    Err(Fail::new(format_args!("{row} is told as {got}")))
}

// What the words tell, in words again.
fn told(alloc: Global, given: &str, of: Rows) -> Result<String, AllocError> {
    match of {
        Rows::Events => event_told(alloc, given),
        Rows::Replies => reply_told(alloc, given),
    }
}

fn event_told(alloc: Global, given: &str) -> Result<String, AllocError> {
    match event_of(alloc, given) {
        Some(event) => told_again(alloc, event),
        None => String::from_str(alloc, "no event"),
    }
}

// The copy of an event's ask in words, with its resource.
fn told_again(alloc: Global, event: Event<u32>) -> Result<String, AllocError> {
    let (ask, resource) = parts_of(event);
    with_resource(alloc, asked(alloc, ask)?, resource)
}

fn asked(alloc: Global, ask: Option<Ask>) -> Result<String, AllocError> {
    match ask {
        Some(ask) => ask_text(alloc, &ask),
        None => String::from_str(alloc, "none"),
    }
}

fn reply_told(alloc: Global, given: &str) -> Result<String, AllocError> {
    match reply_of(given) {
        Some(reply) => answered(alloc, reply),
        None => String::from_str(alloc, "no reply"),
    }
}

// The answer of a reply in words, with its resource.
fn answered(alloc: Global, reply: Reply<u32>) -> Result<String, AllocError> {
    let (answer, resource) = reply.plain();
    let text = answer_told(alloc, answer)?;
    with_resource(alloc, text, resource)
}

fn answer_told(alloc: Global, answer: Option<Answer>) -> Result<String, AllocError> {
    match answer {
        Some(answer) => answer_text(alloc, &answer),
        None => String::from_str(alloc, "none"),
    }
}
