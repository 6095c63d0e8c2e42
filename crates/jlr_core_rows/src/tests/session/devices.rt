//! Calls of devices and resources between asks: each may fail, and a full count makes none.
use super::play::play;
use super::row::{Place, Row};
use super::script::{Call, Plan, WELL};
use super::seat::Manner;
use jlr_session::shell::SessionEnd;
use jlr_types::Fault;
use std::test::Fail;

const ROWS: &[Row] = &[
    Row::Case("each call may fail: the first that is made, the second, the third, none"),
    Row::Device(Plan {
        opened: Err(Fault::Other),
        ..WELL
    }),
    Row::Play(
        "open w a\nwrite 1 0102\nclose 1\n",
        SessionEnd::End,
        "fault other\n! 12\nok\n",
    ),
    Row::Asked("Join; Prepare; Opened other; Out; Close; Leave"),
    Row::Device(Plan {
        calls: &[Call::Fail(Fault::Other)],
        ..WELL
    }),
    Row::Play(
        "open w a\nwrite 1 0102\nclose 1\n",
        SessionEnd::End,
        "= 1\nfault other\nok\n",
    ),
    Row::Asked("Join; Prepare; Opened ok; Out; In other; Close; Finish ok; Leave"),
    Row::Device(Plan {
        finished: Err(Fault::Other),
        calls: &[Call::Take(2)],
        ..WELL
    }),
    Row::Play(
        "open w a\nwrite 1 0102\nclose 1\n",
        SessionEnd::End,
        "= 1\nwrote 2\nfault other\n",
    ),
    Row::Asked("Join; Prepare; Opened ok; Out; In wrote; Close; Finish other; Leave"),
    Row::Device(Plan {
        calls: &[Call::Take(1)],
        ..WELL
    }),
    Row::Play(
        "open w a\nwrite 1 0102\nclose 1\n",
        SessionEnd::End,
        "= 1\nwrote 1\nok\n",
    ),
    Row::Asked("Join; Prepare; Opened ok; Out; In wrote; Close; Finish ok; Leave"),
    Row::Case("reads give what the steps give"),
    Row::Device(Plan {
        calls: &[Call::Fail(Fault::Denied), Call::Give(&[1, 2])],
        ..WELL
    }),
    Row::Play(
        "open r a\nread 1 4\nread 1 4\nread 1 4\nclose 1\nclose 1\nread 1 4\n",
        SessionEnd::End,
        "= 1\nfault denied\ndata 0102\nend\nok\nok\n! 12\n",
    ),
    Row::Asked(
        "Join; Prepare; Opened ok; Out; In denied; Out; In data; Out; In data; Close; Finish ok; Close; Out; Leave",
    ),
    Row::Case("a read gives at most what was asked"),
    Row::Device(Plan {
        calls: &[Call::Give(&[0xab; 250])],
        ..WELL
    }),
    Row::Long(1),
    Row::Play("open r a\nread 1 1\n", SessionEnd::End, "= 1\ndata ~\n"),
    Row::Long(199),
    Row::Play("open r a\nread 1 199\n", SessionEnd::End, "= 1\ndata ~\n"),
    Row::Long(200),
    Row::Play("open r a\nread 1 200\n", SessionEnd::End, "= 1\ndata ~\n"),
    Row::Case("sockets are joined as files are opened"),
    Row::Play("connect /a/b\n", SessionEnd::End, "= 1\n"),
    Row::Asked("Join; Prepare; Opened ok; Leave"),
    Row::Device(Plan {
        opened: Err(Fault::NotFound),
        ..WELL
    }),
    Row::Play("connect /a/b\n", SessionEnd::End, "fault notfound\n"),
    Row::Asked("Join; Prepare; Opened notfound; Leave"),
    Row::Case("a refused Prepare leaves the device alone"),
    Row::On(Place::Seat(Manner::RefusesToPrepare)),
    Row::Play("open w a\nwrite 1 00\n", SessionEnd::End, "! 19\n! 12\n"),
    Row::Asked("Join; Prepare; Out; Leave"),
    Row::Case("a resource that comes back with a refusal is dropped"),
    Row::On(Place::Seat(Manner::RefusesOpened)),
    Row::Play("open w a\nwrite 1 00\n", SessionEnd::End, "! 17\n! 12\n"),
    Row::Asked("Join; Prepare; Opened ok; Out; Leave"),
    Row::Case("an Out without its resource has no line"),
    Row::On(Place::Seat(Manner::ForgetsTheFile)),
    Row::Play("open w a\nwrite 1 00\n", SessionEnd::WriteFault, "= 1\n"),
    Row::Asked("Join; Prepare; Opened ok; Out; Leave"),
    Row::Case("a read whose room cannot be had checks nothing out"),
    Row::On(Place::Seat(Manner::HasNoRoom)),
    Row::Device(Plan {
        calls: &[Call::Take(1)],
        ..WELL
    }),
    Row::Play(
        "open w a\nread 1 4\nwrite 1 00\n",
        SessionEnd::End,
        "= 1\n! 1\nwrote 1\n",
    ),
    Row::Asked("Join; Prepare; Opened ok; Out; In wrote; Leave"),
    Row::Case("a full count makes no call"),
    Row::Device(Plan {
        failed: u64::MAX - 1,
        ..WELL
    }),
    Row::Play("open w a\n", SessionEnd::End, "= 1\n"),
    Row::Device(Plan {
        failed: u64::MAX,
        ..WELL
    }),
    Row::Play("open w a\n", SessionEnd::End, "fault other\n"),
    Row::Case("a note is cleaned well"),
    Row::Play("clean 2\n", SessionEnd::End, "ok\n"),
    Row::Asked("Join; Clean; Finish ok; Leave"),
];

#[test]
fn sessions_with_a_file(rt: HostRuntime) -> Result<(), Fail> {
    play(rt.alloc(), ROWS)
}
