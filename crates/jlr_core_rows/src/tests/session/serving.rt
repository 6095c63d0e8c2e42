//! Whole sessions over a port and a device: joins, leaves, ends, cuts, readers and writers that fail.
use super::play::play;
use super::row::{Place, Row};
use super::seat::Manner;
use jlr_session::shell::SessionEnd;
use jlr_types::Refusal;
use std::test::Fail;

const ROWS: &[Row] = &[
    Row::Case("each cut asks the same"),
    Row::Cuts(&[1, 7, 4096]),
    Row::Play(
        "queue\nopen w a\nput 1\nwrite 1 0102\nclose 1\nclose 1\nread 1 5\nbye\nnames\n",
        SessionEnd::Bye,
        "ok\n= 1\n! 15\nwrote 2\nok\nok\n! 12\nok\n",
    ),
    Row::Asked(
        "Join; MakeQueue; Prepare; Opened ok; Out; In wrote; Close; Finish ok; Close; Out; Leave",
    ),
    Row::Settled(8),
    Row::Case("a read may fail at each place"),
    Row::Step(5),
    Row::EachReadFails(
        "queue\nopen w a\nput 1\nwrite 1 0102\nclose 1\nclose 1\nread 1 5\n",
        "ok\n= 1\n! 15\nwrote 2\nok\nok\n! 12\n",
    ),
    Row::Case("a write may fail at each place"),
    Row::EachWriteFails(
        "queue\nopen w a\nput 1\nwrite 1 0102\nclose 1\nclose 1\nread 1 5\nbye\nnames\n",
        "ok\n= 1\n! 15\nwrote 2\nok\nok\n! 12\nok\n",
    ),
    Row::Case("a command whose reply fails stands"),
    Row::Room(7),
    Row::Play(
        "open w a\nqueue\nwrite 1 0102\nclose 1\n",
        SessionEnd::WriteFault,
        "= 1\nok\n",
    ),
    Row::Asked("Join; Prepare; Opened ok; MakeQueue; Out; In wrote; Leave"),
    Row::Settled(2),
    Row::Play(
        "open w a\nbind f 1\nwrite 1 0102\n",
        SessionEnd::WriteFault,
        "= 1\nok\n",
    ),
    Row::Asked("Join; Prepare; Opened ok; Bind; Out; In wrote; Leave"),
    Row::Settled(2),
    Row::Case("a failed flush ends a session"),
    Row::Room(99),
    Row::Flushes(1),
    Row::Play("queue\nqueue\nqueue\n", SessionEnd::WriteFault, "ok\nok\n"),
    Row::Asked("Join; MakeQueue; MakeQueue; Leave"),
    Row::Settled(1),
    Row::Case("a refused join is told, nothing is read, and nobody leaves"),
    Row::On(Place::Seat(Manner::RefusesToJoin)),
    Row::Room(99),
    Row::Play(
        "queue\n",
        SessionEnd::NotJoined(Refusal::NoSession),
        "! 13\n",
    ),
    Row::Unread(6),
    Row::Asked("Join"),
    Row::Settled(1),
    Row::Room(3),
    Row::Play("queue\n", SessionEnd::WriteFault, "! 1"),
    Row::Unread(6),
    Row::Asked("Join"),
    Row::Settled(0),
    Row::Case("sessions end as they should"),
    Row::Play("", SessionEnd::End, ""),
    Row::Asked("Join; Leave"),
    Row::Play("queue\n", SessionEnd::End, "ok\n"),
    Row::Asked("Join; MakeQueue; Leave"),
    Row::Play("\nqueue", SessionEnd::Truncated, "! 15\n! 15\n"),
    Row::Asked("Join; Leave"),
    Row::Play("bye\nqueue\n", SessionEnd::Bye, "ok\n"),
    Row::Asked("Join; Leave"),
    Row::Case("a reply of a piece of marking ends a session"),
    Row::Play("queue\ngc\nqueue\n", SessionEnd::WriteFault, "ok\n"),
    Row::Asked("Join; MakeQueue; Full; Leave"),
    Row::Case("an answer that has no line ends a session"),
    Row::Play("queue\nstat\nqueue\n", SessionEnd::WriteFault, "ok\n"),
    Row::Asked("Join; MakeQueue; Stat; Leave"),
    Row::Case("lines of more than 512 bytes ask nothing"),
    Row::Long(512),
    Row::Play("~\nnames\n", SessionEnd::End, "! 15\nok\n"),
    Row::Asked("Join; Names; Leave"),
    Row::Long(513),
    Row::Play("~\nnames\n", SessionEnd::End, "! 16\nok\n"),
    Row::Asked("Join; Names; Leave"),
    Row::Long(9000),
    Row::Play("~\nnames\n", SessionEnd::End, "! 16\nok\n"),
    Row::Asked("Join; Names; Leave"),
];

#[test]
fn sessions_of_a_seat(rt: HostRuntime) -> Result<(), Fail> {
    play(rt.alloc(), ROWS)
}
