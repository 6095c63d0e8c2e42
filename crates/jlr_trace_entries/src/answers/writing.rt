//! Writes answers.
ghost use Rattle.std.specs.Prelude.{◌≡◌, [], ◌∷◌, ◌++◌, OnOk, drop, take};
ghost use Rattle.jlr_trace_fields.specs.Spelling.{spelled_64};
ghost use Rattle.jlr_trace_fields.specs.Objects.{spelled_work};
ghost use Rattle.jlr_trace_entries.specs.Answers.{spelled_answer, AnswerCounts};

use crate::answers::detail::{put_handed, put_stat};
use jlr_machine::ask::Answer;
use jlr_trace_fields::number::{put_flag, put_i64, put_u8, put_u32, put_u64};
use jlr_trace_fields::parts::items::put_list;
use jlr_trace_fields::parts::object::put_work;
use jlr_trace_fields::parts::tables::put_fault;
use jlr_trace_fields::text::put_text;
use jlr_types::{ActionNo, Work};
use std::alloc::AllocError;

/// The number of an answer, which stands in front of the rest of it.
fn number_of(answer: &Answer) -> u8
    ensures { take 1 (spelled_answer answer.now) ≡ result ∷ [] }
{
    match answer {
        Answer::Done => 0,
        Answer::Handle(_) => 1,
        Answer::Truth(_) => 2,
        Answer::Int(_) => 3,
        Answer::Data(_) => 4,
        Answer::Wrote(_) => 5,
        Answer::Faulted(_) => 6,
        Answer::Names(_) => 7,
        Answer::Notes(_) => 8,
        Answer::Faults(_) => 9,
        Answer::Stat(_) => 10,
        Answer::Job { .. } => 11,
        Answer::AlreadyDone => 12,
        Answer::Prepared(_) => 13,
        Answer::Out(_) => 14,
        Answer::Handed(_) => 15,
        Answer::Refused(_) => 16,
    }
}

fn put_job(out: &mut Vec<u8>, action: ActionNo, work: Work) -> Result<(), AllocError>
    ensures { OnOk result (out.new.items ≡ out.old.items ++ (spelled_64 action ++ spelled_work work)) }
{
    put_u64(out, action.number())?;
    put_work(out, work)
}

/// Writes what stands behind the number of an answer.
fn put_body(out: &mut Vec<u8>, answer: &Answer) -> Result<(), AllocError>
    requires { AnswerCounts answer.now }
    ensures { OnOk result (out.new.items ≡ out.old.items ++ drop 1 (spelled_answer answer.now)) }
{
    match answer {
        Answer::Done | Answer::AlreadyDone => Ok(()),
        Answer::Handle(body) => put_u8(out, body.number()),
        Answer::Truth(body) => put_flag(out, *body),
        Answer::Int(body) => put_i64(out, *body),
        Answer::Data(body) => put_text(out, body.as_slice()),
        Answer::Wrote(body) => put_u8(out, body.number()),
        Answer::Faulted(body) => put_fault(out, *body),
        Answer::Names(body) => put_list(out, body.as_slice()),
        Answer::Notes(body) => put_list(out, body.as_slice()),
        Answer::Faults(body) => put_list(out, body.as_slice()),
        Answer::Stat(body) => put_stat(out, body),
        Answer::Job { action, work } => put_job(out, *action, *work),
        Answer::Prepared(body) => put_u32(out, body.number()),
        Answer::Out(body) => put_u32(out, body.number()),
        Answer::Handed(body) => put_handed(out, *body),
        Answer::Refused(body) => put_u8(out, body.number()),
    }
}

/// Writes an answer.
pub(crate) fn put_answer(out: &mut Vec<u8>, answer: &Answer) -> Result<(), AllocError>
    requires { AnswerCounts answer.now }
    ensures { OnOk result (out.new.items ≡ out.old.items ++ spelled_answer answer.now) }
{
    put_u8(out, number_of(answer))?;
    put_body(out, answer)
}
