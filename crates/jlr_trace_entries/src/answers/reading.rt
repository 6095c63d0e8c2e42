//! Reads answers.
ghost use Rattle.jlr_trace_fields.specs.Reading.{Reads};
ghost use Rattle.jlr_trace_entries.specs.declared.answers.tag.Tag.TheVariants.{Handle as TagHandle, Truth as TagTruth};
ghost use Rattle.jlr_trace_entries.specs.declared.answers.tag.Tag.TheVariants.{Int as TagInt};
ghost use Rattle.jlr_trace_entries.specs.declared.answers.tag.Tag.TheVariants.{Data as TagData, Wrote as TagWrote};
ghost use Rattle.jlr_trace_entries.specs.declared.answers.tag.Tag.TheVariants.{Faulted as TagFaulted};
ghost use Rattle.jlr_trace_entries.specs.declared.answers.tag.Tag.TheVariants.{Names as TagNames};
ghost use Rattle.jlr_trace_entries.specs.declared.answers.tag.Tag.TheVariants.{Notes as TagNotes, Faults as TagFaults};
ghost use Rattle.jlr_trace_entries.specs.declared.answers.tag.Tag.TheVariants.{Stat as TagStat, Job as TagJob};
ghost use Rattle.jlr_trace_entries.specs.declared.answers.tag.Tag.TheVariants.{Prepared as TagPrepared, Out as TagOut};
ghost use Rattle.jlr_trace_entries.specs.declared.answers.tag.Tag.TheVariants.{Handed as TagHanded};
ghost use Rattle.jlr_trace_entries.specs.declared.answers.tag.Tag.TheVariants.{Refused as TagRefused};
ghost use Rattle.jlr_trace_entries.specs.Answers.{answer_read, answer_body};

use crate::answers::detail::{handed_at, refusal_at, stat_at};
use crate::answers::tag::{Tag, tag_at};
use jlr_machine::ask::Answer;
use jlr_machine::text::WriteCount;
use jlr_trace_fields::cursor::{
    take_action, take_data, take_flag, take_handle, take_i64, take_rid, take_within,
};
use jlr_trace_fields::fault::ReadError;
use jlr_trace_fields::parts::items::take_list;
use jlr_trace_fields::parts::object::take_work;
use jlr_trace_fields::parts::tables::take_fault;
use std::alloc::Global;

fn handle_answer(bytes: &mut &[u8]) -> Result<Answer, ReadError>
    ensures { Reads (λ x. x) result bytes.new.now (answer_body TagHandle bytes.old.now) }
{
    let body = take_handle(bytes)?;
    Ok(Answer::Handle(body))
}

fn truth_answer(bytes: &mut &[u8]) -> Result<Answer, ReadError>
    ensures { Reads (λ x. x) result bytes.new.now (answer_body TagTruth bytes.old.now) }
{
    let body = take_flag(bytes)?;
    Ok(Answer::Truth(body))
}

fn int_answer(bytes: &mut &[u8]) -> Result<Answer, ReadError>
    ensures { Reads (λ x. x) result bytes.new.now (answer_body TagInt bytes.old.now) }
{
    let body = take_i64(bytes)?;
    Ok(Answer::Int(body))
}

fn data_answer(alloc: Global, bytes: &mut &[u8]) -> Result<Answer, ReadError>
    ensures { Reads (λ x. x) result bytes.new.now (answer_body TagData bytes.old.now) }
{
    let body = take_data(alloc, bytes)?;
    Ok(Answer::Data(body))
}

fn wrote_answer(bytes: &mut &[u8]) -> Result<Answer, ReadError>
    ensures { Reads (λ x. x) result bytes.new.now (answer_body TagWrote bytes.old.now) }
{
    let body = take_within(0, 200, bytes)?;
    Ok(Answer::Wrote(WriteCount::new(body).unwrap()))
}

fn faulted_answer(bytes: &mut &[u8]) -> Result<Answer, ReadError>
    ensures { Reads (λ x. x) result bytes.new.now (answer_body TagFaulted bytes.old.now) }
{
    let body = take_fault(bytes)?;
    Ok(Answer::Faulted(body))
}

fn names_answer(alloc: Global, bytes: &mut &[u8]) -> Result<Answer, ReadError>
    ensures { Reads (λ x. x) result bytes.new.now (answer_body TagNames bytes.old.now) }
{
    let body = take_list(alloc, bytes)?;
    Ok(Answer::Names(body))
}

fn notes_answer(alloc: Global, bytes: &mut &[u8]) -> Result<Answer, ReadError>
    ensures { Reads (λ x. x) result bytes.new.now (answer_body TagNotes bytes.old.now) }
{
    let body = take_list(alloc, bytes)?;
    Ok(Answer::Notes(body))
}

fn faults_answer(alloc: Global, bytes: &mut &[u8]) -> Result<Answer, ReadError>
    ensures { Reads (λ x. x) result bytes.new.now (answer_body TagFaults bytes.old.now) }
{
    let body = take_list(alloc, bytes)?;
    Ok(Answer::Faults(body))
}

fn stat_answer(bytes: &mut &[u8]) -> Result<Answer, ReadError>
    ensures { Reads (λ x. x) result bytes.new.now (answer_body TagStat bytes.old.now) }
{
    let body = stat_at(bytes)?;
    Ok(Answer::Stat(body))
}

fn job_answer(bytes: &mut &[u8]) -> Result<Answer, ReadError>
    ensures { Reads (λ x. x) result bytes.new.now (answer_body TagJob bytes.old.now) }
{
    let action = take_action(bytes)?;
    let work = take_work(bytes)?;
    Ok(Answer::Job { action, work })
}

fn prepared_answer(bytes: &mut &[u8]) -> Result<Answer, ReadError>
    ensures { Reads (λ x. x) result bytes.new.now (answer_body TagPrepared bytes.old.now) }
{
    let body = take_rid(bytes)?;
    Ok(Answer::Prepared(body))
}

fn out_answer(bytes: &mut &[u8]) -> Result<Answer, ReadError>
    ensures { Reads (λ x. x) result bytes.new.now (answer_body TagOut bytes.old.now) }
{
    let body = take_rid(bytes)?;
    Ok(Answer::Out(body))
}

fn handed_answer(bytes: &mut &[u8]) -> Result<Answer, ReadError>
    ensures { Reads (λ x. x) result bytes.new.now (answer_body TagHanded bytes.old.now) }
{
    let body = handed_at(bytes)?;
    Ok(Answer::Handed(body))
}

fn refused_answer(bytes: &mut &[u8]) -> Result<Answer, ReadError>
    ensures { Reads (λ x. x) result bytes.new.now (answer_body TagRefused bytes.old.now) }
{
    let body = refusal_at(bytes)?;
    Ok(Answer::Refused(body))
}

/// An answer from the front: its number, and its fields.
#[tactic(auto, unfolding(crate::specs::Answers::answer_read))]
pub(crate) fn take_answer(alloc: Global, bytes: &mut &[u8]) -> Result<Answer, ReadError>
    ensures { Reads (λ x. x) result bytes.new.now (answer_read bytes.old.now) }
{
    let tag = tag_at(bytes)?;
    match tag {
        Tag::Done => Ok(Answer::Done),
        Tag::Handle => handle_answer(bytes),
        Tag::Truth => truth_answer(bytes),
        Tag::Int => int_answer(bytes),
        Tag::Data => data_answer(alloc, bytes),
        Tag::Wrote => wrote_answer(bytes),
        Tag::Faulted => faulted_answer(bytes),
        Tag::Names => names_answer(alloc, bytes),
        Tag::Notes => notes_answer(alloc, bytes),
        Tag::Faults => faults_answer(alloc, bytes),
        Tag::Stat => stat_answer(bytes),
        Tag::Job => job_answer(bytes),
        Tag::AlreadyDone => Ok(Answer::AlreadyDone),
        Tag::Prepared => prepared_answer(bytes),
        Tag::Out => out_answer(bytes),
        Tag::Handed => handed_answer(bytes),
        Tag::Refused => refused_answer(bytes),
    }
}
