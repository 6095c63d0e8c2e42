//! Calls by kind: each is one event of the heap, and tells its answer.
ghost use Rattle.std.specs.Prelude.{◌≡◌, MatchOption, IfSome, None, Some, false, is_none, true};
ghost use Rattle.jlr_event.specs.Events.{ask_of};
ghost use Rattle.jlr_steps.specs.Events.{carries_none};
ghost use Rattle.jlr_embed.specs.Kinds.{is_faults, is_handle, is_integer, is_job_answer, is_names, is_notes, is_lent};
ghost use Rattle.jlr_embed.specs.Kinds.{is_stat};
ghost use Rattle.jlr_embed.specs.Kinds.{is_told, is_truth, kind_asked, suits};
ghost use Rattle.jlr_embed.specs.Calls.{HandsOverOnce, Marks};
ghost use Rattle.jlr_embed.specs.OneEvent.{AskedOnce, Carried};
ghost use Rattle.jlr_embed.specs.Tells.{IsBare, TellsHanded, TellsProgress};
ghost use Rattle.jlr_embed.specs.Ways.{Adopts, EndsOnly, EndsCarrying, GivesCounts, GivesFailure, GivesHandle};
ghost use Rattle.jlr_embed.specs.Ways.{GivesInteger};
ghost use Rattle.jlr_embed.specs.Ways.{GivesJob, GivesName, GivesNote, GivesToken, GivesTruth};

use crate::handle::handle::Heap;
use crate::handle::out::{Counts, Failed, Taken};
use crate::handle::status::CLOSED;
use crate::handle::tell;
use jlr_event::event::Event;
use jlr_machine::ask::{Answer, Ask};
use std::alloc::Global;
use std::mem;

/// One ask that carries no token, where the handle is open.
#[inline(always)]
fn ask(alloc: Global, heap: &mut Heap, asked: &Ask) -> Option<Answer>
    requires plain { carries_none asked.now ≡ true }
    ensures asked { MatchOption result ((heap.old.value ≡ None) × (heap.new.value ≡ None))
        (λ answer. AskedOnce heap.old.value (Event.Ask asked.now) answer heap.new.value) }
    ensures kind { IfSome result (λ answer. is_told (kind_asked (Some asked.now)) answer ≡ true) }
{
    match heap.take(alloc) {
        Some(mut open) => {
            let answer = open.answer(asked);
            heap.hold(open);
            Some(answer)
        }
        None => None,
    }
}

/// The same for one that makes objects.
#[inline(always)]
fn make(alloc: Global, heap: &mut Heap, asked: &Ask) -> Option<Answer>
    requires plain { carries_none asked.now ≡ true }
    ensures asked { MatchOption result ((heap.old.value ≡ None) × (heap.new.value ≡ None))
        (λ answer. AskedOnce heap.old.value (Event.Ask asked.now) answer heap.new.value) }
    ensures kind { IfSome result (λ answer. is_told (kind_asked (Some asked.now)) answer ≡ true) }
{
    match heap.take(alloc) {
        Some(mut open) => {
            let answer = open.make(asked);
            heap.hold(open);
            Some(answer)
        }
        None => None,
    }
}

/// One event that may carry a token, where the handle is open.
fn carry(alloc: Global, heap: &mut Heap, event: Event<u64>) -> Option<(Answer, Option<u64>)>
    requires asks { is_none (ask_of event) ≡ false }
    ensures asked { MatchOption result ((heap.old.value ≡ None) × (heap.new.value ≡ None))
        (λ told. Carried heap.old.value event told.0 told.1 heap.new.value) }
    ensures kind { IfSome result (λ told. is_told (kind_asked (ask_of event)) told.0 ≡ true) }
    ensures suits { IfSome result (λ told. suits told.0 told.1 ≡ true) }
{
    match heap.take(alloc) {
        Some(mut open) => {
            let told = open.carry(event);
            heap.hold(open);
            Some(told)
        }
        None => None,
    }
}

/// A call that tells nothing but how it ended.
#[inline(always)]
pub fn does(alloc: Global, heap: &mut Heap, asked: Ask) -> u32
    requires plain { carries_none asked ≡ true }
    requires bare { IsBare (kind_asked (Some asked)) }
    ensures { EndsOnly heap.old.value (Event.Ask asked) result heap.new.value }
{
    let told = match ask(alloc, heap, &asked) {
        Some(answer) => tell::end(answer),
        None => CLOSED,
    };
    mem::forget(asked);
    told
}

/// A call that gives a handle.
#[inline(always)]
pub fn gives(alloc: Global, heap: &mut Heap, asked: Ask, out: &mut u8) -> u32
    requires plain { carries_none asked ≡ true }
    requires kind { kind_asked (Some asked) ≡ is_handle }
    ensures { GivesHandle heap.old.value (Event.Ask asked) result out.old out.new heap.new.value }
{
    let told = match ask(alloc, heap, &asked) {
        Some(answer) => tell::handle(answer, out),
        None => CLOSED,
    };
    mem::forget(asked);
    told
}

/// A call that makes an object, and gives a handle for it.
#[inline(always)]
pub fn makes(alloc: Global, heap: &mut Heap, asked: Ask, out: &mut u8) -> u32
    requires plain { carries_none asked ≡ true }
    requires kind { kind_asked (Some asked) ≡ is_handle }
    ensures { GivesHandle heap.old.value (Event.Ask asked) result out.old out.new heap.new.value }
{
    let told = match make(alloc, heap, &asked) {
        Some(answer) => tell::handle(answer, out),
        None => CLOSED,
    };
    mem::forget(asked);
    told
}

/// A call that tells a truth.
#[inline(always)]
pub fn tells(alloc: Global, heap: &mut Heap, asked: Ask, out: &mut bool) -> u32
    requires plain { carries_none asked ≡ true }
    requires kind { kind_asked (Some asked) ≡ is_truth }
    ensures { GivesTruth heap.old.value (Event.Ask asked) result out.old out.new heap.new.value }
{
    let told = match ask(alloc, heap, &asked) {
        Some(answer) => tell::truth(&answer, out),
        None => CLOSED,
    };
    mem::forget(asked);
    told
}

/// A call that reads an integer.
#[inline(always)]
pub fn reads(alloc: Global, heap: &mut Heap, asked: Ask, out: &mut i64) -> u32
    requires plain { carries_none asked ≡ true }
    requires kind { kind_asked (Some asked) ≡ is_integer }
    ensures { GivesInteger heap.old.value (Event.Ask asked) result out.old out.new heap.new.value }
{
    let told = match ask(alloc, heap, &asked) {
        Some(answer) => tell::integer(&answer, out),
        None => CLOSED,
    };
    mem::forget(asked);
    told
}

/// A call that tells counts.
pub fn counts(alloc: Global, heap: &mut Heap, asked: Ask, out: &mut Counts) -> u32
    requires plain { carries_none asked ≡ true }
    requires kind { kind_asked (Some asked) ≡ is_stat }
    ensures { GivesCounts heap.old.value (Event.Ask asked) result out.old out.new heap.new.value }
{
    let told = match ask(alloc, heap, &asked) {
        Some(answer) => tell::counts(&answer, out),
        None => CLOSED,
    };
    mem::forget(asked);
    told
}

/// A call that tells the name of an index, with zeros behind it.
pub fn names(alloc: Global, heap: &mut Heap, asked: Ask, index: usize, out: &mut [u8; 33]) -> u32
    requires plain { carries_none asked ≡ true }
    requires kind { kind_asked (Some asked) ≡ is_names }
    ensures { GivesName index heap.old.value (Event.Ask asked) result out.old out.new heap.new.value }
{
    let told = match ask(alloc, heap, &asked) {
        Some(answer) => tell::name(&answer, index, out),
        None => CLOSED,
    };
    mem::forget(asked);
    told
}

/// A call that tells the note of an index.
pub fn notes(alloc: Global, heap: &mut Heap, asked: Ask, index: usize, out: &mut u32) -> u32
    requires plain { carries_none asked ≡ true }
    requires kind { kind_asked (Some asked) ≡ is_notes }
    ensures { GivesNote index heap.old.value (Event.Ask asked) result out.old out.new heap.new.value }
{
    let told = match ask(alloc, heap, &asked) {
        Some(answer) => tell::note(&answer, index, out),
        None => CLOSED,
    };
    mem::forget(asked);
    told
}

/// A call that tells the failure of an index.
pub fn failures(alloc: Global, heap: &mut Heap, asked: Ask, index: usize, out: &mut Failed) -> u32
    requires plain { carries_none asked ≡ true }
    requires kind { kind_asked (Some asked) ≡ is_faults }
    ensures { GivesFailure index heap.old.value (Event.Ask asked) result out.old out.new heap.new.value }
{
    let told = match ask(alloc, heap, &asked) {
        Some(answer) => tell::failure(&answer, index, out),
        None => CLOSED,
    };
    mem::forget(asked);
    told
}

/// A call that may carry a token, and tells nothing but how it ended.
pub fn brings(alloc: Global, heap: &mut Heap, event: Event<u64>) -> u32
    requires bare { IsBare (kind_asked (ask_of event)) }
    requires asks { is_none (ask_of event) ≡ false }
    ensures { EndsCarrying heap.old.value event result heap.new.value }
{
    match carry(alloc, heap, event) {
        Some((answer, _)) => tell::end(answer),
        None => CLOSED,
    }
}

/// A call that brings a token, and gives a handle.
pub fn adopts(alloc: Global, heap: &mut Heap, event: Event<u64>, out: &mut u8) -> u32
    requires kind { kind_asked (ask_of event) ≡ is_handle }
    requires asks { is_none (ask_of event) ≡ false }
    ensures { Adopts heap.old.value event result out.old out.new heap.new.value }
{
    match carry(alloc, heap, event) {
        Some((answer, token)) => tell::handle(answer, out),
        None => CLOSED,
    }
}

/// A call that tells a job.
pub fn takes(alloc: Global, heap: &mut Heap, event: Event<u64>, out: &mut Taken) -> u32
    requires kind { kind_asked (ask_of event) ≡ is_job_answer }
    requires asks { is_none (ask_of event) ≡ false }
    ensures { GivesJob heap.old.value event result out.old out.new heap.new.value }
{
    match carry(alloc, heap, event) {
        Some((answer, token)) => tell::job(&answer, token, out),
        None => CLOSED,
    }
}

/// A call that gives a token out.
pub fn lends(alloc: Global, heap: &mut Heap, event: Event<u64>, out: &mut u64) -> u32
    requires kind { kind_asked (ask_of event) ≡ is_lent }
    requires asks { is_none (ask_of event) ≡ false }
    ensures { GivesToken heap.old.value event result out.old out.new heap.new.value }
{
    match carry(alloc, heap, event) {
        Some((answer, token)) => tell::token(&answer, token, out),
        None => CLOSED,
    }
}

/// A step of the handler.
#[inline(always)]
pub fn hands_over(alloc: Global, heap: &mut Heap) -> u32
    ensures { HandsOverOnce heap.old.value (result ≡ 32) (TellsHanded result) heap.new.value }
{
    match heap.take(alloc) {
        Some(mut open) => {
            let what = open.hand_over();
            heap.hold(open);
            tell::handed(what)
        }
        None => CLOSED,
    }
}

/// A piece of marking of at most so many ticks.
pub fn marks(alloc: Global, heap: &mut Heap, budget: u32, done: &mut bool) -> u32
    ensures { Marks heap.old.value budget ((result ≡ 32) × (done.new ≡ done.old))
        (TellsProgress result done.old done.new) heap.new.value }
{
    match heap.take(alloc) {
        Some(mut open) => {
            let came = open.mark(budget);
            heap.hold(open);
            tell::progress(came, done)
        }
        None => CLOSED,
    }
}
