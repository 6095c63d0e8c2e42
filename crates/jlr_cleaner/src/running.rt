//! The jobs that run.
ghost use Rattle.std.specs.Prelude.{◌≡◌, ◌+◌, ◌≤◌, [], false, length, position, nat_lt, ◌==◌, vec_capacity, IfNone};
ghost use Rattle.std.specs.Prelude.{IfOk, IfSome, Some};
ghost use Rattle.std.specs.List.{position_or_len};
ghost use Rattle.jlr_machine.specs.Lookups.{with_job, without_job};
ghost use Rattle.jlr_cleaner.specs.Jobs.{AreApart, is_job_of, is_running, job_in, runs_job};

use jlr_machine::copy::copy_slice;
use jlr_machine::items::Items;
use jlr_machine::machine::Job;
use jlr_types::{ActionNo, Work};
use std::alloc::{AllocError, Global};
use std::marker::Model;

/// A place for each number that a taker may have.
const TAKERS: usize = 256;

/// The jobs that run, with rising actions.
#[derive(Drop)]
pub(crate) struct Running {
    jobs: Vec<Job>,
}

impl Model for Running {
    ghost use Rattle.std.specs.Prelude.{List, ◌≤◌, vec_capacity};
    ghost use Rattle.jlr_machine.specs.declared.machine.Job.{Job};
    ghost use Rattle.jlr_cleaner.specs.Jobs.{AreApart};

    ghost Value = { List Job };

    ghost view = { λ a. a.jobs.items };

    ghost invariant = { λ a. AreApart a.jobs.items × (256 ≤ vec_capacity a.jobs) };
}

impl Running {
    /// No job runs; there is room for all that may.
    pub(crate) fn new(alloc: Global) -> Result<Self, AllocError>
        ensures { IfOk result (λ running. running ≡ []) }
    {
        Ok(Running {
            jobs: Vec::with_capacity(alloc, TAKERS)?,
        })
    }

    pub(crate) fn is_running(&self, action: ActionNo) -> bool
        ensures { result ≡ is_running self.now action }
    {
        is_running(&self.jobs, action)
    }

    pub(crate) fn runs_job(&self, by: u8) -> bool
        ensures { result ≡ runs_job self.now by }
    {
        runs_job(&self.jobs, by)
    }

    /// A taker that runs no job takes up an action that runs in none.
    pub(crate) fn start(&mut self, job: Job)
        requires action { is_running self.old job.action ≡ false }
        requires taker { runs_job self.old job.by ≡ false }
        ensures { self.new ≡ with_job self.old job }
    {
        add(&mut self.jobs, job);
    }

    /// Ends the job with this action, if it runs and is this taker's.
    pub(crate) fn end(&mut self, by: u8, action: ActionNo) -> Option<Job>
        ensures none { IfNone result ((is_job_of self.old by action ≡ false) × (self.new ≡ self.old)) }
        ensures job { IfSome result (λ job. (job_in self.old action ≡ Some job) × (job.by ≡ by)) }
        ensures ended { IfSome result (λ job. self.new ≡ without_job self.old action) }
        ensures one_less { IfSome result (λ job. length self.new + 1 ≡ length self.old) }
    {
        remove(&mut self.jobs, by, action)
    }

    pub(crate) fn image(&self, alloc: Global) -> Result<Items<Job>, AllocError>
        ensures { IfOk result (λ items. items ≡ self.now) }
    {
        Ok(Items::from_vec(copy_slice(alloc, &self.jobs)?))
    }
}

fn add(jobs: &mut Vec<Job>, job: Job)
    requires apart { AreApart jobs.old.items }
    requires room { 256 ≤ vec_capacity jobs.old }
    requires action { is_running jobs.old.items job.action ≡ false }
    requires taker { runs_job jobs.old.items job.by ≡ false }
    ensures added { jobs.new.items ≡ with_job jobs.old.items job }
    ensures apart { AreApart jobs.new.items }
    ensures room { 256 ≤ vec_capacity jobs.new }
{
    let place = place_of(jobs, job.action);
    let _ = jobs.insert(place, job);
}

fn remove(jobs: &mut Vec<Job>, by: u8, action: ActionNo) -> Option<Job>
    requires apart { AreApart jobs.old.items }
    ensures none { IfNone result ((is_job_of jobs.old.items by action ≡ false) × (jobs.new.items ≡ jobs.old.items)) }
    ensures job { IfSome result (λ job. (job_in jobs.old.items action ≡ Some job) × (job.by ≡ by)) }
    ensures ended { IfSome result (λ job. jobs.new.items ≡ without_job jobs.old.items action) }
    ensures one_less { IfSome result (λ job. length jobs.new.items + 1 ≡ length jobs.old.items) }
    ensures apart { AreApart jobs.new.items }
    ensures room { vec_capacity jobs.new ≡ vec_capacity jobs.old }
{
    match position(jobs, action) {
        None => None,
        Some(place) => {
            if jobs[place].by != by {
                return None;
            }
            Some(jobs.remove(place))
        }
    }
}

/// Where the job with this action stands.
fn position(jobs: &[Job], action: ActionNo) -> Option<usize>
    ensures { result ≡ position (λ job. job.action == action) jobs.now }
{
    let number = action.number();
    jobs.iter().position(|job| job.action.number() == number)
}

/// The first job with an action above this one.
fn above(jobs: &[Job], action: ActionNo) -> Option<usize>
    ensures { result ≡ position (λ job. nat_lt action job.action) jobs.now }
{
    let number = action.number();
    jobs.iter().position(|job| number < job.action.number())
}

/// Where a job with this action belongs.
fn place_of(jobs: &[Job], action: ActionNo) -> usize
    ensures place { result ≡ position_or_len (λ job. nat_lt action job.action) jobs.now }
    ensures within { result ≤ length jobs.now }
{
    above(jobs, action).unwrap_or(jobs.len())
}

fn is_running(jobs: &[Job], action: ActionNo) -> bool
    ensures { result ≡ is_running jobs.now action }
{
    position(jobs, action).is_some()
}

fn runs_job(jobs: &[Job], by: u8) -> bool
    ensures { result ≡ runs_job jobs.now by }
{
    jobs.iter().any(|job| job.by == by)
}
