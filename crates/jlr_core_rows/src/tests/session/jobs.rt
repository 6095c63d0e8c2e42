//! Jobs without a session: what the work of one that was taken up comes to.
use super::script::{Plan, WELL, device_of};
use jlr_cleaner::Job;
use jlr_device::Mode;
use jlr_device::guarded::guarded_open;
use jlr_device::script::ScriptResource;
use jlr_event::event::Event;
use jlr_machine::ask::{Ask, Outcome};
use jlr_session::job::carry_out;
use jlr_types::{ActionNo, Fault, Work};
use std::alloc::Global;
use std::test::Fail;

/// Whether a note or a resource is told to have ended so, by whom its job was done and by its number.
fn tells(by: u8, action: u64, resource: Option<ScriptResource>, outcome: Outcome) -> bool {
    let job = Job {
        action: ActionNo::new(action),
        work: Work::Note(5),
        resource,
    };
    let Event::Ask(ask) = carry_out(by, job) else {
        return false;
    };
    match ask.into_ask() {
        Ask::Finish {
            by: teller,
            action: number,
            outcome: end,
        } => teller == by && number.number() == action && end == outcome,
        _ => false,
    }
}

fn opened(alloc: Global, plan: &Plan) -> Option<ScriptResource> {
    guarded_open(&mut device_of(alloc, plan)?, Mode::Write, "a").ok()
}

// Not in rows of sessions, where no job is done by the cleaner.
#[test]
fn a_job_tells_how_its_resource_ended(rt: HostRuntime) -> Result<(), Fail> {
    let plan = Plan {
        finished: Err(Fault::Denied),
        ..WELL
    };
    // Without its resource the second job would end well.
    let resource = opened(rt.alloc(), &plan);
    if tells(2, 9, resource, Outcome::Failed(Fault::Denied)) && tells(255, 8, None, Outcome::Ok) {
        return Ok(());
    }
    Err(Fail::from("a job is told otherwise"))
}
