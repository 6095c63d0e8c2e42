//! Machines.
ghost use Rattle.jlr_trace_fields.specs.Records.{CallFits, NameFits};
ghost use Rattle.jlr_trace_entries.specs.Images.{counts_of, CountsFit};
ghost use Rattle.jlr_trace.specs.Ranges.{MachineRange, SessionRange};

use crate::ranges::list::{Ranged, all_in_range};
use crate::ranges::object::work_in_range;
use jlr_machine::machine::{Binding, Call, Failure, Job, Machine, Resource, Session};
use jlr_machine::text::Name;

impl Ranged for Name {
    ghost use Rattle.jlr_trace_fields.specs.Records.{NameFits};

    ghost Range = { NameFits };

    fn in_range(&self) {
        self.is_name();
    }
}

impl Ranged for Binding {
    ghost use Rattle.jlr_trace_fields.specs.Records.{BindingFits};

    ghost Range = { BindingFits };

    fn in_range(&self) {
        self.name.in_range();
        self.slot.in_range();
    }
}

impl Ranged for Failure {
    ghost use Rattle.jlr_trace_fields.specs.Records.{FailureFits};

    ghost Range = { FailureFits };

    fn in_range(&self) {
        let _action = self.action.number();
    }
}

impl Ranged for Job {
    ghost use Rattle.jlr_trace_fields.specs.Records.{JobFits};

    ghost Range = { JobFits };

    fn in_range(&self) {
        let _action = self.action.number();
        let _by = self.by;
        work_in_range(self.work);
    }
}

impl Ranged for Resource {
    ghost use Rattle.jlr_trace_fields.specs.Records.{ResourceFits};

    ghost Range = { ResourceFits };

    fn in_range(&self) {
        let _rid = self.rid.number();
        let _action = self.action.number();
    }
}

fn call_in_range(call: Call)
    ensures { CallFits call }
{
    match call {
        Call::Free => {}
        Call::Opening(rid) => {
            let _rid = rid.number();
        }
        Call::Out(rid) => {
            let _rid = rid.number();
        }
        Call::Job(action) => {
            let _action = action.number();
        }
    }
}

fn session_in_range(session: &Session)
    ensures { SessionRange session.now }
{
    all_in_range(session.handles.as_slice());
    call_in_range(session.call);
}

impl Ranged for Option<Session> {
    ghost use Rattle.jlr_trace.specs.Ranges.{SeatRange};

    ghost Range = { SeatRange };

    fn in_range(&self) {
        if let Some(session) = self {
            session_in_range(session);
        }
    }
}

fn counts_in_range(machine: &Machine)
    ensures { CountsFit (counts_of machine.now) }
{
    let _next_action = machine.next_action;
    let _taken = machine.taken;
    let _ok = machine.ok;
    let _failed = machine.failed;
}

/// What the type of a machine says of the numbers in it.
pub(crate) fn machine_in_range(machine: &Machine)
    ensures { MachineRange machine.now }
{
    all_in_range(machine.objects.as_slice());
    all_in_range(machine.mutators.as_slice());
    all_in_range(machine.names.as_slice());
    all_in_range(machine.pending.as_slice());
    all_in_range(machine.line.as_slice());
    all_in_range(machine.jobs.as_slice());
    all_in_range(machine.resources.as_slice());
    all_in_range(machine.faults.as_slice());
    all_in_range(machine.notes.as_slice());
    counts_in_range(machine);
}
