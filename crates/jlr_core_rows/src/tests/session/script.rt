//! What becomes of an open, of the calls on what it opens, and of its finish.
use jlr_device::script::{Script, ScriptDevice, Step};
use jlr_types::Fault;
use std::alloc::Global;

/// What becomes of the first open.
#[derive(Clone, Copy)]
pub(super) struct Plan {
    pub opened: Result<(), Fault>,
    pub calls: &'static [Call],
    pub finished: Result<(), Fault>,
    /// The failures before.
    pub failed: u64,
}

pub(super) const WELL: Plan = Plan {
    opened: Ok(()),
    calls: &[],
    finished: Ok(()),
    failed: 0,
};

/// What a call on a resource does.
#[derive(Clone, Copy)]
pub(super) enum Call {
    Give(&'static [u8]),
    Take(usize),
    Fail(Fault),
}

pub(super) fn device_of(alloc: Global, plan: &Plan) -> Option<ScriptDevice> {
    let mut steps = Vec::new(alloc);
    for call in plan.calls {
        steps.push(step_of(alloc, *call)?).ok()?;
    }
    let script = Script {
        opened: plan.opened,
        steps,
        finished: plan.finished,
    };
    let mut scripts = Vec::new(alloc);
    scripts.push(script).ok()?;
    Some(ScriptDevice::new(scripts, plan.failed))
}

fn step_of(alloc: Global, call: Call) -> Option<Step> {
    match call {
        Call::Give(bytes) => Some(Step::Bytes(bytes.to_vec(alloc).ok()?)),
        Call::Take(count) => Some(Step::Take(count)),
        Call::Fail(fault) => Some(Step::Fail(fault)),
    }
}
