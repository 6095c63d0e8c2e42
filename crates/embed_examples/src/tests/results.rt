//! What calls give, as replies.
use jlr_event::event::Reply;
use jlr_heap::failed::Failed;
use jlr_heap::handles::{Cleanable, Cleaner, Guard, Queue, Reference};
use jlr_heap::jobs::{Declined, Job, What};
use jlr_machine::ask::{Answer, Stat};
use jlr_machine::data::Data;
use jlr_machine::text::WriteCount;
use jlr_types::{Handle, Refusal, Rid, Work};

// A reply with which nothing goes out.
pub(super) fn plain(answer: Answer) -> Reply<u32> {
    Reply::Answered {
        answer,
        resource: None,
    }
}

pub(super) fn done(told: Result<(), Refusal>) -> Answer {
    match told {
        Ok(()) => Answer::Done,
        Err(by) => Answer::Refused(by),
    }
}

pub(super) fn handle(told: Result<Handle, Refusal>) -> Answer {
    match told {
        Ok(handle) => Answer::Handle(handle),
        Err(by) => Answer::Refused(by),
    }
}

pub(super) fn handle_or_null(told: Result<Option<Handle>, Refusal>) -> Answer {
    match told {
        Ok(Some(handle)) => Answer::Handle(handle),
        Ok(None) => Answer::Handle(Handle::new(0)),
        Err(by) => Answer::Refused(by),
    }
}

pub(super) fn reference(told: Result<Reference, Refusal>) -> Answer {
    match told {
        Ok(reference) => Answer::Handle(reference.handle()),
        Err(by) => Answer::Refused(by),
    }
}

pub(super) fn queue(told: Result<Queue, Refusal>) -> Answer {
    match told {
        Ok(queue) => Answer::Handle(queue.handle()),
        Err(by) => Answer::Refused(by),
    }
}

pub(super) fn cleaner(told: Result<Cleaner, Refusal>) -> Answer {
    match told {
        Ok(cleaner) => Answer::Handle(cleaner.handle()),
        Err(by) => Answer::Refused(by),
    }
}

pub(super) fn cleanable(told: Result<Cleanable, Refusal>) -> Answer {
    match told {
        Ok(cleanable) => Answer::Handle(cleanable.handle()),
        Err(by) => Answer::Refused(by),
    }
}

pub(super) fn truth(told: Result<bool, Refusal>) -> Answer {
    match told {
        Ok(truth) => Answer::Truth(truth),
        Err(by) => Answer::Refused(by),
    }
}

pub(super) fn int(told: Result<i64, Refusal>) -> Answer {
    match told {
        Ok(value) => Answer::Int(value),
        Err(by) => Answer::Refused(by),
    }
}

pub(super) fn stat(told: Result<Stat, Refusal>) -> Answer {
    match told {
        Ok(stat) => Answer::Stat(stat),
        Err(by) => Answer::Refused(by),
    }
}

// ---- Calls with which something goes out

pub(super) fn guard(told: Result<Guard, Declined<u32>>) -> Reply<u32> {
    match told {
        Ok(guard) => plain(Answer::Handle(guard.handle())),
        Err(Declined { by, held }) => Reply::Answered {
            answer: Answer::Refused(by),
            resource: Some(held),
        },
    }
}

pub(super) fn back(told: Result<(), Declined<u32>>) -> Reply<u32> {
    match told {
        Ok(()) => plain(Answer::Done),
        Err(Declined { by, held }) => Reply::Answered {
            answer: Answer::Refused(by),
            resource: Some(held),
        },
    }
}

pub(super) fn lent(told: Result<u32, Refusal>) -> Reply<u32> {
    match told {
        Ok(held) => Reply::Answered {
            answer: Answer::Out(Rid::new(0)),
            resource: Some(held),
        },
        Err(by) => plain(Answer::Refused(by)),
    }
}

pub(super) fn job(told: Result<Option<Job<u32>>, Refusal>) -> Reply<u32> {
    match told {
        Ok(Some(Job { action, what })) => match what {
            What::Note(note) => plain(Answer::Job {
                action,
                work: Work::Note(note),
            }),
            What::Held(held) => Reply::Answered {
                answer: Answer::Job {
                    action,
                    work: Work::Resource(Rid::new(0)),
                },
                resource: Some(held),
            },
        },
        Ok(None) => plain(Answer::AlreadyDone),
        Err(by) => plain(Answer::Refused(by)),
    }
}

// ---- Calls on files

fn failure(why: Failed) -> Answer {
    match why {
        Failed::Refused(by) => Answer::Refused(by),
        Failed::Faulted(fault) => Answer::Faulted(fault),
    }
}

pub(super) fn opened(told: Result<Guard, Failed>) -> Answer {
    match told {
        Ok(guard) => Answer::Handle(guard.handle()),
        Err(why) => failure(why),
    }
}

pub(super) fn data(told: Result<Data, Failed>) -> Answer {
    match told {
        Ok(data) => Answer::Data(data),
        Err(why) => failure(why),
    }
}

pub(super) fn count(told: Result<WriteCount, Failed>) -> Answer {
    match told {
        Ok(count) => Answer::Wrote(count),
        Err(why) => failure(why),
    }
}

pub(super) fn closed(told: Result<bool, Failed>) -> Answer {
    match told {
        Ok(true) => Answer::Done,
        Ok(false) => Answer::AlreadyDone,
        Err(why) => failure(why),
    }
}

pub(super) fn ended(told: Result<(), Failed>) -> Answer {
    match told {
        Ok(()) => Answer::Done,
        Err(why) => failure(why),
    }
}
