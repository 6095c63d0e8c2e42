//! A port that plays a heap with one file.
use jlr_device::script::ScriptResource;
use jlr_event::event::{Event, Reply};
use jlr_machine::ask::{Answer, Ask, CallOutcome, Handed, Outcome};
use jlr_machine::data::CopyRoom;
use jlr_session::port::{Port, ReadRoom};
use jlr_types::{ActionNo, Fault, Handle, Mutator, Progress, Refusal, Rid, Work};
use std::alloc::Global;

/// What a seat does otherwise than a heap with room would.
#[derive(Clone, Copy)]
pub(super) enum Manner {
    Obliging,
    RefusesToJoin,
    RefusesToPrepare,
    /// A resource that comes with `Opened` goes back with a refusal.
    RefusesOpened,
    /// What is handed out for a call has no resource with it.
    ForgetsTheFile,
    /// There is no memory for what a call reads.
    HasNoRoom,
}

/// Answers the asks of mutator 3 as a heap with one file would, and keeps the file. Writes down what was asked, and
/// counts its settlings.
///
/// `gc` is answered as a piece of marking would be, `stat` by an answer that has no line, and each other command by
/// `ok`.
#[derive(Drop)]
pub(super) struct Seat {
    alloc: Global,
    pub asked: String,
    pub settlings: usize,
    manner: Manner,
    file: Option<ScriptResource>,
}

impl Seat {
    pub(super) fn new(alloc: Global, manner: Manner) -> Seat {
        Seat {
            alloc,
            asked: String::new(alloc),
            settlings: 0,
            manner,
            file: None,
        }
    }

    fn joined(&self) -> Answer {
        match self.manner {
            Manner::RefusesToJoin => Answer::Refused(Refusal::NoSession),
            _ => Answer::Done,
        }
    }

    fn prepared(&self) -> Answer {
        match self.manner {
            Manner::RefusesToPrepare => Answer::Refused(Refusal::ResourcesFull),
            _ => Answer::Prepared(Rid::new(0)),
        }
    }

    fn opened(&mut self, outcome: Result<ScriptResource, Fault>) -> Reply<ScriptResource> {
        let file = match outcome {
            Ok(file) => file,
            Err(fault) => return plain(Answer::Faulted(fault)),
        };
        if let Manner::RefusesOpened = self.manner {
            return Reply::Answered {
                answer: Answer::Refused(Refusal::NotOut),
                resource: Some(file),
            };
        }
        self.file = Some(file);
        plain(Answer::Handle(Handle::new(1)))
    }

    fn checked_out(&mut self) -> Reply<ScriptResource> {
        let Some(file) = self.file.take() else {
            return plain(Answer::Refused(Refusal::Closed));
        };
        Reply::Answered {
            answer: Answer::Out(Rid::new(0)),
            resource: match self.manner {
                Manner::ForgetsTheFile => None,
                _ => Some(file),
            },
        }
    }

    fn closed(&mut self) -> Reply<ScriptResource> {
        match self.file.take() {
            Some(file) => Reply::Answered {
                answer: Answer::Job {
                    action: ActionNo::new(1),
                    work: Work::Resource(Rid::new(0)),
                },
                resource: Some(file),
            },
            None => plain(Answer::AlreadyDone),
        }
    }

    /// What an ask is answered that brings no file.
    fn reply_to(&mut self, ask: &Ask) -> Reply<ScriptResource> {
        match ask {
            Ask::Join { .. } => plain(self.joined()),
            Ask::Prepare { .. } => plain(self.prepared()),
            Ask::CheckOut { .. } => self.checked_out(),
            Ask::Close { .. } => self.closed(),
            Ask::Clean { .. } => plain(Answer::Job {
                action: ActionNo::new(2),
                work: Work::Note(7),
            }),
            Ask::Finish { outcome, .. } => plain(ended(outcome)),
            Ask::Full { .. } => Reply::Marked(Progress::Done),
            Ask::Stat { .. } => plain(Answer::Handed(Handed::Nothing)),
            _ => plain(Answer::Done),
        }
    }

    fn write_down(&mut self, name: &str) {
        if !self.asked.is_empty() {
            let _ = self.asked.push_str("; ");
        }
        let _ = self.asked.push_str(name);
    }
}

// What it is asked it writes down, and the rows compare that. Its relation says nothing; a clause has to be written at
// `ask` all the same.
impl Port<ScriptResource> for Seat {
    ghost asking = { record { mutator = λ _. 3; asks = λ _ _ _ _. Unit {0}; settling = λ _ _. Unit {0} } };

    fn mutator(&self) -> Mutator {
        Mutator::new(3)
    }

    fn read_room(&self, _guard: Handle) -> Result<ReadRoom, Refusal> {
        match self.manner {
            Manner::HasNoRoom => Err(Refusal::NoMemory),
            _ => ReadRoom::new(self.alloc).or(Err(Refusal::NoMemory)),
        }
    }

    fn ask(&mut self, event: Event<ScriptResource>, room: Option<CopyRoom>) -> Reply<ScriptResource>
        ensures { Unit {0} }
    {
        drop(room);
        self.write_down(name_of(&event));
        match event {
            Event::Opened { outcome, .. } => self.opened(outcome),
            Event::CheckIn {
                outcome,
                resource,
                ..
            } => {
                self.file = Some(resource);
                plain(answer_of(outcome))
            }
            Event::Ask(ask) => self.reply_to(ask.get()),
            Event::Mark { .. } => plain(Answer::Done),
        }
    }

    fn answer(&mut self, ask: Ask, answer: &mut Answer) {
        self.ask(Event::ask(ask), None).answer_into(answer);
    }

    fn settle(&mut self) {
        self.settlings = self.settlings.saturating_add(1);
    }
}

/// A reply without a resource.
fn plain(answer: Answer) -> Reply<ScriptResource> {
    Reply::Answered {
        answer,
        resource: None,
    }
}

/// What the end of a call is answered.
fn answer_of(outcome: CallOutcome) -> Answer {
    match outcome {
        CallOutcome::Data(bytes) => Answer::Data(bytes),
        CallOutcome::Wrote(count) => Answer::Wrote(count),
        CallOutcome::Failed(fault) => Answer::Faulted(fault),
    }
}

/// What the end of a job is answered.
fn ended(outcome: &Outcome) -> Answer {
    match outcome {
        Outcome::Ok => Answer::Done,
        Outcome::Failed(fault) => Answer::Faulted(*fault),
    }
}

/// How an event is written down.
fn name_of(event: &Event<ScriptResource>) -> &'static str {
    match event {
        Event::Ask(ask) => ask_name(ask.get()),
        Event::Opened { outcome, .. } => opened_name(outcome),
        Event::CheckIn { outcome, .. } => call_name(outcome),
        Event::Mark { .. } => "other",
    }
}

fn ask_name(ask: &Ask) -> &'static str {
    match ask {
        Ask::Join { .. } => "Join",
        Ask::Leave { .. } => "Leave",
        Ask::Prepare { .. } => "Prepare",
        Ask::CheckOut { .. } => "Out",
        Ask::Close { .. } => "Close",
        Ask::Clean { .. } => "Clean",
        Ask::Finish { outcome, .. } => finish_name(outcome),
        Ask::Full { .. } => "Full",
        Ask::Stat { .. } => "Stat",
        Ask::MakeQueue { .. } => "MakeQueue",
        Ask::Names { .. } => "Names",
        Ask::Bind { .. } => "Bind",
        _ => "other",
    }
}

fn opened_name(outcome: &Result<ScriptResource, Fault>) -> &'static str {
    match outcome {
        Ok(_) => "Opened ok",
        Err(Fault::NotFound) => "Opened notfound",
        Err(_) => "Opened other",
    }
}

fn call_name(outcome: &CallOutcome) -> &'static str {
    match outcome {
        CallOutcome::Data(_) => "In data",
        CallOutcome::Wrote(_) => "In wrote",
        CallOutcome::Failed(Fault::Denied) => "In denied",
        CallOutcome::Failed(_) => "In other",
    }
}

fn finish_name(outcome: &Outcome) -> &'static str {
    match outcome {
        Outcome::Ok => "Finish ok",
        Outcome::Failed(_) => "Finish other",
    }
}
