//! What carries commands out without a heap.
use jlr_machine::ask::{Answer, Handed};
use jlr_session::carry::CarryOut;
use jlr_types::Handle;
use jlr_wire::command::Command;

/// Answers each command by `ok`; or, where it counts, by a handle one higher, and the fourth by an answer that has no
/// line. Counts its settlings.
#[derive(Drop)]
pub(super) struct Heap {
    pub counts: bool,
    pub count: u8,
    pub settlings: usize,
}

impl Heap {
    pub(super) fn new(counts: bool) -> Heap {
        Heap {
            counts,
            count: 0,
            settlings: 0,
        }
    }

    fn answered(&mut self) -> Answer {
        if !self.counts {
            return Answer::Done;
        }
        if self.count >= 3 {
            return Answer::Handed(Handed::Nothing);
        }
        self.count += 1;
        Answer::Handle(Handle::new(self.count))
    }
}

impl CarryOut<Heap, ()> for Heap {
    ghost carries = { record { command = λ _ _ _ _. Unit {0}; settling = λ _ _. Unit {0} } };

    fn carry_out(heap: &mut Heap, _device: &mut (), _command: &Command<'_>, answer: &mut Answer) {
        *answer = heap.answered();
    }

    fn settle(heap: &mut Heap) {
        heap.settlings = heap.settlings.saturating_add(1);
    }
}
