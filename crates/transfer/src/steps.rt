//! What can happen between mapping and closing.
ghost use Rattle.std.specs.Prelude.{◌≡◌, [], ◌∷◌, length, slice_set};
ghost use Rattle.transfer.specs.Answers.{Answers, AnswersIn};
ghost use Rattle.transfer.specs.Runs.{Gathered, Ran};
ghost use Rattle.transfer.specs.Steps.{after_steps, step_at, Stepped};

use carriers::{Carrier, WritableCarrier};
use denial::Denial;
use receiver::{Closed, Gathering};

/// A write to the carrier, or an offer of one of its lines to the receiver.
#[derive(Clone, Copy, PartialEq, Eq, Debug)]
pub enum Step {
    Write {
        line: usize,
        word: usize,
        value: u16,
    },
    Offer {
        line: usize,
    },
}

/// Carries a step out.
pub fn carry_out<C: WritableCarrier>(
    carrier: &mut C,
    receiver: &mut Gathering,
    step: Step,
) -> Result<(), Denial>
    ensures answer { result ≡ step_at receiver.old.memory.now (C.Carrier.meaning carrier.old) step }
    ensures carrier { C.Carrier.meaning carrier.new ≡ after_steps (C.Carrier.meaning carrier.old) (step ∷ []) }
    ensures beside { C.WritableCarrier.rest carrier.new ≡ C.WritableCarrier.rest carrier.old }
    ensures memory { Stepped receiver.old.memory.now (C.Carrier.meaning carrier.old) step receiver.new.memory.now result }
    ensures same { receiver.new.memory.ghost_name ≡ receiver.old.memory.ghost_name }
{
    match step {
        Step::Write { line, word, value } => carrier.write(line, word, value),
        Step::Offer { line } => receiver.offer(carrier, line),
    }
}

// Notes an answer where there is room for it. By index, since places may end before the steps do, and every step is carried out.
fn note(answers: &mut [Result<(), Denial>], i: usize, answer: Result<(), Denial>)
    ensures { answers.new ≡ slice_set answers.old i answer }
{
    if i < answers.len() {
        answers[i] = answer;
    }
}

/// Carries steps out in order, whatever each is answered, and notes the answers, as many as there is room for.
pub fn run<C: WritableCarrier>(
    carrier: &mut C,
    receiver: &mut Gathering,
    steps: &[Step],
    answers: &mut [Result<(), Denial>],
)
    ensures carrier { C.Carrier.meaning carrier.new ≡ after_steps (C.Carrier.meaning carrier.old) steps.now }
    ensures beside { C.WritableCarrier.rest carrier.new ≡ C.WritableCarrier.rest carrier.old }
    ensures memory { Ran (C.Carrier.meaning carrier.old) steps.now receiver.old.memory.now receiver.new.memory.now }
    ensures answers { AnswersIn (C.Carrier.meaning carrier.old) steps.now receiver.old.memory.now answers.old answers.new }
    ensures same { receiver.new.memory.ghost_name ≡ receiver.old.memory.ghost_name }
{
    for (i, step) in steps.iter().enumerate() {
        let answer = carry_out(carrier, receiver, *step);
        note(answers, i, answer);
    }
}

/// Begins in the lent memory, carries every step out and closes.
pub fn gather<'m, C: WritableCarrier>(
    carrier: &mut C,
    memory: &'m mut [u8],
    steps: &[Step],
    answers: &mut [Result<(), Denial>],
) -> Closed<'m>
    ensures carrier { C.Carrier.meaning carrier.new ≡ after_steps (C.Carrier.meaning carrier.old) steps.now }
    ensures beside { C.WritableCarrier.rest carrier.new ≡ C.WritableCarrier.rest carrier.old }
    ensures memory { Gathered (C.Carrier.meaning carrier.old) steps.now memory.old result.memory.now }
    ensures answers { Answers (C.Carrier.meaning carrier.old) steps.now (length memory.old) answers.old answers.new }
    ensures same { result.memory.ghost_name ≡ memory.entry.ghost_name }
{
    let mut receiver = Gathering::begin(memory);
    run(carrier, &mut receiver, steps, answers);
    receiver.close()
}
