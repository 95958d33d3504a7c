//! A client that makes the calls himself, and comes to the same promise.
#![tactic(auto)]

ghost use Rattle.std.specs.Prelude.{[], ◌∷◌};
ghost use Rattle.client.specs.ByHand.{Promised};
ghost use Rattle.transfer.specs.declared.steps.Step.TheVariants.{Offer, Write};

use carriers::{Carrier, WritableCarrier};
use codec::MendRecord;
use denial::Denial;
use receiver::Gathering;
use sender::Sender;

// Numbers and no list of steps: this client writes once and offers twice.
/// Where a word is written between mapping and offering, and which lines are offered.
#[derive(Clone, Copy)]
pub struct Plan {
    pub line: usize,
    pub word: usize,
    pub value: u16,
    pub first: usize,
    pub second: usize,
}

/// Maps a field, writes one word, offers two lines, closes and asks for a block.
pub fn ask_by_hand<C: WritableCarrier>(
    sender: &Sender,
    carrier: &mut C,
    memory: &mut [u8],
    plan: Plan,
    packet: usize,
    channel: usize,
    place: &mut [u8],
) -> Result<MendRecord, Denial>
    ensures { Promised sender.now.memory.now (C.Carrier.meaning carrier.old) (Write plan.line plan.word plan.value ∷ Offer plan.first ∷ Offer plan.second ∷ []) memory.old packet channel place.old place.new result }
{
    sender.map(carrier)?;
    let mut receiver = Gathering::begin(memory);
    let _ = carrier.write(plan.line, plan.word, plan.value);
    let _ = receiver.offer(carrier, plan.first);
    let _ = receiver.offer(carrier, plan.second);
    receiver.close().ask(packet, channel, place)
}
