//! The lines of the report.
ghost use Rattle.std.specs.Prelude.{◌≡◌, ◌++◌, Some, IfOk, string_bytes};
ghost use Rattle.rehearse.specs.Report.{block_text, by_reason, counted, fate_words, is_clean, step_text, tally_text, tally_words};

use codec::MendRecord;
use codewords::Verdict;
use denial::{Denial, Reason};
use layout::{BLOCKS, BlockName};
use std::alloc::AllocError;
use std::fmt;

/// What became of a block.
#[derive(Clone, Copy)]
pub enum Fate {
    /// It was given, mended so.
    Given(MendRecord),
    /// This line of it is missing.
    Missing(usize),
    Lost,
}

impl Fate {
    fn is_clean(self) -> bool
        ensures { result ≡ is_clean self }
    {
        match self {
            Fate::Given(mends) => mends.count() == 0,
            _ => false,
        }
    }
}

/// The fate that a refusal tells; the refusal itself where it was for another reason.
impl TryFrom<Denial> for Fate {
    type Error = Denial;

    ghost try_from_gives = { λ denial fate. fate ≡ by_reason denial.reason denial };

    fn try_from(denial: Denial) -> Result<Fate, Denial> {
        match denial.reason {
            Reason::Missing => Ok(Fate::Missing(denial.place.0)),
            Reason::Lost => Ok(Fate::Lost),
            _ => Err(denial),
        }
    }
}

// What is told of a block after its packet and channel.
impl fmt::Display for Fate {
    ghost output = { λ fate. Some (fate_words fate) };

    fn fmt<W: fmt::Write>(&self, f: &mut fmt::Formatter<W>) -> fmt::Result {
        match self {
            Fate::Given(mends) => Verdict::from(*mends).fmt(f),
            Fate::Missing(line) => write!(f, "missing {line}"),
            Fate::Lost => write!(f, "lost"),
        }
    }
}

/// How many blocks had each fate, and how many bytes were mended.
#[derive(Clone, Copy, Default)]
pub struct Tally {
    clean: usize,
    mended: usize,
    missing: usize,
    lost: usize,
    bytes: usize,
}

impl Tally {
    /// Counts one more block.
    pub fn count(&mut self, fate: Fate)
        ensures { self.new ≡ counted self.old fate }
    {
        match fate {
            Fate::Given(mends) => match mends.count() {
                0 => self.clean = self.clean.saturating_add(1),
                mended => {
                    self.mended = self.mended.saturating_add(1);
                    self.bytes = self.bytes.saturating_add(usize::from(mended));
                }
            },
            Fate::Missing(_) => self.missing = self.missing.saturating_add(1),
            Fate::Lost => self.lost = self.lost.saturating_add(1),
        }
    }
}

// What is told of all blocks after their number.
impl fmt::Display for Tally {
    ghost output = { λ tally. Some (tally_words tally) };

    fn fmt<W: fmt::Write>(&self, f: &mut fmt::Formatter<W>) -> fmt::Result {
        let Tally {
            clean,
            mended,
            missing,
            lost,
            bytes,
        } = self;
        write!(
            f,
            "{clean} clean, {mended} mended, {missing} missing, {lost} lost, {bytes} bytes mended"
        )
    }
}

/// Tells a step that was denied.
pub fn tell_step(text: &mut String, step: usize, denial: Denial) -> Result<(), AllocError>
    ensures { IfOk result (λ _. string_bytes text.new ≡ string_bytes text.old ++ step_text step denial) }
{
    write!(text, "step {step} denied {denial}\n")
}

/// Tells a block, but not a clean one.
pub fn tell_block(text: &mut String, name: BlockName, fate: Fate) -> Result<(), AllocError>
    ensures { IfOk result (λ _. string_bytes text.new ≡ string_bytes text.old ++ block_text name.packet name.channel fate) }
{
    if fate.is_clean() {
        return Ok(());
    }
    let (packet, channel) = (name.packet(), name.channel());
    write!(text, "block {packet} {channel} {fate}\n")
}

/// The last line.
pub fn tell_tally(text: &mut String, tally: Tally) -> Result<(), AllocError>
    ensures { IfOk result (λ _. string_bytes text.new ≡ string_bytes text.old ++ tally_text 1356 tally) }
{
    write!(text, "{BLOCKS} blocks: {tally}\n")
}
