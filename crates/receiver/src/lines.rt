//! The lines that a carrier holds, and whether their words are sound.
ghost use Rattle.std.specs.Prelude.{◌≡◌, ◌<◌, ◌≤◌, true, false, not, nat_le, IfOk, MatchResult};
ghost use Rattle.carriers.specs.Meaning.{has, lacking};
ghost use Rattle.layout.specs.First.{first_below};
ghost use Rattle.receiver.specs.Offers.{by_fault, fault, head_fault};

use carriers::Carrier;
use denial::{Denial, Layer, Reason};
use layout::{FILLER, TYPE_WORD, mark_word};

// How many words a line has, and the highest number of ten bits.
const WORDS: usize = 1440;

const WIDEST: u16 = 1023;

// A line of a field that the carrier has.
#[derive(Drop)]
pub(crate) struct HeldLine<'c, C: Carrier> {
    carrier: &'c C,
    pub(crate) line: usize,
    ghost held: { has (C.meaning carrier.now) line 0 ≡ true },
    ghost low: { line ≤ 211 },
}

impl<'c, C: Carrier> HeldLine<'c, C> {
    // The line of a carrier; refused where it lacks the line.
    pub(crate) fn find(carrier: &'c C, line: usize) -> Result<HeldLine<'c, C>, Denial>
        requires { line ≤ 211 }
        ensures answer { MatchResult result (λ _. has (C.meaning carrier.now) line 0 ≡ true) (λ denial. (has (C.meaning carrier.now) line 0 ≡ false) × (denial ≡ lacking line 0)) }
        ensures held { IfOk result (λ held. (held.carrier.now ≡ carrier.now) × (held.line ≡ line)) }
    {
        carrier.read(line, 0)?;
        Ok(HeldLine { carrier, line })
    }

    // Its number at a word.
    pub(crate) fn word(&self, word: usize) -> u16
        requires { word < 1440 }
        ensures { result ≡ (C.meaning self.now.carrier.now).word self.now.line word }
    {
        self.carrier.read(self.line, word).unwrap()
    }

    // The first word that is too wide.
    fn first_wide(&self) -> Option<usize>
        ensures { result ≡ first_below (λ w. not (nat_le ((C.meaning self.now.carrier.now).word self.now.line w) 1023)) 1440 }
    {
        (0..WORDS).find(|word| self.word(*word) > WIDEST)
    }

    // Whether the first two words are those of a line of data.
    fn check_head(&self) -> Result<(), Denial>
        ensures { result ≡ by_fault (head_fault ((C.meaning self.now.carrier.now).word self.now.line 0) ((C.meaning self.now.carrier.now).word self.now.line 1) self.now.line) }
    {
        if self.word(0) != TYPE_WORD {
            return Err(Denial::new(Reason::Type, Layer::Line, self.line, 0));
        }
        let mark = self.word(1);
        if mark == FILLER {
            return Err(Denial::new(Reason::Empty, Layer::Line, self.line, 1));
        }
        if mark != mark_word(self.line) {
            return Err(Denial::new(Reason::Mark, Layer::Line, self.line, 1));
        }
        Ok(())
    }

    // Whether its words are sound.
    pub(crate) fn check(&self) -> Result<(), Denial>
        ensures { result ≡ by_fault (fault ((C.meaning self.now.carrier.now).word self.now.line) self.now.line) }
    {
        if let Some(word) = self.first_wide() {
            return Err(Denial::new(Reason::Wide, Layer::Line, self.line, word));
        }
        self.check_head()
    }
}
