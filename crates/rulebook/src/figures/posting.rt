//! Reading a figure and posting one.
ghost use Rattle.std.specs.Prelude.{◌≡◌, ◌≤◌, IfSome, OnErr};
ghost use Rattle.rulebook.specs.Letters.{most};
ghost use Rattle.rulebook.specs.Sheets.{sheet, all_blank, posted, posting, after_posting};

use super::Figures;
use crate::faults::FigureFault;
use crate::letters::Letter;

impl Figures {
    /// No figure posted.
    pub fn blank() -> Figures
        ensures { sheet result ≡ all_blank }
    {
        Figures { values: [None; 13] }
    }

    /// What is posted under `letter`.
    pub fn get(&self, letter: Letter) -> Option<u64>
        ensures value { result ≡ sheet self.now letter }
        ensures limits { IfSome result (λ value. (1 ≤ value) × (value ≤ most letter)) }
    {
        self.values[letter.rank() - 1]
    }

    /// Posts `value` under `letter`, 0 to blank it; a value over the letter's most is refused and changes nothing.
    pub fn post(&mut self, letter: Letter, value: u64) -> Result<(), FigureFault>
        ensures value { result ≡ posting letter value }
        ensures after { sheet self.new ≡ after_posting (sheet self.old) letter value }
        ensures same { OnErr result (self.new ≡ self.old) }
    {
        if value > letter.most() {
            return Err(FigureFault::ValueOverLimit);
        }
        let place = letter.rank() - 1;
        self.values[place] = figure(value);
        Ok(())
    }
}

/// The figure of a value that is posted, 0 to blank it.
fn figure(value: u64) -> Option<u64>
    ensures { result ≡ posted value }
{
    (value != 0).then_some(value)
}
