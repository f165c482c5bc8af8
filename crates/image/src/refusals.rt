// Which texts are refused, by which number and at which line.
ghost use Rattle.std.specs.Prelude.{◌≡◌, false};
ghost use Rattle.std.specs.Result.{result_err};
ghost use Rattle.frame.specs.Line.{lines_of};
ghost use Rattle.image.specs.Refusals as R;

use crate::Refusal;
use crate::allowed::allowed;
use crate::lines::Lines;
use frame::Frame;

// The bytes of RAM that an image needs, and the most that its text may have.
const SIZE: usize = 65536;

// Whether a line is the budget's frame.
fn is_budget(f: Option<Frame>) -> bool
    ensures { result ≡ R.is_budget f }
{
    matches!(f, Some(Frame::Budget(_)))
}

// Why an image is refused.
#[derive(Clone, Copy)]
enum Why {
    RamLength,
    TooLong,
    NoFrame,
    BadValue,
    BudgetNotLast,
}

impl Why {
    // The refusal by its number, at a line.
    fn at(self, line: u64) -> Refusal
        ensures { result ≡ R.refusal (R.number self) line }
    {
        let number = match self {
            Why::RamLength => 1,
            Why::TooLong => 5,
            Why::NoFrame => 6,
            Why::BadValue => 7,
            Why::BudgetNotLast => 8,
        };
        Refusal { number, line }
    }
}

// Whether line n passes, after the budget or before it.
fn pass(n: u64, after: bool, f: Option<Frame>) -> Result<(), Refusal>
    ensures { result_err result ≡ R.refused_at n after f }
{
    match f {
        None => Err(Why::NoFrame.at(n)),
        Some(f) if !allowed(f) => Err(Why::BadValue.at(n)),
        Some(_) if after => Err(Why::BudgetNotLast.at(n)),
        Some(_) => Ok(()),
    }
}

// Whether all lines pass; else the first that is refused.
fn all_pass(text: &[u8]) -> Result<(), Refusal>
    ensures { result_err result ≡ R.first_of (lines_of text.now) 1 false }
{
    // Kept: counted by hand, since the line past the last is named too.
    let mut n: u64 = 1;
    let mut after = false;
    for line in Lines(text) {
        if !line.ended {
            return Err(Why::NoFrame.at(n));
        }
        let f = frame::frame_of(line.chars);
        pass(n, after, f)?;
        after = is_budget(f);
        n += 1;
    }
    if after {
        Ok(())
    } else {
        Err(Why::BudgetNotLast.at(n))
    }
}

// The refusal of a text and lent RAM.
#[tactic(auto, unfolding(crate::specs::Refusals::image_refusal))]
pub fn image_refusal(text: &[u8], ram: &[u8]) -> Option<Refusal>
    ensures { result ≡ R.image_refusal text.now ram.now }
{
    if ram.len() != SIZE {
        return Some(Why::RamLength.at(0));
    }
    if SIZE < text.len() {
        return Some(Why::TooLong.at(0));
    }
    all_pass(text).err()
}
