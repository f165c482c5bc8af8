// The image reader: from a text and lent RAM to a machine and a budget, or to a refusal.
#![tactic(auto)]

ghost use Rattle.std.specs.Prelude.{◌≡◌};
ghost use Rattle.image.specs.Image as I;

use acts::act;
use card::Machine;
use lines::Lines;

mod acts;
mod allowed;
mod lines;
mod refusals;

// A refusal: the number of document 01's table, and the line that it names.
// Kept: a number, since it is the table's own, which the programs print and the theorems name.
#[derive(Clone, Copy)]
pub struct Refusal {
    pub number: u8,
    pub line: u64,
}

// What is read besides RAM: the machine, the budget, and the refusal, where there is one.
// Kept: no `Result`, since a refused image is promised to have the fresh machine too.
#[derive(Clone, Copy)]
pub struct Image {
    pub machine: Machine,
    pub budget: u64,
    pub refusal: Option<Refusal>,
}

// The frames of a text act on the fresh machine and on RAM that is zeroed.
fn load(text: &[u8], ram: &mut [u8]) -> Image
    ensures { I.Has (I.loaded_by text.now ram.old) result ram.new }
{
    ram.fill(0);
    let mut machine = card::fresh();
    let mut budget = 0;
    for line in Lines(text) {
        if let Some(f) = frame::frame_of(line.chars) {
            act(f, &mut machine, ram, &mut budget);
        }
    }
    Image {
        machine,
        budget,
        refusal: None,
    }
}

// The image of a text, into lent RAM; a refusal leaves RAM unchanged and gives the fresh machine.
#[tactic(auto, unfolding(crate::specs::Image::image_of, crate::specs::Image::ram_after))]
pub fn read_image(text: &[u8], ram: &mut [u8]) -> Image
    ensures { (result ≡ I.image_of text.now ram.old) × (ram.new ≡ I.ram_after text.now ram.old) }
{
    match refusals::image_refusal(text, ram) {
        Some(r) => Image {
            machine: card::fresh(),
            budget: 0,
            refusal: Some(r),
        },
        None => load(text, ram),
    }
}
