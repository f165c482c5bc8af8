// Why there is no answer: each way has its line on standard error.
use place::Refusal;
use program::End;

// The arguments are wrong; a file cannot be read, or the files have too many bytes together; the settings cannot be read, or have too many bytes;
// an image or a symbol's value is refused.
#[derive(Clone, Copy)]
pub enum Failure {
    Arguments,
    File,
    Files,
    Settings,
    LongSettings,
    Refused(Refusal),
    NoSymbol,
}

impl From<Refusal> for Failure {
    fn from(refusal: Refusal) -> Failure {
        Failure::Refused(refusal)
    }
}

impl Failure {
    // Says why, and how the program so ends.
    // Kept: no `Display`, since the line and the end that goes with it stand side by side.
    pub(crate) fn say<R: Eprint>(self, rt: &R) -> End {
        match self {
            Failure::Arguments => program::misused(
                rt,
                b"cardimage: the arguments are user KERNEL PROGRAM.. (1 to 7), kernel PROGRAM, or symbol PROGRAM NAME; the settings are standard input\n",
            ),
            Failure::File => program::unread(rt, b"cardimage: a file cannot be read\n"),
            Failure::Files => program::unread(
                rt,
                b"cardimage: the files have more than 4,194,304 bytes together\n",
            ),
            Failure::Settings => program::unread(
                rt,
                b"cardimage: standard input, the settings, cannot be read\n",
            ),
            Failure::LongSettings => {
                program::unread(rt, b"cardimage: the settings have more than 65,536 bytes\n")
            }
            Failure::Refused(r) => refuse(rt, r.number(), r.file(), r.about()),
            Failure::NoSymbol => refuse(rt, 23, 0, 0),
        }
    }
}

// Says a refusal's number, the file that it is of, and what it is about.
fn refuse<R: Eprint>(rt: &R, number: u8, file: usize, about: usize) -> End {
    let mut line = [0u8; 16];
    let n = answer::reason_text(&mut line, number, file as u64, about as u64);
    program::refused(rt, &line[..n])
}
