// Why there is no whole answer: each way has its line on standard error.
use program::End;
use std::io;

// It was given arguments; reading the images failed, or there are more than there is room for; an image does not begin with its header;
// a file that a header names cannot be read, or has too many bytes; a write failed.
#[derive(Clone, Copy)]
pub enum Failure {
    Arguments,
    Input,
    TooMany,
    Header,
    Rom,
    Output,
}

impl From<io::Error> for Failure {
    fn from(_error: io::Error) -> Failure {
        Failure::Output
    }
}

impl Failure {
    // Says why, and how the program so ends.
    // Kept: no `Display`, since the line and the end that goes with it stand side by side.
    pub(crate) fn say<R: Eprint>(self, rt: &R) -> End {
        match self {
            Failure::Arguments => program::misused(
                rt,
                b"vectors: no arguments are taken; the images are standard input\n",
            ),
            Failure::Input => program::unread(rt, b"vectors: standard input cannot be read\n"),
            Failure::TooMany => {
                program::unread(rt, b"vectors: more than 2,097,152 bytes of images\n")
            }
            Failure::Header => {
                program::unread(rt, b"vectors: a header is not '# NAME LINES ROM'\n")
            }
            Failure::Rom => program::unread(rt, b"vectors: a boot ROM cannot be read\n"),
            Failure::Output => program::unwritten(
                rt,
                b"vectors: not all of the answer could be written to standard output\n",
            ),
        }
    }
}
