// The whole answer to an image.
ghost use Rattle.std.specs.Prelude.{◌≡◌, length};
ghost use Rattle.io.specs.Counts.{IsPrefixLen};

// Room for an answer: RAM without a zero doubleword takes 224,151 bytes.
const ROOM: usize = 262_144;

// An empty answer.
pub(crate) fn buffer() -> [u8; ROOM]
    ensures { 262144 ≡ length result }
{
    [0; ROOM]
}

// Answers an image under lines and with a boot ROM, and says how long the answer is.
pub(crate) fn answer(text: &[u8], lines: u8, rom: &[u8], out: &mut [u8; ROOM]) -> usize
    ensures { IsPrefixLen result out.new }
{
    let mut ram = io::large_buffer();
    cardstate_main::answer_to(text, &mut ram, rom, lines, out)
}
