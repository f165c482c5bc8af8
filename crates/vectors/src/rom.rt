// The boot ROM that a header names.
ghost use Rattle.program.specs.Within.{Within};

use program::ReadFailed;
use std::rt::Files;

// So many bytes it may have.
pub const MOST: usize = 4096;

// Reads the file of a name, as much of it as there is room for; the name `-` stands for no boot ROM.
pub(crate) fn read_rom<R: Files>(rt: &R, name: &[u8], room: &mut [u8]) -> Result<usize, ReadFailed>
    ensures { Within result room.new }
{
    if name == b"-".as_slice() {
        return Ok(0);
    }
    program::read_file(rt, name, room)
}
