// The line that is printed: the steps, a blank, a sum of 16 hexadecimal digits, LF.
ghost use Rattle.std.specs.Prelude.{◌≡◌, is_ok};
ghost use Rattle.program.specs.Ends.{end_of};

use program::End;
use std::io;

// Writes the line to standard output and says how the program so ends.
pub(crate) fn give_line<R: Print + Eprint>(rt: &R, steps: u64, sum: u64) -> End {
    ended(rt, println!(rt; "{steps} {sum:016x}"))
}

// How the program ends by what became of the line.
fn ended<R: Eprint>(rt: &R, written: io::Result<()>) -> End
    ensures { result ≡ end_of (is_ok written) }
{
    program::end_of(
        rt,
        written.is_ok(),
        b"benchcard: not all of the answer could be written to standard output\n",
    )
}
