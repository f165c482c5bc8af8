// Prints the lines of an answer that another answer does not have at the same place.
use std::io;

// Prints the lines of an answer that the base does not have at their places.
pub(crate) fn print_differing<R: Print>(rt: &R, base: &[u8], answer: &[u8]) -> io::Result<()> {
    let mut rest = base;
    for line in answer.split_inclusive(|b| *b == frame::LF) {
        if !rest.starts_with(line) {
            rt.write_all(line)?;
        }
        rest = rest.get(line.len()..).unwrap_or(&[]);
    }
    Ok(())
}
