// An image's header: `# NAME LINES ROM`, four words with one space between each and the next.

// The title, which is `# NAME`, the interrupt lines, which are two digits, and the boot ROM's file.
#[derive(Clone, Copy)]
pub struct Header<'a> {
    pub title: &'a [u8],
    pub lines: u8,
    pub rom: &'a [u8],
}

// The header that a line is.
pub(crate) fn read<'a>(line: &'a [u8]) -> Option<Header<'a>> {
    let mut words = line.split(|b| *b == b' ');
    let hash = words.next()?;
    let name = words.next()?;
    let lines = words.next()?;
    let rom = words.next()?;
    if hash != b"#".as_slice() || name.is_empty() || rom.is_empty() || words.next().is_some() {
        return None;
    }
    let [a, b] = lines else {
        return None;
    };
    let lines = program::two_hex_digits(*a, *b)?;
    let title = line.get(..hash.len() + 1 + name.len())?;
    Some(Header { title, lines, rom })
}
