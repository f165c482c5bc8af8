// A file of many images: for each a line `# NAME LINES ROM`, then its text up to the next such line.
ghost use Rattle.std.specs.Prelude.{◌≤◌, ◌<◌, length};

// How long the line at the start of a text is, its LF included.
pub(crate) fn line_len(text: &[u8]) -> usize
    ensures lower_bound { 0 < length text.now → 0 < result }
    ensures upper_bound { result ≤ length text.now }
{
    match text.iter().position(|b| *b == frame::LF) {
        Some(n) => n + 1,
        None => text.len(),
    }
}

// How long the image at the start of a file is: its first line, and all lines before the next header.
// Kept: a loop with no count, since each line says where the next begins.
pub(crate) fn image_len(file: &[u8]) -> usize
    ensures lower_bound { 0 < length file.now → 0 < result }
    ensures upper_bound { result ≤ length file.now }
{
    let mut end = line_len(file);
    while end < file.len() && !file[end..].starts_with(b"# ") {
        end += line_len(&file[end..]);
    }
    end
}
