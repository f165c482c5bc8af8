// The files of an image, one after the other in one slice.
ghost use Rattle.std.specs.Prelude.{◌≡◌};
ghost use Rattle.place.specs.Files as F;

// Their bytes, and where each ends.
#[derive(Clone, Copy)]
pub(crate) struct Files<'a> {
    pub(crate) bytes: &'a [u8],
    pub(crate) ends: &'a [usize; 8],
}

impl<'a> Files<'a> {
    // Where file k ends.
    #[tactic(auto, unfolding(crate::specs::Files::end))]
    fn end(self, k: usize) -> usize
        ensures { result ≡ F.end self.entry.ends.now k }
    {
        let ends = self.ends;
        ends.get(k).copied().unwrap_or(0)
    }

    // Where it begins.
    #[tactic(auto, unfolding(crate::specs::Files::start))]
    fn start(self, k: usize) -> usize
        ensures { result ≡ F.start self.entry.ends.now k }
    {
        if k == 0 { 0 } else { self.end(k - 1) }
    }

    // File k; nothing where the ends are not in order or past the slice.
    pub(crate) fn file(self, k: usize) -> &'a [u8]
        ensures { result.now ≡ F.file_of self.entry k }
    {
        let bytes = self.bytes;
        bytes.get(self.start(k)..self.end(k)).unwrap_or(&[])
    }
}
