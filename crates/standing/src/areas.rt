// What a session is lent beside its lines.
ghost use Rattle.std.specs.Prelude.{◌≡◌, length};

// The stores of the runner, and an area for the bytes of a call or of an answer.
#[derive(Drop)]
pub struct Areas<'a> {
    pub store: &'a mut [u8],
    pub lengths: &'a mut [u32],
    pub work: &'a mut [u8],
    pub ghost sized: { (length store.now ≡ 65536) × (length lengths.now ≡ 1024) × (length work.now ≡ 65536) },
}

impl Areas<'_> {
    // The area for work, to be read. (A part that is read behind `&mut Areas` would be taken for changed.)
    pub fn work(&self) -> &[u8]
        ensures { result.now ≡ self.now.work.now }
    {
        self.work
    }
}
