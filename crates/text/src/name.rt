// Names as far as words go.
ghost use Rattle.text.specs.Names.{Run};

// One or more letters, digits and hyphens, which are the file's own bytes.
#[derive(Clone, Copy)]
pub struct NameRun<'a> {
    pub bytes: &'a [u8],
    ghost run: { Run bytes.now },
}
