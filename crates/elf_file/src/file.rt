// The lent bytes of an ELF file.
ghost use Rattle.std.specs.Prelude.{◌≤◌, length};

// A file that is long enough for its header.
#[derive(Clone, Copy)]
pub struct ElfFile<'f> {
    pub bytes: &'f [u8],
    pub ghost headed: { 52 ≤ length bytes.now },
}
