// Bytes that are gathered in a lent buffer. A struct with a ghost field imports all that its file does, so it stands in a file of its own.
ghost use Rattle.std.specs.Prelude.{◌≡◌, ◌+◌, ◌≤◌, ◌<◌, length, take, min};
ghost use Rattle.std.proofs.Common.{set};

// The first `used` bytes of the buffer.
#[derive(Drop)]
pub struct Gathered<'b> {
    pub buffer: &'b mut [u8],
    pub used: usize,
    pub ghost fits: { used ≤ length buffer.now },
}

impl Gathered<'_> {
    // The bytes so far.
    pub fn bytes(&self) -> &[u8]
        ensures { result.now ≡ take self.now.used self.now.buffer.now }
    {
        &self.buffer[..self.used]
    }

    // A byte more, where there is room.
    pub fn push(&mut self, v: u8)
        ensures room { self.old.used < length self.old.buffer.now
            → (self.new.buffer.now ≡ set self.old.buffer.now self.old.used v) × (self.new.used ≡ self.old.used + 1) }
        ensures none { length self.old.buffer.now ≤ self.old.used
            → (self.new.buffer.now ≡ self.old.buffer.now) × (self.new.used ≡ self.old.used) }
        ensures lent { self.new.buffer.ghost_name ≡ self.old.buffer.ghost_name }
    {
        if self.used < self.buffer.len() {
            self.buffer[self.used] = v;
            self.used += 1;
        }
    }

    // The first n bytes of the buffer as they stand there, all where these are fewer.
    pub fn take_up(&mut self, n: usize)
        ensures count { self.new.used ≡ min n (length self.old.buffer.now) }
        ensures same { self.new.buffer.now ≡ self.old.buffer.now }
        ensures lent { self.new.buffer.ghost_name ≡ self.old.buffer.ghost_name }
    {
        self.used = n.min(self.buffer.len());
    }
}
