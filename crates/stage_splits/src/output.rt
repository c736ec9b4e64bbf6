// What a stage leaves in the lent outputs: its splits, and their number.

// The bytes for both.
#[derive(Drop)]
pub struct SplitOutput<'s, 'c> {
    pub splits: &'s mut [u8],
    pub counts: &'c mut [u8],
}
