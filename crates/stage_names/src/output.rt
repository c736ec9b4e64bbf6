// The lent name table of a stage that gives one back.

// The ends of its names, and their bytes.
#[derive(Drop)]
pub struct NameOutput<'e, 'b> {
    pub ends: &'e mut [u8],
    pub bytes: &'b mut [u8],
}
