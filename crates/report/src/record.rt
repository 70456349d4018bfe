use routine::action::Access;

// One reference on the path (document 01, "Plan and report").
#[derive(Clone, Copy)]
pub struct Record {
    pub step: u16,
    pub array: u8,
    pub version: u8,
    pub access: Access,
    pub seen: u16,
    pub new: u16,
}

impl Record {
    // Bytes of a record.
    pub const SIZE: usize = 10;
}
