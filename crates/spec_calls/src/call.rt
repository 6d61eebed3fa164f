// A call record.
#[derive(Clone, Copy)]
pub struct Call {
    pub kind: u8,
    pub a: u8,
    pub b: u16,
    pub c: u32,
    pub d: u32,
    pub e: u32,
}
