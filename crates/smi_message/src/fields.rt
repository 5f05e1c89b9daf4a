/// The number at each place of a datagram after its first two bytes.
#[derive(Clone, Copy)]
pub struct Fields {
    pub layout: u8,
    pub kind: u8,
    pub from: u16,
    pub to: u16,
    /// The domain or object that the datagram is about.
    pub subject: u16,
    pub holder_kind: u8,
    pub phase: u8,
    pub holder: u16,
    /// The verb of a command, the outcome of a record, or a state.
    pub code: u16,
    pub epoch: u64,
    pub number: u32,
    pub argument: u16,
    pub tree: u16,
    pub echo: u32,
    pub boot: u32,
    pub sequence: u32,
}
