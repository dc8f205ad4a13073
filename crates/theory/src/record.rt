// A record as it is fed: any numbers at all, also those of no known kind, task or object.
// A field that its kind does not use is not looked at.
#[derive(Clone, Copy)]
pub struct Record {
    pub kind: u8,
    pub task: u32,
    pub on: u32,
}
