// The tasks whose latest conflicting access has no path to an access: in the fullest filling, and as the recording arrived.
#[derive(Clone, Copy)]
pub struct Masks {
    pub full: u16,
    pub arrived: u16,
}
