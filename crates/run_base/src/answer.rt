use crate::Status;

/// What a run says: its status, and the text that is printed with it.
#[derive(Drop)]
pub struct Answer {
    pub status: Status,
    pub text: Vec<u8>,
}
