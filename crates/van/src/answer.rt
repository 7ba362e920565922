// What the receiver answers. specs/Answer.antt gives document 02's words for each case.
use carts::refusal::Refusal;

// The message's number is applied; or it was held already.
#[derive(Clone, Copy)]
pub enum Received {
    Applied(u32),
    Held(u32),
}

pub type ReceiveAnswer = Result<Received, Refusal>;

// An answer, with the van's applied number after it.
#[derive(Clone, Copy)]
pub struct ReceiveResult {
    pub answer: ReceiveAnswer,
    pub applied: u32,
}
