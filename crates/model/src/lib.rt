// The records of the rules of the bench (specs/). `Hop` is that of its code too.
#![tactic(auto)]

// A hop: one copy of a message on the cable from a sender to a receiver. The state is 0 out, 1 held, 2 taken: a number, as the C interface
// lays the record out.
#[repr(C)]
#[derive(Clone, Copy)]
pub struct Hop {
    pub sender: u8,
    pub receiver: u8,
    pub sequence: u16,
    pub message: u16,
    pub state: u8,
}

// A message as it was sent. Document 01 has no `forest`: it is the place, from 0, of the one then in use among the bench's forests.
#[derive(Clone, Copy)]
pub struct Message {
    pub source: u8,
    pub group: u8,
    pub word: u32,
    pub forest: u16,
}
