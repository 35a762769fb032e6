// The bench as data, and what its calls promise: its totals, its answers, and an arrival under way. There is no function here; the
// definitions are in specs/, the theorems (demand 3 over lists of calls) in proofs/.
#![tactic(auto)]

mod arrival;
mod replies;

pub use arrival::{Arrival, Delivery};
pub use replies::{
    ArriveRefusal, ArriveReply, FreshReply, ListTooShort, LogRefusal, LogReply, Receipt, RestReply,
    SendRefusal, SendReply,
};

// Hops made and taken, messages sent, and the sum of their route sizes (document 01: way sizes).
#[repr(C)]
#[derive(Clone, Copy)]
pub struct Totals {
    pub made: u16,
    pub taken: u16,
    pub sent: u16,
    pub routed: u16,
}
