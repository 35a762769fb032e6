// An arrival under way. All its copies go from one sender to one receiver.
#[derive(Clone, Copy)]
pub struct Arrival {
    pub sender: u8,
    pub receiver: u8,
    // the place of the next hop to take; the end where there is none
    pub at: usize,
    // how many hops were made before this arrival
    pub end: usize,
    // hops of the pair that are not yet taken, hops taken by this arrival, and how many it may take
    pub left: u16,
    pub taken: u16,
    pub copies: usize,
    // the length of the receiver's log
    pub length: u16,
    // how many hops are made
    pub made: u16,
}

// What a message means to a receiver: whether it is logged, and to which children it goes on.
#[derive(Clone, Copy)]
pub struct Delivery {
    pub message: u16,
    pub member: bool,
    pub children: u32,
}
