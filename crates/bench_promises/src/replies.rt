// The answers of the calls; specs/Replies.antt gives document 01's number and the values of each case.

// A list lent to `fresh` or to `rest` is too short.
#[derive(Clone, Copy, Debug, PartialEq, Eq)]
pub struct ListTooShort;

// Why a send is turned away.
#[derive(Clone, Copy, Debug, PartialEq, Eq)]
pub enum SendRefusal {
    ListTooShort,
    NoSuchUnit,
    NoSuchGroup,
    TooManyMessages,
    RoutesTooLong,
}

// Why an arrival is turned away.
#[derive(Clone, Copy, Debug, PartialEq, Eq)]
pub enum ArriveRefusal {
    ListTooShort,
    NotMade,
}

// What becomes of an arrival that is not turned away: so many copies are taken, or the hop is held, or it came before.
#[derive(Clone, Copy, Debug, PartialEq, Eq)]
pub enum Receipt {
    Taken(u16),
    Held,
    Repeat,
}

// Why the length of a log is not told.
#[derive(Clone, Copy, Debug, PartialEq, Eq)]
pub enum LogRefusal {
    ListTooShort,
    NoSuchUnit,
}

// Whether a fresh bench was made.
pub type FreshReply = Result<(), ListTooShort>;

// The number of the message sent.
pub type SendReply = Result<u16, SendRefusal>;

pub type ArriveReply = Result<Receipt, ArriveRefusal>;

// The length of a unit's log.
pub type LogReply = Result<u16, LogRefusal>;

// Whether the bench is at rest.
pub type RestReply = Result<bool, ListTooShort>;
