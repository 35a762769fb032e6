// Lists made of columns: the C interface lends them as lists of numbers.
ghost use Rattle.std.specs.Prelude.{◌≡◌};
ghost use Rattle.bench_store.specs.Values.{item_at, with_column};

use crate::Limits;

// The list of the messages sent: columns of their sources, groups and words, the first message at place 0.
#[derive(Clone, Copy)]
pub struct Messages {}

impl Messages {
    pub const SOURCES: Column = Column {
        start: 0,
        size: Limits::MESSAGES,
    };

    pub const GROUPS: Column = Column {
        start: Limits::MESSAGES,
        size: Limits::MESSAGES,
    };

    pub const WORDS: Column = Column {
        start: 2 * Limits::MESSAGES,
        size: Limits::MESSAGES,
    };

    pub const SIZE: usize = 3 * Limits::MESSAGES;
}

// The list of the small numbers of each unit: a column of the lengths of the logs.
#[derive(Clone, Copy)]
pub struct Gauges {}

impl Gauges {
    pub const LENGTHS: Column = Column {
        start: 0,
        size: Limits::UNITS,
    };

    pub const SIZE: usize = Limits::UNITS;
}

// A number that columns hold.
pub trait Number: Copy {
    ghost ZERO: { Self };

    // What a place past the column reads as.
    const ZERO: Self;
}

impl Number for u16 {
    ghost ZERO = { 0 };

    const ZERO: u16 = 0;
}

impl Number for u32 {
    ghost ZERO = { 0 };

    const ZERO: u32 = 0;
}

// The part of a list that has `size` numbers, the first of them at `start`.
#[derive(Clone, Copy)]
pub struct Column {
    pub start: usize,
    pub size: usize,
}

impl Column {
    // Number i of the column.
    pub fn number<T: Number>(self, list: &[T], i: usize) -> T
        ensures { result ≡ item_at T.ZERO list.now self.start self.size i }
    {
        let held = list.len().saturating_sub(self.start);
        if i < self.size.min(held) {
            list[self.start + i]
        } else {
            T::ZERO
        }
    }

    // Another number i.
    pub fn set_number<T: Number>(self, list: &mut [T], i: usize, x: T)
        ensures { list.new ≡ with_column list.old self.start self.size i x }
    {
        let held = list.len().saturating_sub(self.start);
        if i < self.size.min(held) {
            list[self.start + i] = x;
        }
    }
}
