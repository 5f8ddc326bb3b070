// Vector clocks and the three kinds of number that name a processor, an interval and a page.
// A clock's contract is one equation with a definition of specs/Clocks.antt.
#![tactic(auto)]

ghost use Rattle.std.specs.Prelude.{◌≡◌};
ghost use Rattle.clock.specs.Clocks.{joined, covered, entry_of, sum_of};

use limits::{CLOCK_WIDTH, PROCESSOR_LIMIT};

// A processor, 1 to 8; 0 is nobody. Document 01 calls a processor a card.
#[derive(Clone, Copy, PartialEq, Eq)]
pub struct ProcessorId(pub usize);

// An interval of one processor, 1 to 63.
#[derive(Clone, Copy, PartialEq, Eq)]
pub struct IntervalId(pub usize);

// A page, numbered from 0.
#[derive(Clone, Copy, PartialEq, Eq)]
pub struct PageId(pub usize);

// How many intervals of each processor are known: the entry of processor p is at place p - 1.
#[derive(Clone, Copy, PartialEq, Eq)]
pub struct Clock {
    pub entries: [u8; CLOCK_WIDTH],
}

impl Clock {
    // The clock that knows no interval.
    pub const ZEROS: Clock = Clock {
        entries: [0; CLOCK_WIDTH],
    };

    // The larger entry at each place.
    pub fn join(self, other: Clock) -> Clock
        ensures { result.entries ≡ joined self.entries other.entries }
    {
        let mut entries = self.entries;
        for i in 0..CLOCK_WIDTH {
            entries[i] = self.entries[i].max(other.entries[i]);
        }
        Clock { entries }
    }

    // Whether this clock knows every interval that the other knows.
    #[tactic(auto, using(crate::proofs::Methods::clock_laws))]
    pub fn covers(self, other: Clock) -> bool
        ensures { result ≡ covered self.entries other.entries }
    {
        for i in 0..CLOCK_WIDTH {
            if self.entries[i] < other.entries[i] {
                return false;
            }
        }
        true
    }

    // How many intervals of one processor are known; of nobody and of absent processors, none.
    #[tactic(auto, using(crate::proofs::Methods::clock_laws))]
    pub fn entry(self, processor: ProcessorId) -> u8
        ensures { result ≡ entry_of self.entries processor.0 }
    {
        match processor.0 {
            p @ 1..=PROCESSOR_LIMIT => self.entries[p - 1],
            _ => 0,
        }
    }

    // How many intervals are known of all processors together.
    pub fn sum(self) -> u32
        ensures { result ≡ sum_of self.entries }
    {
        let mut total = 0;
        for entry in self.entries {
            total += u32::from(entry);
        }
        total
    }
}
