// Reading and writing a word on lent memory that holds a state in order.
// The contracts say in the words of the rules (specs/Steps.antt of the crate rules) what state the areas hold afterwards.
#![tactic(auto)]

ghost use Rattle.std.specs.Prelude.{◌≡◌, ◌<◌, get_or, set};
ghost use Rattle.limits.specs.inner.Sizes.{word_area};
ghost use Rattle.rules.specs.State.{mainframe};
ghost use Rattle.rules.specs.Steps.{read, write};
ghost use Rattle.layout.specs.Areas.{state_in};
ghost use Rattle.layout.specs.inner.Needed.{PageThere};
ghost use Rattle.step_access.specs.inner.Needed.{AccessesKept, OnWord, WordIn, WordThere};
ghost use Rattle.step_access.specs.inner.Effects.{AnsweredKept, word_place, TwinTaken, Stored};

use clock::{PageId, ProcessorId};
use layout::marks::{is_dirty, mark_dirty};
use layout::{copy_page, copy_row, twin_row};
use limits::PAGE_WIDTH;

// What an accepted step answers: a value (the word of a read, the total of a tally, the job that was removed, else 0), how many records were applied, and
// how many words these set.
#[derive(Clone, Copy)]
pub struct Answered {
    pub value: u32,
    pub count: u32,
    pub words: u32,
}

// Read: fetches the word's page, then answers the word.
pub fn read_word(
    p: ProcessorId,
    w: usize,
    clocks: &mut [u8],
    words: &mut [u32],
    records: &[u8],
    marks: &[u8],
    index: &mut [u32],
) -> Answered
    requires { AccessesKept clocks.old words.old records.now marks.now p.0 w index.old }
    ensures { AnsweredKept (read mainframe (state_in mainframe clocks.old words.old records.now marks.now) p.0 w) result.value result.count result.words clocks.new words.new records.now marks.now index.new }
{
    let g = PageId(w / PAGE_WIDTH);
    let fetched = fetch::fetch_unless_settled(p, g, clocks, words, records, marks, index);
    let value = word_at(words, p, w);
    Answered {
        value,
        count: fetched.applied,
        words: fetched.words,
    }
}

// Write: fetches the word's page, takes the twin if the page is clean, and stores.
pub fn write_word(
    p: ProcessorId,
    w: usize,
    v: u32,
    clocks: &mut [u8],
    words: &mut [u32],
    records: &[u8],
    marks: &mut [u8],
    index: &mut [u32],
) -> Answered
    requires { AccessesKept clocks.old words.old records.now marks.old p.0 w index.old }
    ensures { AnsweredKept (write mainframe (state_in mainframe clocks.old words.old records.now marks.old) p.0 w v) result.value result.count result.words clocks.new words.new records.now marks.new index.new }
{
    let g = PageId(w / PAGE_WIDTH);
    let fetched = fetch::fetch_unless_settled(p, g, clocks, words, records, marks, index);
    store(words, marks, p, w, v);
    Answered {
        value: 0,
        count: fetched.applied,
        words: fetched.words,
    }
}

// Takes the twin of the word's page if that is clean, then stores.
fn store(words: &mut [u32], marks: &mut [u8], p: ProcessorId, w: usize, v: u32)
    requires { WordThere words.old marks.old p.0 w }
    ensures { Stored words.old marks.old words.new marks.new p.0 w v }
{
    take_twin(words, marks, p, PageId(w / PAGE_WIDTH));
    put_word(words, p, w, v);
}

// Takes the twin of a page if the page is clean, in the sequence of the thesis (document 000, "Pages and Data", the text to figure 2.9). What comes
// after it, when the interval ends, is step_close::close_dirty.
#[tactic(auto, using(crate::proofs::Storing::store_laws))]
fn take_twin(words: &mut [u32], marks: &mut [u8], p: ProcessorId, g: PageId)
    requires { PageThere words.old marks.old p.0 g.0 }
    ensures { TwinTaken words.old marks.old words.new marks.new p.0 g.0 }
{
    if !is_dirty(marks, p, g) {
        // The page becomes one that may be written (READ_WRITE there): it is dirty.
        mark_dirty(marks, p, g);
        // Its twin is made and saved, in the twin's row.
        copy_page(words, copy_row(p, g), twin_row(p, g));
    }
}

// Stores a word in a processor's copy.
fn put_word(words: &mut [u32], p: ProcessorId, w: usize, v: u32)
    requires { WordIn words.old p.0 w }
    ensures { words.new ≡ set words.old (word_place p.0 w) v }
{
    words[word_place(p, w)] = v;
}

// The word in a processor's copy.
fn word_at(words: &[u32], p: ProcessorId, w: usize) -> u32
    requires { WordIn words.now p.0 w }
    ensures { result ≡ get_or words.now (word_place p.0 w) 0 }
{
    words[word_place(p, w)]
}

// The place of a word of a processor's copy.
fn word_place(p: ProcessorId, w: usize) -> usize
    requires { OnWord p.0 w }
    ensures value { result ≡ word_place p.0 w }
    ensures upper_bound { result < word_area }
{
    PAGE_WIDTH * copy_row(p, PageId(w / PAGE_WIDTH)) + w % PAGE_WIDTH
}
