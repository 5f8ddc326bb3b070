// A diff read run by run: what stands at a place of it, and the words of one run as a part of the caller's own bytes.
// Every contract is an equation with a definition of specs/.
#![tactic(auto)]

ghost use Rattle.std.specs.Prelude.{◌≡◌};
ghost use Rattle.limits.specs.Limits.{page_width};
ghost use Rattle.diff.specs.Reading.{runs_in, words_place};
ghost use Rattle.diff_reader.specs.Pairs.{said, pair_among, pair_at, words_of, moved, Readable};

// A run of a diff: its offset and length in words, where its words stand, and the next pair's place.
#[derive(Clone, Copy)]
pub struct Pair {
    pub offset: usize,
    pub len: usize,
    pub words: usize,
    pub next: usize,
}

// The pair at a place of a diff, or that there is none.
#[tactic(auto, using(crate::proofs::Pairs::pair_laws))]
pub fn pair_at(bytes: &[u8], at: usize) -> Option<Pair>
    ensures { said result ≡ pair_at page_width bytes.now at }
{
    match diff::check(bytes) {
        Ok(()) => find_pair(bytes, at),
        Err(_) => None,
    }
}

// The same where the bytes are known to be a diff.
#[tactic(auto, using(crate::proofs::Pairs::pair_laws))]
fn find_pair(bytes: &[u8], at: usize) -> Option<Pair>
    requires { Readable bytes.now }
    ensures { said result ≡ pair_among (runs_in bytes.now) 1 (words_place bytes.now) at }
{
    let n = usize::from(bytes[0]);
    let mut words = 1 + 2 * n;
    for k in 0..n {
        let first = 1 + 2 * k;
        let offset = usize::from(bytes[first]);
        let len = usize::from(bytes[first + 1]);
        if at == first {
            return Some(Pair {
                offset,
                len,
                words,
                next: first + 2,
            });
        }
        words += 4 * len;
    }
    None
}

// The words of the run at a place, as that part of the caller's bytes; no bytes where there is no pair.
#[tactic(auto, using(crate::proofs::Pairs::pair_laws))]
pub fn words_at(bytes: &[u8], at: usize) -> &[u8]
    ensures { result.now ≡ words_of (pair_at page_width bytes.now at) bytes.now }
{
    match pair_at(bytes, at) {
        Some(pair) => &bytes[pair.words..pair.words + 4 * pair.len],
        None => &[],
    }
}

// A reader stands at a place of a diff's bytes.
#[derive(Drop)]
pub struct Reader<'a> {
    pub bytes: &'a [u8],
    pub at: usize,
}

impl<'a> Reader<'a> {
    // The reader that stands at a place; the first pair's is 1.
    pub fn new(bytes: &'a [u8], at: usize) -> Reader<'a>
        ensures { (result.bytes ≡ bytes.entry) × (result.at ≡ at) }
    {
        Reader { bytes, at }
    }

    // The pair at which the reader stands, or that there is none; the reader moves on to the next, and stays where there is none.
    #[tactic(auto, using(crate::proofs::Pairs::pair_laws))]
    pub fn next(&mut self) -> Option<Pair>
        ensures { (said result ≡ pair_at page_width self.old.bytes.now self.old.at) × (self.new ≡ moved self.old) }
    {
        let pair = pair_at(self.bytes, self.at);
        if let Some(pair) = pair {
            self.at = pair.next;
        }
        pair
    }
}
