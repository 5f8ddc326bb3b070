// The bytes held of a record that has begun, where a file is cut within it.
#![tactic(auto)]

ghost use Rattle.file_held.specs.inner.Needed.{ZerosBehind, Holdable, HeldAll};

use limits::FILE_RECORD_WIDTH;

// Bytes held, how many, and the place in the chunk behind the last of them.
#[derive(Clone, Copy)]
pub struct Held {
    pub count: usize,
    pub bytes: [u8; FILE_RECORD_WIDTH],
    pub next: usize,
}

// Whether fewer than eight bytes are held, and the others are 0.
pub fn zeros_behind(held: usize, bytes: [u8; FILE_RECORD_WIDTH]) -> bool
    ensures { ZerosBehind result held bytes }
{
    held < FILE_RECORD_WIDTH && bytes[held..].iter().all(|byte| *byte == 0)
}

// Takes bytes of the chunk from a place on behind the bytes held, until there are eight or the chunk ends.
pub fn hold(held: usize, mut bytes: [u8; FILE_RECORD_WIDTH], chunk: &[u8], from: usize) -> Held
    requires { Holdable held bytes chunk.now from }
    ensures { HeldAll held bytes chunk.now from result }
{
    let taken = (FILE_RECORD_WIDTH - held).min(chunk.len() - from);
    let count = held + taken;
    let next = from + taken;
    bytes[held..count].copy_from_slice(&chunk[from..next]);
    Held { count, bytes, next }
}
