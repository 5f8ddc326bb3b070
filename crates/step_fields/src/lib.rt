// A step: its four fields, as they stand in a record of eight bytes, and the kinds that are known.
#![tactic(auto)]

mod kinds;

ghost use Rattle.std.specs.Prelude.{◌+◌, ◌≤◌, length};
ghost use Rattle.limits.specs.Files.{file_record_width};
ghost use Rattle.step_fields.specs.inner.Needed.{FieldsAre};

pub use kinds::Kind;

// The four fields of a step, any numbers.
#[derive(Clone, Copy, PartialEq, Eq)]
pub struct Step {
    pub kind: u32,
    pub processor: u32,
    pub object: u32,
    pub value: u32,
}

impl Step {
    // The step in the record of eight bytes from a place on.
    pub fn in_record(bytes: &[u8], at: usize) -> Step
        requires { at + file_record_width ≤ length bytes.now }
        ensures { FieldsAre bytes.now at result.kind result.processor result.object result.value }
    {
        let object = u16::from_le_bytes([bytes[at + 2], bytes[at + 3]]);
        let value = u32::from_le_bytes([
            bytes[at + 4],
            bytes[at + 5],
            bytes[at + 6],
            bytes[at + 7],
        ]);
        Step {
            kind: u32::from(bytes[at]),
            processor: u32::from(bytes[at + 1]),
            object: u32::from(object),
            value,
        }
    }
}
