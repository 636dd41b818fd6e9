// What runs.

ghost use Rattle.std.proofs.Props.{props};
ghost use Rattle.trace_law.specs.Validity.{IsValidInput, IsValidSetting};

use link_trace::{Input, Setting};

/// A valid input with a valid setting of its run, and the number of a replay where it is one.
#[derive(Clone, Copy)]
pub(crate) struct Work<'a> {
    pub(crate) input: &'a Input,
    pub(crate) setting: &'a Setting,
    pub(crate) number: Option<u64>,
    pub(crate) ghost valid_input: { IsValidInput input.now } by { Prim.hlevel props },
    pub(crate) ghost valid_setting: { IsValidSetting setting.now } by { Prim.hlevel props },
}
