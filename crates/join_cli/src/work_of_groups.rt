// What joiners in groups join.

ghost use Rattle.std.specs.Prelude.{◌≡◌, ◌<◌, ◌≤◌, All, None, length};
ghost use Rattle.std.proofs.Props.{props};

use crate::work::Work;
use epoch_tags::Counts;

/// What is joined by so many joiners in groups, with the number of each row of R, by which it is dealt out to them. No
/// shift is fixed.
#[derive(Clone, Copy)]
pub(crate) struct Dealt<'a> {
    pub(crate) work: Work<'a>,
    pub(crate) joiners: u32,
    pub(crate) numbers: &'a Counts,
    pub(crate) ghost free: { work.setting.now.fixed ≡ None } by { Prim.hlevel props },
    pub(crate) ghost few: { joiners ≤ 64 },
    pub(crate) ghost many: { length numbers.now ≡ length work.input.now.table_r.rows },
    pub(crate) ghost below: { All (λ number. number < joiners) numbers.now },
}
