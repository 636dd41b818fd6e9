// When all is over, and the message that says so.

ghost use Rattle.std.specs.Prelude.{◌≡◌, ◌++◌, ◌&&◌, [], not, OnOk, if◌then◌else◌};
ghost use Rattle.std.specs.List.{list_all};
ghost use Rattle.epoch_tags.specs.declared.message.ToFeeder.TheVariants.{Stop};
ghost use Rattle.load_controller.specs.Standing.{to_each};

use crate::line::TurnLine;
use crate::post::post_to_each;
use epoch_tags::{Sends, ToFeeder, are_all_up};
use std::alloc::AllocError;

// Whether nothing moves after this line, and each feeder has drained.
pub(crate) fn is_over(line: TurnLine, drained: &Vec<bool>) -> bool
    ensures { result ≡ (not line.moving && list_all (λ up. up) drained.now.items) }
{
    !line.moving && are_all_up(drained)
}

// Sends `Stop` to every feeder at the first line at which all is over, and else nothing.
pub(crate) fn post_stop(feeders: u32, ends: bool, sends: &mut Sends) -> Result<(), AllocError>
    ensures { OnOk result (sends.new ≡ sends.old ++ (if ends then to_each feeders Stop else [])) }
{
    if ends {
        post_to_each(feeders, ToFeeder::Stop, sends)?;
    }
    Ok(())
}
