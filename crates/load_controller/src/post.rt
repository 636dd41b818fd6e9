// What is sent to the feeders for a line.

ghost use Rattle.std.specs.Prelude.{◌≡◌, ◌++◌, OnOk};
ghost use Rattle.epoch_tags.specs.declared.message.ToFeeder.{ToFeeder};
ghost use Rattle.load_controller.specs.Standing.{to_each, grant_for};
ghost use Rattle.load_controller.specs.Machine.{posts_of};

use crate::line::{Cause, TurnLine};
use crate::stop::post_stop;
use epoch_tags::{Actor, Msg, Post, Sends, ToFeeder};
use std::alloc::AllocError;

// Sends the message to every feeder, rising.
pub(crate) fn post_to_each(feeders: u32, m: ToFeeder, sends: &mut Sends) -> Result<(), AllocError>
    ensures { OnOk result (sends.new ≡ sends.old ++ to_each feeders m) }
{
    for p in 0..feeders {
        sends.push(Post {
            to: Actor::Feeder(p),
            msg: Msg::Feeder(m),
        })?;
    }
    Ok(())
}

// Grants a batch to the feeder that asked for it.
fn post_grant(cause: Cause, sends: &mut Sends) -> Result<(), AllocError>
    ensures { OnOk result (sends.new ≡ sends.old ++ grant_for cause) }
{
    match cause {
        Cause::Start => Ok(()),
        Cause::Wave => Ok(()),
        Cause::Count { feeder, .. } => {
            sends.push(Post {
                to: Actor::Feeder(feeder),
                msg: Msg::Feeder(ToFeeder::Grant),
            })?;
            Ok(())
        }
        Cause::Settle { .. } => Ok(()),
        Cause::Drain { .. } => Ok(()),
    }
}

// Sends what the line after `before` sends; it is the first at which all is over, or isn't.
pub(crate) fn post_line(
    feeders: u32,
    before: TurnLine,
    line: TurnLine,
    ends: bool,
    sends: &mut Sends,
) -> Result<(), AllocError>
    ensures { OnOk result (sends.new ≡ sends.old ++ posts_of feeders line before ends) }
{
    if line.epoch != before.epoch {
        let order = ToFeeder::Order {
            epoch: line.epoch,
            shift: line.shift,
        };
        post_to_each(feeders, order, sends)?;
    }
    post_grant(line.cause, sends)?;
    post_stop(feeders, ends, sends)
}
