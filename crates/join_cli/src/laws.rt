// What holds of every output, and of every end.

ghost use Rattle.join_cli.specs.Past.{PastIsTooLong};
ghost use Rattle.join_cli.specs.Plan.{FixedOutputIsOne};

/// With a fixed shift the output is the same over each journal of a lawful controller: words and
/// files alone decide it.
pub fn fixed_output_is_one()
    ensures { FixedOutputIsOne }
{}

/// Where a run of files ended at a place past the greatest length, what `join_main` says of
/// each shelf (`seen`) leaves one answer: that file is too long.
pub fn past_is_too_long()
    ensures { PastIsTooLong }
{}
