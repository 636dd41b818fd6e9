// The load against the best.

ghost use Rattle.std.specs.Prelude.{◌≡◌, ◌++◌, OnOk, string_bytes};
ghost use Rattle.report_picture.specs.Drawing as drawing;

use std::alloc::AllocError;

/// How many hundredths of the best the load is.
pub(crate) fn hundredths(copies: u64, best: u64) -> u128
    ensures { result ≡ drawing.hundredths_of copies best }
{
    if best == 0 {
        100
    } else {
        (u128::from(copies) * 100 + u128::from(best) / 2) / u128::from(best)
    }
}

/// Adds hundredths as a number with a point.
pub(crate) fn write_ratio(text: &mut String, hundredths: u128) -> Result<(), AllocError>
    ensures { OnOk result
        (string_bytes text.new ≡ string_bytes text.old ++ drawing.ratio_of hundredths) }
{
    let whole = hundredths / 100;
    let tenth = hundredths / 10 % 10;
    let hundredth = hundredths % 10;
    write!(text, "{whole}.{tenth}{hundredth}")
}

fn write_load_name(text: &mut String, copies: u64) -> Result<(), AllocError>
    ensures { OnOk result
        (string_bytes text.new ≡ string_bytes text.old ++ drawing.load_name_of copies) }
{
    write!(
        text,
        "<g transform='translate(24 272)' text-anchor='start'><text font-size='13'>load {copies}: "
    )
}

fn write_best_name(text: &mut String, best: u64) -> Result<(), AllocError>
    ensures { OnOk result
        (string_bytes text.new ≡ string_bytes text.old ++ drawing.best_name_of best) }
{
    write!(text, " &#215; best ({best}), ")
}

fn write_verdict(text: &mut String, copies: u64, best: u64) -> Result<(), AllocError>
    ensures { OnOk result
        (string_bytes text.new ≡ string_bytes text.old ++ drawing.verdict_of copies best) }
{
    if u128::from(copies) * 4 <= u128::from(best) * 5 {
        text.push_str("at most")
    } else {
        text.push_str("more than")
    }
}

fn bar(copies: u64, best: u64) -> u128
    ensures { result ≡ drawing.bar_of copies best }
{
    if best == 0 {
        0
    } else {
        (u128::from(copies.saturating_sub(best)) * 1600 / u128::from(best)).min(400)
    }
}

fn write_scale(text: &mut String, bar: u128) -> Result<(), AllocError>
    ensures { OnOk result
        (string_bytes text.new ≡ string_bytes text.old ++ drawing.scale_of bar) }
{
    write!(
        text,
        " 5/4 of it</text>\n<rect y='12' width='{bar}' height='12' fill='#4c9be8'/><path d='M0 12H400V24H0Z' fill='none' stroke='#1f5fa8'/><path d='M{bar} 8v20' stroke='#1c2733' stroke-width='3'/><text y='40'>best</text><text x='400' y='40' text-anchor='end'>5/4 of best</text></g>\n"
    )
}

/// Adds the load against the best, in words and on a scale.
pub(crate) fn write_load(text: &mut String, copies: u64, best: u64) -> Result<(), AllocError>
    ensures { OnOk result
        (string_bytes text.new ≡ string_bytes text.old ++ drawing.load_of copies best) }
{
    write_load_name(text, copies)?;
    write_ratio(text, hundredths(copies, best))?;
    write_best_name(text, best)?;
    write_verdict(text, copies, best)?;
    write_scale(text, bar(copies, best))
}
