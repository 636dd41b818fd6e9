// The command that clap matches: one function for each kind of argument, and their list.

ghost use Rattle.std.specs.Prelude.{◌≡◌, ◌++◌, ◌∷◌, List, [], IfOk, OnOk, false};
ghost use Rattle.clap.specs.Walk.{Rule, rule_of};
ghost use Rattle.clap.specs.Simple.{app_of};
ghost use Rattle.join_words.specs.Command.{HaveRules, IsCommand, actor_rules, default_rule, files_rule, flag_rule, kind_rules, number_rule, option_rule, output_rules, rules, setting_rules, text_or_rule, text_rule};

use clap::builder::ValueParser;
use clap::{Arg, ArgAction, Command};
use std::alloc::{AllocError, Global};

/// `--id TEXT`, which must be there.
fn text<'a>(alloc: Global, id: &'a str) -> Arg<'a>
    ensures rule { rule_of result ≡ text_rule id.entry.now }
    ensures local { result.global ≡ false }
{
    Arg::new(alloc, id).long(id).required(true)
}

/// `--id TEXT`, which needn't be there.
fn option<'a>(alloc: Global, id: &'a str) -> Arg<'a>
    ensures rule { rule_of result ≡ option_rule id.entry.now }
    ensures local { result.global ≡ false }
{
    Arg::new(alloc, id).long(id)
}

/// `--id N`, from `least` to `most`.
fn number<'a>(alloc: Global, id: &'a str, least: u64, most: u64) -> Arg<'a>
    ensures rule { rule_of result ≡ number_rule id.entry.now least most }
    ensures local { result.global ≡ false }
{
    Arg::new(alloc, id)
        .long(id)
        .value_parser(ValueParser::unsigned(least, most))
}

/// `--id N`, from `least` to `most`, or else `value`.
fn number_or<'a>(alloc: Global, id: &'a str, least: u64, most: u64, value: &'a str) -> Arg<'a>
    ensures rule { rule_of result ≡ default_rule id.entry.now least most value.entry.now }
    ensures local { result.global ≡ false }
{
    number(alloc, id, least, most).default_value(value)
}

/// `--id TEXT`, or else `value`.
fn text_or<'a>(alloc: Global, id: &'a str, value: &'a str) -> Arg<'a>
    ensures rule { rule_of result ≡ text_or_rule id.entry.now value.entry.now }
    ensures local { result.global ≡ false }
{
    Arg::new(alloc, id).long(id).default_value(value)
}

/// `--id`, without a value.
fn flag<'a>(alloc: Global, id: &'a str) -> Arg<'a>
    ensures rule { rule_of result ≡ flag_rule id.entry.now }
    ensures local { result.global ≡ false }
{
    Arg::new(alloc, id).long(id).action(ArgAction::SetTrue)
}

/// Any number of words that no option takes.
fn files<'a>(alloc: Global, id: &'a str) -> Arg<'a>
    ensures rule { rule_of result ≡ files_rule id.entry.now }
    ensures local { result.global ≡ false }
{
    Arg::new(alloc, id).num_args(0..)
}

/// Appends an argument.
fn add<'a>(args: &mut Vec<Arg<'a>>, arg: Arg<'a>) -> Result<(), AllocError>
    ensures { (before : List Rule) → HaveRules before args.old.items → arg.entry.global ≡ false
        → OnOk result (HaveRules (before ++ rule_of arg.entry ∷ []) args.new.items) }
{
    args.push(arg)?;
    Ok(())
}

fn add_text<'a>(alloc: Global, args: &mut Vec<Arg<'a>>, id: &'a str) -> Result<(), AllocError>
    ensures { (before : List Rule) → HaveRules before args.old.items
        → OnOk result (HaveRules (before ++ text_rule id.entry.now ∷ []) args.new.items) }
{
    add(args, text(alloc, id))
}

fn add_option<'a>(alloc: Global, args: &mut Vec<Arg<'a>>, id: &'a str) -> Result<(), AllocError>
    ensures { (before : List Rule) → HaveRules before args.old.items
        → OnOk result (HaveRules (before ++ option_rule id.entry.now ∷ []) args.new.items) }
{
    add(args, option(alloc, id))
}

fn add_number<'a>(
    alloc: Global,
    args: &mut Vec<Arg<'a>>,
    id: &'a str,
    least: u64,
    most: u64,
) -> Result<(), AllocError>
    ensures { (before : List Rule) → HaveRules before args.old.items
        → OnOk result (HaveRules (before ++ number_rule id.entry.now least most ∷ []) args.new.items) }
{
    add(args, number(alloc, id, least, most))
}

fn add_number_or<'a>(
    alloc: Global,
    args: &mut Vec<Arg<'a>>,
    id: &'a str,
    least: u64,
    most: u64,
    value: &'a str,
) -> Result<(), AllocError>
    ensures { (before : List Rule) → HaveRules before args.old.items
        → OnOk result (HaveRules (before ++ default_rule id.entry.now least most value.entry.now ∷ []) args.new.items) }
{
    add(args, number_or(alloc, id, least, most, value))
}

fn add_text_or<'a>(
    alloc: Global,
    args: &mut Vec<Arg<'a>>,
    id: &'a str,
    value: &'a str,
) -> Result<(), AllocError>
    ensures { (before : List Rule) → HaveRules before args.old.items
        → OnOk result (HaveRules (before ++ text_or_rule id.entry.now value.entry.now ∷ []) args.new.items) }
{
    add(args, text_or(alloc, id, value))
}

fn add_flag<'a>(alloc: Global, args: &mut Vec<Arg<'a>>, id: &'a str) -> Result<(), AllocError>
    ensures { (before : List Rule) → HaveRules before args.old.items
        → OnOk result (HaveRules (before ++ flag_rule id.entry.now ∷ []) args.new.items) }
{
    add(args, flag(alloc, id))
}

fn add_files<'a>(alloc: Global, args: &mut Vec<Arg<'a>>, id: &'a str) -> Result<(), AllocError>
    ensures { (before : List Rule) → HaveRules before args.old.items
        → OnOk result (HaveRules (before ++ files_rule id.entry.now ∷ []) args.new.items) }
{
    add(args, files(alloc, id))
}

/// Appends the predicate, and how many joiners, feeders and workers there are.
fn add_actors<'a>(alloc: Global, args: &mut Vec<Arg<'a>>) -> Result<(), AllocError>
    ensures { (before : List Rule) → HaveRules before args.old.items
        → OnOk result (HaveRules (before ++ actor_rules) args.new.items) }
{
    add_text(alloc, args, "on")?;
    add_number_or(alloc, args, "joiners", 1, 64, "4")?;
    add_number_or(alloc, args, "feeders", 1, 8, "2")?;
    add_number_or(alloc, args, "workers", 1, 16, "4")?;
    add_number_or(alloc, args, "batch", 1, 4096, "64")?;
    Ok(())
}

/// Appends what governs a run: the order of its rows, its tickets, its grid and the rows' weights.
fn add_setting<'a>(alloc: Global, args: &mut Vec<Arg<'a>>) -> Result<(), AllocError>
    ensures { (before : List Rule) → HaveRules before args.old.items
        → OnOk result (HaveRules (before ++ setting_rules) args.new.items) }
{
    add_text_or(alloc, args, "feed", "alternate")?;
    add_number_or(alloc, args, "seed", 0, u64::MAX, "1")?;
    add_number(alloc, args, "fixed", 0, 6)?;
    add_number_or(alloc, args, "weight-r", 1, 1024, "1")?;
    add_number_or(alloc, args, "weight-s", 1, 1024, "1")?;
    Ok(())
}

/// Appends where rows come from, and what is written.
fn add_output<'a>(alloc: Global, args: &mut Vec<Arg<'a>>) -> Result<(), AllocError>
    ensures { (before : List Rule) → HaveRules before args.old.items
        → OnOk result (HaveRules (before ++ output_rules) args.new.items) }
{
    add_number(alloc, args, "replay", 0, u64::MAX)?;
    add_number(alloc, args, "make", 1, 65536)?;
    add_flag(alloc, args, "early")?;
    add_flag(alloc, args, "report")?;
    add_flag(alloc, args, "rows")?;
    Ok(())
}

/// Appends the other kinds of run, and the files.
fn add_kinds<'a>(alloc: Global, args: &mut Vec<Arg<'a>>) -> Result<(), AllocError>
    ensures { (before : List Rule) → HaveRules before args.old.items
        → OnOk result (HaveRules (before ++ kind_rules) args.new.items) }
{
    add_flag(alloc, args, "groups")?;
    add_option(alloc, args, "then")?;
    add_flag(alloc, args, "rings")?;
    add_number(alloc, args, "grow", 1, 3)?;
    add_files(alloc, args, "files")?;
    Ok(())
}

/// Appends all arguments.
fn add_all<'a>(alloc: Global, args: &mut Vec<Arg<'a>>) -> Result<(), AllocError>
    ensures { args.old.items ≡ [] → OnOk result (HaveRules rules args.new.items) }
{
    add_actors(alloc, args)?;
    add_setting(alloc, args)?;
    add_output(alloc, args)?;
    add_kinds(alloc, args)
}

/// The command of `jm`, by which clap matches its words.
pub fn command<'a>(alloc: Global) -> Result<Command<'a>, AllocError>
    ensures { IfOk result (λ command. IsCommand (app_of command)) }
{
    let mut args = Vec::new(alloc);
    match add_all(alloc, &mut args) {
        Ok(()) => {
            let made = Command::new(alloc, "jm").args(args);
            made
        }
        Err(refused) => {
            drop(args);
            Err(refused)
        }
    }
}
