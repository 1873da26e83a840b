//! The command `calq`.
ghost use Rattle.std.specs.Prelude.{◌≡◌, ◌++◌, [], ◌∷◌, List, ℕ, IfOk, codes, false};
ghost use Rattle.clap.specs.Simple.{app_of, with_rule};
ghost use Rattle.clap.specs.Walk.{rule_of};
ghost use Rattle.command_line.specs.Reading.{word_rule, budget_rule, bare_shape, calq};

use cal_value::BUDGET_LIMIT;
use clap::builder::ValueParser;
use clap::{Arg, ArgAction, Command};
use std::alloc::{AllocError, Global};

fn word_argument<'a>(alloc: Global, id: &'a str) -> Arg<'a>
    ensures rule { rule_of result ≡ word_rule id.entry.now }
    ensures local { result.global ≡ false }
{
    Arg::new(alloc, id).required(true).action(ArgAction::Set)
}

fn budget_argument<'a>(alloc: Global) -> Arg<'a>
    ensures rule { rule_of result ≡ budget_rule }
    ensures local { result.global ≡ false }
{
    Arg::new(alloc, "budget")
        .long("budget")
        .action(ArgAction::Set)
        .value_parser(ValueParser::unsigned(1, BUDGET_LIMIT))
}

fn bare_command<'a>(alloc: Global) -> Command<'a>
    ensures { app_of result ≡ record { top = bare_shape; subs = [] } }
{
    Command::new(alloc, "calq")
        .no_binary_name(true)
        .disable_help_flag(true)
}

/// `calq MODEL SQL [--budget N]`.
pub(crate) fn calq_command<'a>(alloc: Global) -> Result<Command<'a>, AllocError>
    ensures { IfOk result (λ command. app_of command ≡ calq) }
{
    let model = word_argument(alloc, "MODEL");
    let sql = word_argument(alloc, "SQL");
    let budget = budget_argument(alloc);
    bare_command(alloc).arg(model)?.arg(sql)?.arg(budget)
}
