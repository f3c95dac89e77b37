// The command line of the program: what each command takes.
ghost use Rattle.std.specs.Prelude.{◌≡◌, [], IfOk, false};
ghost use Rattle.clap.specs.Walk.{rule_of};
ghost use Rattle.clap.specs.Simple.{app_of, shape_of};
ghost use Rattle.clap.specs.declared.builder.command.Command.TheViews.{out-Command as fields_of};
ghost use Rattle.chip_words.specs.App.{assembly_rules, bench_rules, chip_app, command, execution_rules, inspection_rules, judgement_rules, pair_rules, protected_run_rules, turns_rules, untraced_app, verification_rules};
ghost use Rattle.chip_words.specs.App.{file_rule, first_file_rule, flat_rule, input_rule, key_rule, layout_rule, levels_rule, nonce_rule, number_rule, order_rule, page_limit_rule, script_rule, second_file_rule, second_key_rule, second_script_rule, steps_rule, tags_rule, trace_rule};

use crate::defaults::{
    DEVICE_KEY_TEXT, LAYOUT_TEXT, NONCE_TEXT, PAGE_LIMIT_TEXT, SECOND_KEY_TEXT, STEPS_TEXT,
    TAGS_TEXT,
};
use clap::{Arg, ArgAction, Command, value_parser};
use std::alloc::{AllocError, Global};

const TRACE_ABOUT: &str = "Runs a program on protected memory, and writes down what its bus saw";

pub(crate) fn app<'a>(alloc: Global) -> Result<Command<'a>, AllocError>
    ensures { IfOk result (λ app. app_of app ≡ chip_app) }
{
    let app = untraced(alloc)?
        .subcommand(protected_run(alloc, "trace", TRACE_ABOUT)?)?
        .subcommand(judgement(alloc, "judge", "Judges a trace")?)?
        .subcommand(pairing(alloc, "pair", "Runs two programs that share the core")?)?;
    Ok(app)
}

// The program with the commands that have to do with one program, and nothing with traces.
fn untraced<'a>(alloc: Global) -> Result<Command<'a>, AllocError>
    ensures { IfOk result (λ app. app_of app ≡ untraced_app) }
{
    let app = Command::new(alloc, "chip")
        .subcommand_required(true)
        .arg_required_else_help(true)
        .subcommand(protected_run(alloc, "run", "Runs a program on protected memory")?)?
        .subcommand(execution(alloc, "plain", "Runs a program on the plain machine")?)?
        .subcommand(assembly(alloc, "asm", "Makes the ELF file of an assembly text")?)?
        .subcommand(inspection(alloc, "dis", "Lists the instructions of a program")?)?
        .subcommand(inspection(alloc, "measure", "Tells the measurement of a program")?)?
        .subcommand(verification(alloc, "verify", "Checks a report and tells what it says")?)?
        .subcommand(workload(
            alloc,
            "bench",
            "Runs a generated program on protected memory",
        )?)?;
    Ok(app)
}

// A command that runs a program on protected memory.
fn protected_run<'a>(
    alloc: Global,
    name: &'a str,
    about: &'a str,
) -> Result<Command<'a>, AllocError>
    ensures shape { IfOk result (λ c. shape_of c ≡ command name.entry.now protected_run_rules) }
    ensures local { IfOk result (λ c. (fields_of c).has_globals ≡ false) }
{
    let command = execution(alloc, name, about)?
        .arg(script(alloc))?
        .arg(key(alloc))?
        .arg(nonce(alloc))?
        .arg(tags(alloc))?
        .arg(page_limit(alloc))?;
    Ok(command)
}

// A command that runs a program.
fn execution<'a>(alloc: Global, name: &'a str, about: &'a str) -> Result<Command<'a>, AllocError>
    ensures shape { IfOk result (λ c. shape_of c ≡ command name.entry.now execution_rules) }
    ensures local { IfOk result (λ c. (fields_of c).has_globals ≡ false) }
{
    let command = inspection(alloc, name, about)?
        .arg(input(alloc))?
        .arg(steps(alloc))?;
    Ok(command)
}

// A command that judges the trace of a program's run.
fn judgement<'a>(alloc: Global, name: &'a str, about: &'a str) -> Result<Command<'a>, AllocError>
    ensures shape { IfOk result (λ c. shape_of c ≡ command name.entry.now judgement_rules) }
    ensures local { IfOk result (λ c. (fields_of c).has_globals ≡ false) }
{
    let command = execution(alloc, name, about)?.arg(trace(alloc))?;
    Ok(command)
}

// A command that runs two programs.
fn pairing<'a>(alloc: Global, name: &'a str, about: &'a str) -> Result<Command<'a>, AllocError>
    ensures shape { IfOk result (λ c. shape_of c ≡ command name.entry.now pair_rules) }
    ensures local { IfOk result (λ c. (fields_of c).has_globals ≡ false) }
{
    let command = turns(alloc, name, about)?
        .arg(script(alloc))?
        .arg(second_script(alloc))?
        .arg(key(alloc))?
        .arg(second_key(alloc))?;
    Ok(command)
}

// A command that takes two programs, and the order of their turns.
fn turns<'a>(alloc: Global, name: &'a str, about: &'a str) -> Result<Command<'a>, AllocError>
    ensures shape { IfOk result (λ c. shape_of c ≡ command name.entry.now turns_rules) }
    ensures local { IfOk result (λ c. (fields_of c).has_globals ≡ false) }
{
    let command = Command::new(alloc, name)
        .about(about)
        .arg(first_file(alloc))?
        .arg(second_file(alloc))?
        .arg(order(alloc))?;
    Ok(command)
}

// A command that assembles a text.
fn assembly<'a>(alloc: Global, name: &'a str, about: &'a str) -> Result<Command<'a>, AllocError>
    ensures shape { IfOk result (λ c. shape_of c ≡ command name.entry.now assembly_rules) }
    ensures local { IfOk result (λ c. (fields_of c).has_globals ≡ false) }
{
    let command = Command::new(alloc, name)
        .about(about)
        .arg(file(alloc, "The assembly text"))?
        .arg(layout(alloc))?
        .arg(levels(alloc))?;
    Ok(command)
}

// A command that looks at a program without running it.
fn inspection<'a>(alloc: Global, name: &'a str, about: &'a str) -> Result<Command<'a>, AllocError>
    ensures shape { IfOk result (λ c. shape_of c ≡ command name.entry.now inspection_rules) }
    ensures local { IfOk result (λ c. (fields_of c).has_globals ≡ false) }
{
    let command = Command::new(alloc, name)
        .about(about)
        .arg(file(alloc, "The program"))?
        .arg(flat(alloc))?
        .arg(layout(alloc))?
        .arg(levels(alloc))?;
    Ok(command)
}

// A command that checks a report.
fn verification<'a>(alloc: Global, name: &'a str, about: &'a str) -> Result<Command<'a>, AllocError>
    ensures shape { IfOk result (λ c. shape_of c ≡ command name.entry.now verification_rules) }
    ensures local { IfOk result (λ c. (fields_of c).has_globals ≡ false) }
{
    let command = Command::new(alloc, name)
        .about(about)
        .arg(file(alloc, "The report"))?
        .arg(key(alloc))?;
    Ok(command)
}

// A command that runs a generated program.
fn workload<'a>(alloc: Global, name: &'a str, about: &'a str) -> Result<Command<'a>, AllocError>
    ensures shape { IfOk result (λ c. shape_of c ≡ command name.entry.now bench_rules) }
    ensures local { IfOk result (λ c. (fields_of c).has_globals ≡ false) }
{
    let command = Command::new(alloc, name).about(about).arg(number(alloc))?;
    Ok(command)
}

fn file<'a>(alloc: Global, help: &'a str) -> Arg<'a>
    ensures rule { rule_of result ≡ file_rule }
    ensures local { result.global ≡ false }
{
    Arg::new(alloc, "file")
        .value_name("FILE")
        .required(true)
        .help(help)
}

fn trace<'a>(alloc: Global) -> Arg<'a>
    ensures rule { rule_of result ≡ trace_rule }
    ensures local { result.global ≡ false }
{
    Arg::new(alloc, "trace")
        .value_name("TRACE")
        .required(true)
        .help("The trace")
}

fn first_file<'a>(alloc: Global) -> Arg<'a>
    ensures rule { rule_of result ≡ first_file_rule }
    ensures local { result.global ≡ false }
{
    Arg::new(alloc, "file1")
        .value_name("FILE1")
        .required(true)
        .help("The first program")
}

fn second_file<'a>(alloc: Global) -> Arg<'a>
    ensures rule { rule_of result ≡ second_file_rule }
    ensures local { result.global ≡ false }
{
    Arg::new(alloc, "file2")
        .value_name("FILE2")
        .required(true)
        .help("The second program")
}

fn order<'a>(alloc: Global) -> Arg<'a>
    ensures rule { rule_of result ≡ order_rule }
    ensures local { result.global ≡ false }
{
    Arg::new(alloc, "order").long("order").value_name("F").help(
        "Whose turn it is, over and over: a byte 00 or 01 for each; 00 01 by default",
    )
}

fn number<'a>(alloc: Global) -> Arg<'a>
    ensures rule { rule_of result ≡ number_rule }
    ensures local { result.global ≡ false }
{
    Arg::new(alloc, "number")
        .value_name("NUMBER")
        .value_parser(value_parser!(u64).range(0..=4294967295))
        .required(true)
        .help("Which program, from 0 to 4294967295")
}

fn flat<'a>(alloc: Global) -> Arg<'a>
    ensures rule { rule_of result ≡ flat_rule }
    ensures local { result.global ≡ false }
{
    Arg::new(alloc, "flat")
        .long("flat")
        .action(ArgAction::SetTrue)
        .help("FILE has the program's bytes and nothing else; without this it is an ELF file")
}

fn input<'a>(alloc: Global) -> Arg<'a>
    ensures rule { rule_of result ≡ input_rule }
    ensures local { result.global ≡ false }
{
    Arg::new(alloc, "input")
        .long("input")
        .value_name("F")
        .help("The program's input, empty by default")
}

fn layout<'a>(alloc: Global) -> Arg<'a>
    ensures rule { rule_of result ≡ layout_rule }
    ensures local { result.global ≡ false }
{
    Arg::new(alloc, "layout")
        .long("layout")
        .value_name("1|2")
        .value_parser(value_parser!(u64).range(1..=2))
        .default_value(LAYOUT_TEXT)
        .help("The layout of the memory's tree: 1, of four children a node, or 2, of eight")
}

fn levels<'a>(alloc: Global) -> Arg<'a>
    ensures rule { rule_of result ≡ levels_rule }
    ensures local { result.global ≡ false }
{
    Arg::new(alloc, "levels")
        .long("levels")
        .value_name("L")
        .value_parser(value_parser!(u64).range(1..=8))
        .help(
            "The levels of the memory's tree: 1 to 8, by default 4; of layout 2 1 to 5, by default 3",
        )
}

fn steps<'a>(alloc: Global) -> Arg<'a>
    ensures rule { rule_of result ≡ steps_rule }
    ensures local { result.global ≡ false }
{
    Arg::new(alloc, "steps")
        .long("steps")
        .value_name("N")
        .value_parser(value_parser!(u64))
        .default_value(STEPS_TEXT)
        .help("How many instructions may be retired")
}

fn script<'a>(alloc: Global) -> Arg<'a>
    ensures rule { rule_of result ≡ script_rule }
    ensures local { result.global ≡ false }
{
    Arg::new(alloc, "script")
        .long("script")
        .value_name("F")
        .help("What an adversary does to the memory outside the chip, nothing by default")
}

fn second_script<'a>(alloc: Global) -> Arg<'a>
    ensures rule { rule_of result ≡ second_script_rule }
    ensures local { result.global ≡ false }
{
    Arg::new(alloc, "script2")
        .long("script2")
        .value_name("F")
        .help("What an adversary does to the second program's memory, nothing by default")
}

fn key<'a>(alloc: Global) -> Arg<'a>
    ensures rule { rule_of result ≡ key_rule }
    ensures local { result.global ≡ false }
{
    Arg::new(alloc, "key")
        .long("key")
        .value_name("HEX")
        .default_value(DEVICE_KEY_TEXT)
        .help("The key of the device, of 64 digits")
}

fn second_key<'a>(alloc: Global) -> Arg<'a>
    ensures rule { rule_of result ≡ second_key_rule }
    ensures local { result.global ≡ false }
{
    Arg::new(alloc, "key2")
        .long("key2")
        .value_name("HEX")
        .default_value(SECOND_KEY_TEXT)
        .help("The key of the second program's device, of 64 digits")
}

fn nonce<'a>(alloc: Global) -> Arg<'a>
    ensures rule { rule_of result ≡ nonce_rule }
    ensures local { result.global ≡ false }
{
    Arg::new(alloc, "nonce")
        .long("nonce")
        .value_name("HEX")
        .default_value(NONCE_TEXT)
        .help("What the report is to answer, of 32 digits")
}

fn tags<'a>(alloc: Global) -> Arg<'a>
    ensures rule { rule_of result ≡ tags_rule }
    ensures local { result.global ≡ false }
{
    Arg::new(alloc, "tags")
        .long("tags")
        .value_name("T")
        .default_value(TAGS_TEXT)
        .help("How memory is tagged: hmac, or xor, which can be forged and is for teaching")
}

fn page_limit<'a>(alloc: Global) -> Arg<'a>
    ensures rule { rule_of result ≡ page_limit_rule }
    ensures local { result.global ≡ false }
{
    Arg::new(alloc, "page-limit")
        .long("page-limit")
        .value_name("N")
        .value_parser(value_parser!(u64))
        .default_value(PAGE_LIMIT_TEXT)
        .help("How high a page counter may rise")
}
