// What a command is asked for, by its values.
ghost use Rattle.std.specs.Prelude.{◌≡◌, IsTrue, codes, option_map, true};
ghost use Rattle.std.specs.Str.{bytes_eq};
ghost use Rattle.clap.specs.Walk.{first_of, rows_of};
ghost use Rattle.clap.specs.Words.{found_of, subcommand_rows_of};
ghost use Rattle.chip_words.specs.Commands.{HasExecution, HasJudgement, HasNumber, HasPair, HasProgram, HasProtectedRun, HasReport, HasValue, HasWorkload, IfCommand};
ghost use Rattle.chip_words.specs.Request.{asked_in, asked_of_pair, asked_of_trace, asked_to_assemble, asked_to_disassemble, asked_to_judge, asked_to_measure, asked_to_pair, asked_to_run, asked_to_run_plain, asked_to_trace, asked_to_verify, by_values, device_key_of, execution_of, file_of, form_of, geometry_of, is_flat as is_flat_in, is_taken, judgement_of, key_of, layout_of, levels_of, nonce_of, number_of, numeral_value, pair_of, program_of, report_of, run_of, side_of, tags_of, terms_of, value_of};
ghost use Rattle.chip_words.specs.Words.{answer_asked, execution_asked, file_asked, judge_asked, pair_asked, report_asked, run_asked, side_asked};

use crate::defaults::default_levels;
use crate::fault::ValueFault;
use crate::request::{
    Execution, JudgedTrace, PairRun, ProgramFile, ProgramForm, ProtectedRun, ReportFile, Request,
    SideRun, Tags, Terms,
};
use clap::ArgMatches;
use hex::FromHex;
use sec_base::{Geometry, Layout};

// What the command that was met asks for, where none of its values is refused.
pub(crate) fn requested<'a>(matches: &ArgMatches<'a>) -> Result<Request<'a>, ValueFault>
    requires taken { IsTrue (is_taken (asked_in (subcommand_rows_of matches.now))) }
    requires values { IfCommand (subcommand_rows_of matches.now) }
    ensures { asked_in (subcommand_rows_of matches.now) ≡ answer_asked result }
{
    let (name, values) = matches.subcommand().unwrap();
    match name {
        "run" => run_request(values),
        "plain" => plain_request(values),
        "asm" => assembly_request(values),
        "dis" => listing_request(values),
        "measure" => measurement_request(values),
        "verify" => report_request(values),
        "bench" => Ok(Request::Bench(workload_number(values))),
        _ => request_of_trace(name, values),
    }
}

// What `trace`, `judge` or `pair` asks for.
fn request_of_trace<'a>(name: &str, values: &ArgMatches<'a>) -> Result<Request<'a>, ValueFault>
    requires taken { IsTrue (is_taken (asked_of_trace name.now (rows_of (found_of values.now)))) }
    requires trace { bytes_eq name.now (codes "trace") ≡ true
        → HasProtectedRun (rows_of (found_of values.now)) }
    requires judge { bytes_eq name.now (codes "judge") ≡ true
        → HasJudgement (rows_of (found_of values.now)) }
    requires pair { bytes_eq name.now (codes "pair") ≡ true
        → HasPair (rows_of (found_of values.now)) }
    ensures { asked_of_trace name.now (rows_of (found_of values.now)) ≡ answer_asked result }
{
    match name {
        "trace" => trace_request(values),
        "judge" => judgement_request(values),
        _ => request_of_pair(name, values),
    }
}

// What `pair` asks for.
fn request_of_pair<'a>(name: &str, values: &ArgMatches<'a>) -> Result<Request<'a>, ValueFault>
    requires taken { IsTrue (is_taken (asked_of_pair name.now (rows_of (found_of values.now)))) }
    requires pair { bytes_eq name.now (codes "pair") ≡ true
        → HasPair (rows_of (found_of values.now)) }
    ensures { asked_of_pair name.now (rows_of (found_of values.now)) ≡ answer_asked result }
{
    match name {
        "pair" => pair_request(values),
        _ => unreachable!(),
    }
}

// `run`. The memory's shape is tested before the terms.
fn run_request<'a>(values: &ArgMatches<'a>) -> Result<Request<'a>, ValueFault>
    requires { HasProtectedRun (rows_of (found_of values.now)) }
    ensures { answer_asked result ≡ by_values (asked_to_run (rows_of (found_of values.now))) }
{
    Ok(Request::Run(protected_run(values, geometry(values)?, terms(values)?)))
}

// `plain`.
fn plain_request<'a>(values: &ArgMatches<'a>) -> Result<Request<'a>, ValueFault>
    requires { HasExecution (rows_of (found_of values.now)) }
    ensures { answer_asked result ≡ by_values (asked_to_run_plain (rows_of (found_of values.now))) }
{
    Ok(Request::Plain(execution(values, geometry(values)?)))
}

// `asm`.
fn assembly_request<'a>(values: &ArgMatches<'a>) -> Result<Request<'a>, ValueFault>
    requires { HasProgram (rows_of (found_of values.now)) }
    ensures { answer_asked result ≡ by_values (asked_to_assemble (rows_of (found_of values.now))) }
{
    Ok(Request::Asm(file(values, ProgramForm::AssemblyText, geometry(values)?)))
}

// `dis`.
fn listing_request<'a>(values: &ArgMatches<'a>) -> Result<Request<'a>, ValueFault>
    requires { HasProgram (rows_of (found_of values.now)) }
    ensures { answer_asked result
        ≡ by_values (asked_to_disassemble (rows_of (found_of values.now))) }
{
    Ok(Request::Dis(program(values, geometry(values)?)))
}

// `measure`.
fn measurement_request<'a>(values: &ArgMatches<'a>) -> Result<Request<'a>, ValueFault>
    requires { HasProgram (rows_of (found_of values.now)) }
    ensures { answer_asked result ≡ by_values (asked_to_measure (rows_of (found_of values.now))) }
{
    Ok(Request::Measure(program(values, geometry(values)?)))
}

// `verify`.
fn report_request<'a>(values: &ArgMatches<'a>) -> Result<Request<'a>, ValueFault>
    requires { HasReport (rows_of (found_of values.now)) }
    ensures { answer_asked result ≡ by_values (asked_to_verify (rows_of (found_of values.now))) }
{
    Ok(Request::Verify(report_file(values, device_key(values)?)))
}

// `trace`. The memory's shape is tested before the terms.
fn trace_request<'a>(values: &ArgMatches<'a>) -> Result<Request<'a>, ValueFault>
    requires { HasProtectedRun (rows_of (found_of values.now)) }
    ensures { answer_asked result ≡ by_values (asked_to_trace (rows_of (found_of values.now))) }
{
    Ok(Request::Trace(protected_run(values, geometry(values)?, terms(values)?)))
}

// `judge`.
fn judgement_request<'a>(values: &ArgMatches<'a>) -> Result<Request<'a>, ValueFault>
    requires { HasJudgement (rows_of (found_of values.now)) }
    ensures { answer_asked result ≡ by_values (asked_to_judge (rows_of (found_of values.now))) }
{
    Ok(Request::Judge(judged_trace(values, geometry(values)?)))
}

// `pair`. Both keys have their form before they are compared.
fn pair_request<'a>(values: &ArgMatches<'a>) -> Result<Request<'a>, ValueFault>
    requires { HasPair (rows_of (found_of values.now)) }
    ensures { answer_asked result ≡ by_values (asked_to_pair (rows_of (found_of values.now))) }
{
    let first_key = key(values, "key")?;
    let second_key = key(values, "key2")?;
    if first_key == second_key {
        return Err(ValueFault::Keys);
    }
    Ok(Request::Pair(pair_run(values, first_key, second_key)))
}

fn protected_run<'a>(values: &ArgMatches<'a>, geometry: Geometry, terms: Terms) -> ProtectedRun<'a>
    requires { HasProtectedRun (rows_of (found_of values.now)) }
    ensures { run_asked result ≡ run_of (rows_of (found_of values.now)) geometry terms }
{
    ProtectedRun {
        execution: execution(values, geometry),
        script: text(values, "script"),
        terms,
    }
}

// The terms of a run, where tags, key and nonce have their form.
fn terms(values: &ArgMatches<'_>) -> Result<Terms, ValueFault>
    requires { HasProtectedRun (rows_of (found_of values.now)) }
    ensures { result ≡ terms_of (rows_of (found_of values.now)) }
{
    let tags = tags(values)?;
    let device_key = device_key(values)?;
    let nonce = nonce(values)?;
    Ok(Terms {
        device_key,
        tags,
        page_limit: number(values, "page-limit"),
        nonce,
    })
}

fn tags(values: &ArgMatches<'_>) -> Result<Tags, ValueFault>
    requires { HasProtectedRun (rows_of (found_of values.now)) }
    ensures { result ≡ tags_of (rows_of (found_of values.now)) }
{
    match value(values, "tags") {
        "hmac" => Ok(Tags::Hmac),
        "xor" => Ok(Tags::Xor),
        _ => Err(ValueFault::Tags),
    }
}

fn device_key(values: &ArgMatches<'_>) -> Result<[u8; 32], ValueFault>
    requires { HasValue (codes "key") (rows_of (found_of values.now)) }
    ensures { result ≡ device_key_of (rows_of (found_of values.now)) }
{
    key(values, "key")
}

fn key(values: &ArgMatches<'_>, id: &str) -> Result<[u8; 32], ValueFault>
    requires { HasValue id.now (rows_of (found_of values.now)) }
    ensures { result ≡ key_of id.now (rows_of (found_of values.now)) }
{
    <[u8; 32] as FromHex>::from_hex(value(values, id)).map_err(|_| ValueFault::Key)
}

fn nonce(values: &ArgMatches<'_>) -> Result<[u8; 16], ValueFault>
    requires { HasValue (codes "nonce") (rows_of (found_of values.now)) }
    ensures { result ≡ nonce_of (rows_of (found_of values.now)) }
{
    <[u8; 16] as FromHex>::from_hex(value(values, "nonce")).map_err(|_| ValueFault::Nonce)
}

fn report_file<'a>(values: &ArgMatches<'a>, device_key: [u8; 32]) -> ReportFile<'a>
    requires { HasReport (rows_of (found_of values.now)) }
    ensures { report_asked result ≡ report_of (rows_of (found_of values.now)) device_key }
{
    ReportFile {
        name: value(values, "file"),
        device_key,
    }
}

fn judged_trace<'a>(values: &ArgMatches<'a>, geometry: Geometry) -> JudgedTrace<'a>
    requires { HasJudgement (rows_of (found_of values.now)) }
    ensures { judge_asked result ≡ judgement_of (rows_of (found_of values.now)) geometry }
{
    JudgedTrace {
        execution: execution(values, geometry),
        trace: value(values, "trace"),
    }
}

fn pair_run<'a>(values: &ArgMatches<'a>, first_key: [u8; 32], second_key: [u8; 32]) -> PairRun<'a>
    requires { HasPair (rows_of (found_of values.now)) }
    ensures { pair_asked result ≡ pair_of (rows_of (found_of values.now)) first_key second_key }
{
    PairRun {
        first: side(values, "file1", "script", first_key),
        second: side(values, "file2", "script2", second_key),
        order: text(values, "order"),
    }
}

// One of two programs, by the arguments that name its file and its script.
fn side<'a>(values: &ArgMatches<'a>, file: &str, script: &str, device_key: [u8; 32]) -> SideRun<'a>
    requires { HasValue file.now (rows_of (found_of values.now)) }
    ensures { side_asked result
        ≡ side_of file.now script.now (rows_of (found_of values.now)) device_key }
{
    SideRun {
        name: value(values, file),
        script: text(values, script),
        device_key,
    }
}

fn execution<'a>(values: &ArgMatches<'a>, geometry: Geometry) -> Execution<'a>
    requires { HasExecution (rows_of (found_of values.now)) }
    ensures { execution_asked result ≡ execution_of (rows_of (found_of values.now)) geometry }
{
    Execution {
        file: program(values, geometry),
        input: text(values, "input"),
        steps: number(values, "steps"),
    }
}

// Which generated program.
fn workload_number(values: &ArgMatches<'_>) -> u32
    requires { HasWorkload (rows_of (found_of values.now)) }
    ensures { result ≡ number_of (rows_of (found_of values.now)) }
{
    number(values, "number") as u32
}

// A program that isn't assembled.
fn program<'a>(values: &ArgMatches<'a>, geometry: Geometry) -> ProgramFile<'a>
    requires { HasProgram (rows_of (found_of values.now)) }
    ensures { file_asked result ≡ program_of (rows_of (found_of values.now)) geometry }
{
    file(values, form(values), geometry)
}

fn file<'a>(values: &ArgMatches<'a>, form: ProgramForm, geometry: Geometry) -> ProgramFile<'a>
    requires { HasProgram (rows_of (found_of values.now)) }
    ensures { file_asked result ≡ file_of form (rows_of (found_of values.now)) geometry }
{
    ProgramFile {
        name: value(values, "file"),
        form,
        geometry,
    }
}

fn form(values: &ArgMatches<'_>) -> ProgramForm
    ensures { result ≡ form_of (rows_of (found_of values.now)) }
{
    if is_flat(values) {
        ProgramForm::FlatFile
    } else {
        ProgramForm::ElfFile
    }
}

fn is_flat(values: &ArgMatches<'_>) -> bool
    ensures { result ≡ is_flat_in (rows_of (found_of values.now)) }
{
    values.get_one::<bool>("flat").unwrap_or(false)
}

// The shape of the memory's tree, where its layout has so many levels.
fn geometry(values: &ArgMatches<'_>) -> Result<Geometry, ValueFault>
    requires { HasProgram (rows_of (found_of values.now)) }
    ensures { result ≡ geometry_of (rows_of (found_of values.now)) }
{
    Geometry::with(layout(values), levels(values)).ok_or(ValueFault::Levels)
}

fn layout(values: &ArgMatches<'_>) -> Layout
    requires { HasProgram (rows_of (found_of values.now)) }
    ensures { result ≡ layout_of (rows_of (found_of values.now)) }
{
    match number(values, "layout") {
        1 => Layout::One,
        2 => Layout::Two,
        _ => unreachable!(),
    }
}

// As many as are named, else as the layout has by default.
fn levels(values: &ArgMatches<'_>) -> u8
    requires { HasProgram (rows_of (found_of values.now)) }
    ensures { result ≡ levels_of (rows_of (found_of values.now)) }
{
    match text(values, "levels") {
        Some(digits) => digits.parse::<u8>().unwrap(),
        None => default_levels(layout(values)),
    }
}

fn number(values: &ArgMatches<'_>, id: &str) -> u64
    requires { HasNumber id.now (rows_of (found_of values.now)) }
    ensures { result ≡ numeral_value (value_of id.now (rows_of (found_of values.now))) }
{
    value(values, id).parse::<u64>().unwrap()
}

fn value<'a>(values: &ArgMatches<'a>, id: &str) -> &'a str
    requires { HasValue id.now (rows_of (found_of values.now)) }
    ensures { result.now ≡ value_of id.now (rows_of (found_of values.now)) }
{
    text(values, id).unwrap()
}

// The first value of this id.
fn text<'a>(values: &ArgMatches<'a>, id: &str) -> Option<&'a str>
    ensures { option_map (λ text. text.now) result
        ≡ first_of id.now (rows_of (found_of values.now)) }
{
    values.get_str(id)
}
