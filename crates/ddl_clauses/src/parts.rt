// What written clauses say of a definition.
ghost use Rattle.std.specs.Prelude.{◌≡◌, Some, None, IfOk, MatchOption};
ghost use Rattle.ddl_clauses.specs.Clauses.{WrittenFunction, source as written_source, written_function};
ghost use Rattle.ddl_clauses.specs.Parts.{value_of_setting, text_or_none, format_or_tab, flag_or, whole_or, short_or};
ghost use Rattle.ddl_clauses.specs.Parts.{strategy_or_min, update_with_lag, kept_short, pool_size_in, is_run_directly};
ghost use Rattle.ddl_clauses.specs.Parts.{source_with, array_size_in, cache_with, layout_with, clause_of_kind};
ghost use Rattle.ddl_clauses.specs.Parts.{written_source_in, written_layout_in, lifetime_in, range_names_in, output_in};
ghost use Rattle.ddl_clauses.specs.Parts.{comment_in, dictionary_parts, default_output, output_or_default, sizes};
ghost use Rattle.ddl_clauses.specs.Parts.{function_parts};

use crate::clause::{Clause, ClauseKind, RangeNames, WrittenSource};
use crate::layouts::LayoutName;
use crate::reading::{clause_number, number_of_clause};
use crate::settings::{Owner, Setting, SettingName, SettingValue, setting_number};
use dict_schema::{CacheSet, Format, Kind, Layout, Lifetime, SourceOf, Strategy, Update};
use dict_value::{Bytes, NoMemory};
use std::alloc::Global;

/// Quantities as they are written; the parts keep 32 bits of them, and the greatest such number in
/// place of a greater one.
#[derive(Clone, Copy, Debug, PartialEq, Eq)]
pub struct Sizes {
    /// The greatest number of bytes of one output.
    pub output: u64,
    /// The greatest key of a flat layout, and one more.
    pub array_size: u64,
    pub pool_size: u64,
}

/// What the clauses of a dictionary say.
#[derive(Debug, Drop)]
pub struct DictionaryParts {
    pub source: SourceOf,
    pub layout: Layout,
    pub lifetime: Lifetime,
    pub range: Option<RangeNames>,
    /// The greatest number of bytes of one output.
    pub max_output: u32,
    pub comment: Bytes,
    pub sizes: Sizes,
}

/// What the source and the settings of a function say.
#[derive(Debug, Drop)]
pub struct FunctionParts {
    pub source: SourceOf,
    /// The greatest number of bytes of one output.
    pub max_output: u32,
    pub sizes: Sizes,
}

/// The value of a setting, where it is there.
#[tactic(auto, unfolding(crate::specs::Parts::value_of_setting))]
fn value_of_setting(name: SettingName, settings: &[Setting]) -> Option<&SettingValue>
    ensures { MatchOption result (value_of_setting name settings.now ≡ None)
        (λ value. value_of_setting name settings.now ≡ Some value.now) }
{
    let mut rest = settings;
    while let [setting, others @ ..] = rest {
        if setting_number(setting.name) == setting_number(name) {
            return Some(&setting.value);
        }
        rest = others;
    }
    None
}

fn text_of(alloc: Global, name: SettingName, settings: &[Setting]) -> Result<Bytes, NoMemory>
    ensures { IfOk result (λ text. text ≡ text_or_none (value_of_setting name settings.now)) }
{
    match value_of_setting(name, settings) {
        Some(SettingValue::Text(text)) => Bytes::copy_of(alloc, text.as_slice()),
        _ => Ok(Bytes::new(alloc)),
    }
}

fn format_of(name: SettingName, settings: &[Setting]) -> Format
    ensures { result ≡ format_or_tab (value_of_setting name settings.now) }
{
    match value_of_setting(name, settings) {
        Some(SettingValue::Format(format)) => *format,
        _ => Format::Tab,
    }
}

fn flag_of(name: SettingName, settings: &[Setting], default: bool) -> bool
    ensures { result ≡ flag_or default (value_of_setting name settings.now) }
{
    match value_of_setting(name, settings) {
        Some(SettingValue::Flag(flag)) => *flag,
        _ => default,
    }
}

fn whole_of(name: SettingName, settings: &[Setting], default: u64) -> u64
    ensures { result ≡ whole_or default (value_of_setting name settings.now) }
{
    match value_of_setting(name, settings) {
        Some(SettingValue::Whole(n)) => *n,
        _ => default,
    }
}

fn short_of(name: SettingName, settings: &[Setting], default: u32) -> u32
    ensures { result ≡ short_or default (value_of_setting name settings.now) }
{
    match value_of_setting(name, settings) {
        Some(SettingValue::Short(n)) => *n,
        _ => default,
    }
}

fn strategy_of(settings: &[Setting]) -> Strategy
    ensures { result ≡ strategy_or_min (value_of_setting SettingName.RangeStrategy settings.now) }
{
    match value_of_setting(SettingName::RangeStrategy, settings) {
        Some(SettingValue::Strategy(strategy)) => *strategy,
        _ => Strategy::Min,
    }
}

fn update_of(alloc: Global, lag: u32, settings: &[Setting]) -> Result<Update, NoMemory>
    ensures { IfOk result (λ update.
        update ≡ update_with_lag lag (value_of_setting SettingName.UpdateField settings.now)) }
{
    match value_of_setting(SettingName::UpdateField, settings) {
        Some(SettingValue::Text(name)) => Ok(Update::Field {
            name: Bytes::copy_of(alloc, name.as_slice())?,
            lag,
        }),
        _ => Ok(Update::None),
    }
}

/// A number, or the greatest of 32 bits where it is greater.
fn kept_short(n: u64) -> u32
    ensures { result ≡ kept_short n }
{
    let most = u64::from(u32::MAX);
    if n < most { n as u32 } else { u32::MAX }
}

fn pool_size_of(settings: &[Setting]) -> u64
    ensures { result ≡ pool_size_in settings.now }
{
    whole_of(SettingName::PoolSize, settings, 16)
}

fn is_run_directly(owner: Owner) -> bool
    ensures { result ≡ is_run_directly owner }
{
    match owner {
        Owner::Dictionary => false,
        Owner::Function => true,
    }
}

/// A source with its defaults.
fn source_with(
    alloc: Global,
    owner: Owner,
    kind: Kind,
    settings: &[Setting],
) -> Result<SourceOf, NoMemory>
    ensures { IfOk result (λ source. source ≡ source_with owner (written_source kind settings.now)) }
{
    let lag = short_of(SettingName::UpdateLag, settings, 1);
    Ok(SourceOf {
        kind,
        command: text_of(alloc, SettingName::Command, settings)?,
        format: format_of(SettingName::Format, settings),
        direct: flag_of(SettingName::ExecuteDirect, settings, is_run_directly(owner)),
        implicit: flag_of(SettingName::ImplicitKey, settings, false),
        header: flag_of(SettingName::SendChunkHeader, settings, false),
        read_ms: short_of(SettingName::ReadTimeout, settings, 10_000),
        write_ms: short_of(SettingName::WriteTimeout, settings, 10_000),
        end_s: short_of(SettingName::TerminationTimeout, settings, 10),
        pool_size: kept_short(pool_size_of(settings)),
        execution_s: short_of(SettingName::ExecutionTime, settings, 10),
        update: update_of(alloc, lag, settings)?,
    })
}

fn array_size_of(settings: &[Setting]) -> u64
    ensures { result ≡ array_size_in settings.now }
{
    whole_of(SettingName::MaxArraySize, settings, 500_000)
}

fn cache_with(settings: &[Setting]) -> CacheSet
    ensures { result ≡ cache_with settings.now }
{
    CacheSet {
        cells: whole_of(SettingName::SizeInCells, settings, 0),
        expired: flag_of(SettingName::ReadExpired, settings, false),
        queue: short_of(SettingName::UpdateQueue, settings, 100_000),
    }
}

fn flat_with(settings: &[Setting]) -> Layout
    ensures { result ≡ layout_with LayoutName.Flat settings.now }
{
    Layout::Flat {
        initial: short_of(SettingName::InitialArraySize, settings, 1024),
        max: kept_short(array_size_of(settings)),
    }
}

/// A layout with its defaults.
fn layout_with(name: LayoutName, settings: &[Setting]) -> Layout
    ensures { result ≡ layout_with name settings.now }
{
    match name {
        LayoutName::Flat => flat_with(settings),
        LayoutName::Hashed => Layout::Hashed,
        LayoutName::SparseHashed => Layout::SparseHashed,
        LayoutName::HashedArray => Layout::HashedArray,
        LayoutName::ComplexHashed => Layout::ComplexHashed,
        LayoutName::ComplexSparseHashed => Layout::ComplexSparseHashed,
        LayoutName::ComplexHashedArray => Layout::ComplexHashedArray,
        LayoutName::RangeHashed => Layout::RangeHashed(strategy_of(settings)),
        LayoutName::ComplexRangeHashed => Layout::ComplexRangeHashed(strategy_of(settings)),
        LayoutName::IpTrie => Layout::IpTrie,
        LayoutName::Cache => Layout::Cache(cache_with(settings)),
        LayoutName::ComplexCache => Layout::ComplexCache(cache_with(settings)),
        LayoutName::Direct => Layout::Direct,
        LayoutName::ComplexDirect => Layout::ComplexDirect,
    }
}

/// The clause of a kind, where it is there.
#[tactic(auto, unfolding(crate::specs::Parts::clause_of_kind))]
fn clause_of_kind(kind: ClauseKind, clauses: &[Clause]) -> Option<&Clause>
    ensures { MatchOption result (clause_of_kind kind clauses.now ≡ None)
        (λ clause. clause_of_kind kind clauses.now ≡ Some clause.now) }
{
    let mut rest = clauses;
    while let [clause, others @ ..] = rest {
        if number_of_clause(clause) == clause_number(kind) {
            return Some(clause);
        }
        rest = others;
    }
    None
}

/// The kind and the settings of the source; SOURCE is always there.
fn written_source(clauses: &[Clause]) -> (Kind, &[Setting])
    ensures kind { result.0 ≡ (written_source_in (clause_of_kind ClauseKind.Source clauses.now)).kind }
    ensures settings { result.1.now ≡ (written_source_in (clause_of_kind ClauseKind.Source clauses.now)).settings }
{
    match clause_of_kind(ClauseKind::Source, clauses) {
        Some(Clause::Source(written)) => (written.kind, written.settings.as_slice()),
        _ => (Kind::Executable, &[]),
    }
}

/// The name and the settings of the layout; LAYOUT is always there.
fn written_layout(clauses: &[Clause]) -> (LayoutName, &[Setting])
    ensures name { result.0 ≡ (written_layout_in (clause_of_kind ClauseKind.Layout clauses.now)).name }
    ensures settings { result.1.now ≡ (written_layout_in (clause_of_kind ClauseKind.Layout clauses.now)).settings }
{
    match clause_of_kind(ClauseKind::Layout, clauses) {
        Some(Clause::Layout(written)) => (written.name, written.settings.as_slice()),
        _ => (LayoutName::Flat, &[]),
    }
}

fn lifetime_of(clauses: &[Clause]) -> Lifetime
    ensures { result ≡ lifetime_in (clause_of_kind ClauseKind.Lifetime clauses.now) }
{
    match clause_of_kind(ClauseKind::Lifetime, clauses) {
        Some(Clause::Lifetime(lifetime)) => *lifetime,
        _ => Lifetime { min: 0, max: 0 },
    }
}

fn range_of(alloc: Global, clauses: &[Clause]) -> Result<Option<RangeNames>, NoMemory>
    ensures { IfOk result (λ range. range ≡ range_names_in (clause_of_kind ClauseKind.Range clauses.now)) }
{
    match clause_of_kind(ClauseKind::Range, clauses) {
        Some(Clause::Range(names)) => Ok(Some(RangeNames {
            start: Bytes::copy_of(alloc, names.start.as_slice())?,
            end: Bytes::copy_of(alloc, names.end.as_slice())?,
        })),
        _ => Ok(None),
    }
}

/// The greatest number of bytes of one output, where no clause says it: 64 MiB.
const DEFAULT_OUTPUT: u64 = 67_108_864;

fn output_of(clauses: &[Clause]) -> u64
    ensures { result ≡ output_in (clause_of_kind ClauseKind.Settings clauses.now) }
{
    match clause_of_kind(ClauseKind::Settings, clauses) {
        Some(Clause::Settings(output)) => *output,
        _ => DEFAULT_OUTPUT,
    }
}

fn comment_of(alloc: Global, clauses: &[Clause]) -> Result<Bytes, NoMemory>
    ensures { IfOk result (λ comment. comment ≡ comment_in (clause_of_kind ClauseKind.Comment clauses.now)) }
{
    match clause_of_kind(ClauseKind::Comment, clauses) {
        Some(Clause::Comment(comment)) => Bytes::copy_of(alloc, comment.as_slice()),
        _ => Ok(Bytes::new(alloc)),
    }
}

/// What the clauses of a dictionary say.
pub(crate) fn dictionary_parts(
    alloc: Global,
    clauses: &[Clause],
) -> Result<DictionaryParts, NoMemory>
    ensures { IfOk result (λ parts. parts ≡ dictionary_parts clauses.now) }
{
    let (kind, source_settings) = written_source(clauses);
    let (name, layout_settings) = written_layout(clauses);
    let output = output_of(clauses);
    Ok(DictionaryParts {
        source: source_with(alloc, Owner::Dictionary, kind, source_settings)?,
        layout: layout_with(name, layout_settings),
        lifetime: lifetime_of(clauses),
        range: range_of(alloc, clauses)?,
        max_output: kept_short(output),
        comment: comment_of(alloc, clauses)?,
        sizes: Sizes {
            output,
            array_size: array_size_of(layout_settings),
            pool_size: pool_size_of(source_settings),
        },
    })
}

fn output_or_default(output: Option<u64>) -> u64
    ensures { result ≡ output_or_default output }
{
    match output {
        Some(output) => output,
        None => DEFAULT_OUTPUT,
    }
}

/// What the source and the settings of a function say.
pub(crate) fn function_parts(
    alloc: Global,
    source: &WrittenSource,
    output: Option<u64>,
) -> Result<FunctionParts, NoMemory>
    ensures { IfOk result (λ parts. parts ≡ function_parts (written_function source.now output)) }
{
    let settings = source.settings.as_slice();
    let output = output_or_default(output);
    Ok(FunctionParts {
        source: source_with(alloc, Owner::Function, source.kind, settings)?,
        max_output: kept_short(output),
        sizes: Sizes {
            output,
            array_size: array_size_of(&[]),
            pool_size: pool_size_of(settings),
        },
    })
}
