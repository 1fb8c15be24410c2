// Lists of settings.
ghost use Rattle.std.specs.Prelude.{◌≡◌, ◌<◌, ◌≤◌, length, IfOk, OnOk, IsTrue};
ghost use Rattle.ddl_tokens.specs.Reading.{Gives, bytes_ahead};
ghost use Rattle.ddl_tokens.specs.Lists.{GivesStep, has_all, has_number, repeat};
ghost use Rattle.ddl_clauses.specs.Settings.{all_settings};
ghost use Rattle.ddl_clauses.specs.SettingLists.{setting_named, taken_setting, setting_value_at, setting_at};
ghost use Rattle.ddl_clauses.specs.SettingLists.{has_setting};
ghost use Rattle.ddl_clauses.specs.SettingLists.{number_of_setting, wanted_numbers, next_setting, has_field_for_lag};
ghost use Rattle.ddl_clauses.specs.SettingLists.{settings_at, settings_in_brackets_at};

use crate::choices::{bare_name, flag, format, no_flag, short, strategy, whole, word};
use crate::settings::{
    Form, Section, Setting, SettingName, SettingValue, form_of, group_of, has_group,
    setting_number, setting_text,
};
use ddl_tokens::{LetterCase, ReadFault, Reader, SyntaxFault};
use dict_value::ListOf;
use std::alloc::Global;

/// The first of these settings that the token in hand names.
#[tactic(auto, unfolding(crate::specs::SettingLists::setting_named))]
fn setting_named(r: &Reader<'_>, settings: &[SettingName]) -> Option<SettingName>
    ensures { result ≡ setting_named settings.now (bytes_ahead r.now) }
{
    let mut rest = settings;
    while let [name, others @ ..] = rest {
        if r.means(LetterCase::Any, setting_text(*name)) {
            return Some(*name);
        }
        rest = others;
    }
    None
}

/// The setting that the token in hand names.
fn any_setting(r: &Reader<'_>) -> Option<SettingName>
    ensures { result ≡ setting_named all_settings (bytes_ahead r.now) }
{
    let settings = [
        SettingName::Command,
        SettingName::Format,
        SettingName::ExecuteDirect,
        SettingName::ImplicitKey,
        SettingName::SendChunkHeader,
        SettingName::ReadTimeout,
        SettingName::WriteTimeout,
        SettingName::TerminationTimeout,
        SettingName::PoolSize,
        SettingName::ExecutionTime,
        SettingName::UpdateField,
        SettingName::UpdateLag,
        SettingName::InitialArraySize,
        SettingName::MaxArraySize,
        SettingName::Preallocate,
        SettingName::Shards,
        SettingName::ShardBacklog,
        SettingName::RangeStrategy,
        SettingName::SizeInCells,
        SettingName::ReadExpired,
        SettingName::UpdateQueue,
    ];
    setting_named(r, &settings)
}

/// The setting of a list that the token in hand names.
#[tactic(auto, unfolding(crate::specs::SettingLists::taken_setting))]
fn taken_setting(section: Section, r: &Reader<'_>) -> Option<SettingName>
    ensures { result ≡ taken_setting section (bytes_ahead r.now) }
{
    let Some(name) = any_setting(r) else {
        return None;
    };
    if has_group(section, group_of(name)) {
        Some(name)
    } else {
        None
    }
}

#[tactic(auto, unfolding(crate::specs::SettingLists::setting_value_at))]
fn setting_value(alloc: Global, form: Form, r: &mut Reader<'_>) -> Result<SettingValue, ReadFault>
    ensures value { Gives (λ value. value) result r.new (setting_value_at form r.old) }
    ensures shorter { OnOk result (length r.new < length r.old) }
{
    match form {
        Form::Text => Ok(SettingValue::Text(r.string(alloc)?)),
        Form::Format => Ok(SettingValue::Format(format(r)?)),
        Form::Flag => Ok(SettingValue::Flag(flag(r)?)),
        Form::NoFlag => Ok(SettingValue::Flag(no_flag(r)?)),
        Form::Whole => Ok(SettingValue::Whole(whole(alloc, r)?)),
        Form::Short => Ok(SettingValue::Short(short(alloc, r)?)),
        Form::Strategy => Ok(SettingValue::Strategy(strategy(r)?)),
        Form::BareName => Ok(SettingValue::Text(bare_name(alloc, r)?)),
    }
}

/// A setting that the token in hand names.
#[tactic(auto, unfolding(crate::specs::SettingLists::setting_at))]
fn setting(alloc: Global, name: SettingName, r: &mut Reader<'_>) -> Result<Setting, ReadFault>
    ensures value { Gives (λ setting. setting) result r.new (setting_at name r.old) }
    ensures shorter { OnOk result (length r.new < length r.old) }
{
    word(r, setting_text(name))?;
    let value = setting_value(alloc, form_of(name), r)?;
    Ok(Setting { name, value })
}

/// Whether one of the settings has this number.
#[tactic(auto, unfolding(ddl_tokens::specs::Lists::has_number))]
fn has_setting_numbered(number: u8, settings: &[Setting]) -> bool
    ensures { result ≡ has_number number_of_setting number settings.now }
{
    let mut rest = settings;
    while let [setting, others @ ..] = rest {
        if setting_number(setting.name) == number {
            return true;
        }
        rest = others;
    }
    false
}

fn has_setting(name: SettingName, settings: &[Setting]) -> bool
    ensures { result ≡ has_setting name settings.now }
{
    has_setting_numbered(setting_number(name), settings)
}

/// Whether the settings that a list wants are there.
#[tactic(auto, unfolding(ddl_tokens::specs::Lists::has_all))]
fn has_wanted(section: Section, settings: &[Setting]) -> bool
    ensures { result ≡ has_all number_of_setting (wanted_numbers section) settings.now }
{
    match section {
        Section::Executable | Section::Pool | Section::FunctionExecutable | Section::FunctionPool =>
            has_setting(SettingName::Command, settings)
                && has_setting(SettingName::Format, settings),
        Section::Cache => has_setting(SettingName::SizeInCells, settings),
        Section::Flat | Section::Hashed | Section::Range | Section::Bare => true,
    }
}

#[tactic(auto, unfolding(crate::specs::SettingLists::next_setting, crate::specs::SettingLists::setting_kind_at))]
fn next_setting(
    alloc: Global,
    section: Section,
    r: &mut Reader<'_>,
    before: &mut ListOf<Setting>,
) -> Result<bool, ReadFault>
    ensures value { GivesStep (λ settings. settings) result before.new r.new (next_setting section before.old r.old) }
    ensures shorter { IfOk result (λ more. IsTrue more → length r.new < length r.old) }
    ensures no_longer { OnOk result (length r.new ≤ length r.old) }
{
    if !r.sees_name() {
        if has_wanted(section, before.as_slice()) {
            return Ok(false);
        }
        return Err(r.unexpected());
    }
    let place = r.place();
    let Some(name) = taken_setting(section, r) else {
        return Err(ReadFault::Syntax(SyntaxFault::UnknownSetting(place)));
    };
    if has_setting(name, before.as_slice()) {
        return Err(ReadFault::Syntax(SyntaxFault::Twice(place)));
    }
    before.push(setting(alloc, name, r)?)?;
    Ok(true)
}

#[tactic(auto, using(ddl_tokens::proofs::Loops::begins, ddl_tokens::proofs::Loops::goes))]
fn more_settings(
    alloc: Global,
    section: Section,
    r: &mut Reader<'_>,
    mut settings: ListOf<Setting>,
) -> Result<ListOf<Setting>, ReadFault>
    ensures value { Gives (λ settings. settings) result r.new (repeat (next_setting section) settings r.old) }
    ensures shorter { OnOk result (length r.new ≤ length r.old) }
{
    while next_setting(alloc, section, r, &mut settings)? {}
    Ok(settings)
}

/// Whether a lag stands only beside an update field.
fn has_field_for_lag(settings: &[Setting]) -> bool
    ensures { result ≡ has_field_for_lag settings.now }
{
    !has_setting(SettingName::UpdateLag, settings)
        || has_setting(SettingName::UpdateField, settings)
}

/// The settings of a list, up to the token that is no name.
#[tactic(auto, unfolding(crate::specs::SettingLists::settings_at))]
fn settings(
    alloc: Global,
    section: Section,
    r: &mut Reader<'_>,
) -> Result<ListOf<Setting>, ReadFault>
    ensures value { Gives (λ settings. settings) result r.new (settings_at section r.old) }
    ensures shorter { OnOk result (length r.new ≤ length r.old) }
{
    let settings = more_settings(alloc, section, r, ListOf::new(alloc))?;
    if !has_field_for_lag(settings.as_slice()) {
        return Err(r.unexpected());
    }
    Ok(settings)
}

/// The settings of a list, with its brackets.
#[tactic(auto, unfolding(crate::specs::SettingLists::settings_in_brackets_at))]
pub(crate) fn settings_in_brackets(
    alloc: Global,
    section: Section,
    r: &mut Reader<'_>,
) -> Result<ListOf<Setting>, ReadFault>
    ensures value { Gives (λ settings. settings) result r.new (settings_in_brackets_at section r.old) }
    ensures shorter { OnOk result (length r.new < length r.old) }
{
    r.sign(b'(')?;
    let settings = settings(alloc, section, r)?;
    r.sign(b')')?;
    Ok(settings)
}
