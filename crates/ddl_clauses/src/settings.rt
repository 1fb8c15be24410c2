// The settings of sources and layouts: what they are named, and which list takes which.
ghost use Rattle.std.specs.Prelude.{◌≡◌};
ghost use Rattle.ddl_clauses.specs.Settings.{setting_number, setting_text, form_of, group_of, has_group};
ghost use Rattle.ddl_clauses.specs.Settings.{source_section};

use dict_schema::{Format, Kind, Strategy};
use dict_value::Bytes;

/// A setting of a source or a layout.
#[derive(Clone, Copy, Debug, PartialEq, Eq)]
pub enum SettingName {
    Command,
    Format,
    ExecuteDirect,
    ImplicitKey,
    SendChunkHeader,
    ReadTimeout,
    WriteTimeout,
    TerminationTimeout,
    PoolSize,
    ExecutionTime,
    UpdateField,
    UpdateLag,
    InitialArraySize,
    MaxArraySize,
    Preallocate,
    Shards,
    ShardBacklog,
    RangeStrategy,
    SizeInCells,
    ReadExpired,
    UpdateQueue,
}

/// What the value of a setting looks like.
#[derive(Clone, Copy, Debug, PartialEq, Eq)]
pub enum Form {
    /// A string.
    Text,
    /// The name of a text form of rows.
    Format,
    /// A boolean.
    Flag,
    /// A boolean that has no meaning yet where it is true.
    NoFlag,
    /// A whole number of 64 bits.
    Whole,
    /// A whole number of 32 bits.
    Short,
    /// A string that says which of several ranges counts.
    Strategy,
    /// A bare name, with or without quotes.
    BareName,
}

/// Settings that stand in the same lists.
#[derive(Clone, Copy, Debug, PartialEq, Eq)]
pub enum Group {
    Run,
    Implicit,
    Update,
    Pool,
    Flat,
    Hashed,
    Range,
    Cache,
}

/// What a list of settings belongs to.
#[derive(Clone, Copy, Debug, PartialEq, Eq)]
pub enum Section {
    Executable,
    Pool,
    FunctionExecutable,
    FunctionPool,
    Flat,
    Hashed,
    Range,
    Cache,
    /// A layout that takes no setting.
    Bare,
}

/// Whose source it is.
#[derive(Clone, Copy, Debug, PartialEq, Eq)]
pub enum Owner {
    Dictionary,
    Function,
}

/// The value of a setting.
#[derive(Debug, Drop)]
pub enum SettingValue {
    Text(Bytes),
    Format(Format),
    Flag(bool),
    Whole(u64),
    Short(u32),
    Strategy(Strategy),
}

/// A setting as it is written.
#[derive(Debug, Drop)]
pub struct Setting {
    pub name: SettingName,
    pub value: SettingValue,
}

pub(crate) fn setting_number(name: SettingName) -> u8
    ensures { result ≡ setting_number name }
{
    match name {
        SettingName::Command => 0,
        SettingName::Format => 1,
        SettingName::ExecuteDirect => 2,
        SettingName::ImplicitKey => 3,
        SettingName::SendChunkHeader => 4,
        SettingName::ReadTimeout => 5,
        SettingName::WriteTimeout => 6,
        SettingName::TerminationTimeout => 7,
        SettingName::PoolSize => 8,
        SettingName::ExecutionTime => 9,
        SettingName::UpdateField => 10,
        SettingName::UpdateLag => 11,
        SettingName::InitialArraySize => 12,
        SettingName::MaxArraySize => 13,
        SettingName::Preallocate => 14,
        SettingName::Shards => 15,
        SettingName::ShardBacklog => 16,
        SettingName::RangeStrategy => 17,
        SettingName::SizeInCells => 18,
        SettingName::ReadExpired => 19,
        SettingName::UpdateQueue => 20,
    }
}

/// What a setting is named, in any letter case.
pub(crate) fn setting_text(name: SettingName) -> &'static [u8]
    ensures { result.now ≡ setting_text name }
{
    match name {
        SettingName::Command => b"command",
        SettingName::Format => b"format",
        SettingName::ExecuteDirect => b"execute_direct",
        SettingName::ImplicitKey => b"implicit_key",
        SettingName::SendChunkHeader => b"send_chunk_header",
        SettingName::ReadTimeout => b"command_read_timeout",
        SettingName::WriteTimeout => b"command_write_timeout",
        SettingName::TerminationTimeout => b"command_termination_timeout",
        SettingName::PoolSize => b"pool_size",
        SettingName::ExecutionTime => b"max_command_execution_time",
        SettingName::UpdateField => b"update_field",
        SettingName::UpdateLag => b"update_lag",
        SettingName::InitialArraySize => b"INITIAL_ARRAY_SIZE",
        SettingName::MaxArraySize => b"MAX_ARRAY_SIZE",
        SettingName::Preallocate => b"PREALLOCATE",
        SettingName::Shards => b"SHARDS",
        SettingName::ShardBacklog => b"SHARD_LOAD_QUEUE_BACKLOG",
        SettingName::RangeStrategy => b"range_lookup_strategy",
        SettingName::SizeInCells => b"SIZE_IN_CELLS",
        SettingName::ReadExpired => b"ALLOW_READ_EXPIRED_KEYS",
        SettingName::UpdateQueue => b"MAX_UPDATE_QUEUE_SIZE",
    }
}

pub(crate) fn form_of(name: SettingName) -> Form
    ensures { result ≡ form_of name }
{
    match name {
        SettingName::Command => Form::Text,
        SettingName::Format => Form::Format,
        SettingName::ExecuteDirect | SettingName::ImplicitKey | SettingName::SendChunkHeader =>
            Form::Flag,
        SettingName::ReadTimeout
        | SettingName::WriteTimeout
        | SettingName::TerminationTimeout
        | SettingName::ExecutionTime
        | SettingName::UpdateLag
        | SettingName::InitialArraySize
        | SettingName::UpdateQueue => Form::Short,
        SettingName::PoolSize
        | SettingName::MaxArraySize
        | SettingName::Preallocate
        | SettingName::Shards
        | SettingName::ShardBacklog
        | SettingName::SizeInCells => Form::Whole,
        SettingName::UpdateField => Form::BareName,
        SettingName::RangeStrategy => Form::Strategy,
        SettingName::ReadExpired => Form::NoFlag,
    }
}

pub(crate) fn group_of(name: SettingName) -> Group
    ensures { result ≡ group_of name }
{
    match name {
        SettingName::Command
        | SettingName::Format
        | SettingName::ExecuteDirect
        | SettingName::SendChunkHeader
        | SettingName::ReadTimeout
        | SettingName::WriteTimeout
        | SettingName::TerminationTimeout => Group::Run,
        SettingName::ImplicitKey => Group::Implicit,
        SettingName::UpdateField | SettingName::UpdateLag => Group::Update,
        SettingName::PoolSize | SettingName::ExecutionTime => Group::Pool,
        SettingName::InitialArraySize | SettingName::MaxArraySize => Group::Flat,
        SettingName::Preallocate | SettingName::Shards | SettingName::ShardBacklog => Group::Hashed,
        SettingName::RangeStrategy => Group::Range,
        SettingName::SizeInCells | SettingName::ReadExpired | SettingName::UpdateQueue =>
            Group::Cache,
    }
}

/// Whether a list takes the settings of a group.
pub(crate) fn has_group(section: Section, group: Group) -> bool
    ensures { result ≡ has_group section group }
{
    match section {
        Section::Executable => matches!(group, Group::Run | Group::Implicit | Group::Update),
        Section::Pool => matches!(group, Group::Run | Group::Implicit | Group::Pool),
        Section::FunctionExecutable => matches!(group, Group::Run),
        Section::FunctionPool => matches!(group, Group::Run | Group::Pool),
        Section::Flat => matches!(group, Group::Flat),
        Section::Hashed => matches!(group, Group::Hashed),
        Section::Range => matches!(group, Group::Range),
        Section::Cache => matches!(group, Group::Cache),
        Section::Bare => false,
    }
}

/// The list of settings of a source.
pub(crate) fn source_section(owner: Owner, kind: Kind) -> Section
    ensures { result ≡ source_section owner kind }
{
    match owner {
        Owner::Dictionary => match kind {
            Kind::Executable => Section::Executable,
            Kind::Pool => Section::Pool,
        },
        Owner::Function => match kind {
            Kind::Executable => Section::FunctionExecutable,
            Kind::Pool => Section::FunctionPool,
        },
    }
}
