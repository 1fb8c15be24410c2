// The programs that rows come from. After `NoMemory` a front of what was to be written may stand behind what was there.
ghost use Rattle.std.specs.Prelude.{◌≡◌, ◌++◌, length, take, OnErr, OnOk};
ghost use Rattle.ddl_writing.specs.Canonical.{bit_text, flags_text, format_text, implicit_text, kind_text};
ghost use Rattle.ddl_writing.specs.Canonical.{pool_text, program_text, settings_text, source_text, times_text};
ghost use Rattle.ddl_writing.specs.Canonical.{update_text};

use crate::quoted::push_string;
use crate::words::{Word, push_numbered, push_word};
use dict_schema::{Format, Kind, SourceOf, Update};
use dict_value::{Bytes, NoMemory};

/// Appends a setting that is on or off.
pub(crate) fn push_bit(out: &mut Bytes, b: bool) -> Result<(), NoMemory>
    ensures ok { OnOk result (out.new ≡ out.old ++ bit_text b) }
    ensures err { OnErr result (take (length out.old) out.new ≡ out.old) }
{
    out.push(if b { b'1' } else { b'0' })
}

/// Appends a text form.
fn push_format(out: &mut Bytes, format: Format) -> Result<(), NoMemory>
    ensures ok { OnOk result (out.new ≡ out.old ++ format_text format) }
    ensures err { OnErr result (take (length out.old) out.new ≡ out.old) }
{
    match format {
        Format::Tab => out.extend(b"'TabSeparated'"),
        Format::Csv => out.extend(b"'CSV'"),
    }
}

/// Appends the word of a source.
fn push_kind(out: &mut Bytes, kind: Kind) -> Result<(), NoMemory>
    ensures ok { OnOk result (out.new ≡ out.old ++ kind_text kind) }
    ensures err { OnErr result (take (length out.old) out.new ≡ out.old) }
{
    match kind {
        Kind::Executable => out.extend(b"SOURCE(EXECUTABLE("),
        Kind::Pool => out.extend(b"SOURCE(EXECUTABLE_POOL("),
    }
}

/// Appends the command and the form of its output.
#[tactic(auto, using(dict_value::proofs::Fronts::front_stays))]
fn push_program(out: &mut Bytes, source: &SourceOf) -> Result<(), NoMemory>
    ensures ok { OnOk result (out.new ≡ out.old ++ program_text source.now) }
    ensures err { OnErr result (take (length out.old) out.new ≡ out.old) }
{
    push_word(out, Word::Command)?;
    push_string(out, source.command.as_slice())?;
    push_word(out, Word::Form)?;
    push_format(out, source.format)
}

/// Appends whether keys are left out of the output; a function has none.
#[tactic(auto, using(dict_value::proofs::Fronts::front_stays))]
fn push_implicit(out: &mut Bytes, of_function: bool, implicit: bool) -> Result<(), NoMemory>
    ensures ok { OnOk result (out.new ≡ out.old ++ implicit_text of_function implicit) }
    ensures err { OnErr result (take (length out.old) out.new ≡ out.old) }
{
    if of_function {
        return Ok(());
    }
    push_word(out, Word::Implicit)?;
    push_bit(out, implicit)
}

/// Appends the settings that are on or off.
#[tactic(auto, using(dict_value::proofs::Fronts::front_stays))]
fn push_flags(out: &mut Bytes, of_function: bool, source: &SourceOf) -> Result<(), NoMemory>
    ensures ok { OnOk result (out.new ≡ out.old ++ flags_text of_function source.now) }
    ensures err { OnErr result (take (length out.old) out.new ≡ out.old) }
{
    push_word(out, Word::Direct)?;
    push_bit(out, source.direct)?;
    push_implicit(out, of_function, source.implicit)?;
    push_word(out, Word::Header)?;
    push_bit(out, source.header)
}

/// Appends the limits of time.
#[tactic(auto, using(dict_value::proofs::Fronts::front_stays))]
fn push_times(out: &mut Bytes, source: &SourceOf) -> Result<(), NoMemory>
    ensures ok { OnOk result (out.new ≡ out.old ++ times_text source.now) }
    ensures err { OnErr result (take (length out.old) out.new ≡ out.old) }
{
    push_numbered(out, Word::ReadTimeout, u64::from(source.read_ms))?;
    push_numbered(out, Word::WriteTimeout, u64::from(source.write_ms))?;
    push_numbered(out, Word::EndTimeout, u64::from(source.end_s))
}

/// Appends the settings of a pool.
#[tactic(auto, using(dict_value::proofs::Fronts::front_stays))]
fn push_pool(out: &mut Bytes, source: &SourceOf) -> Result<(), NoMemory>
    ensures ok { OnOk result (out.new ≡ out.old ++ pool_text source.now source.now.kind) }
    ensures err { OnErr result (take (length out.old) out.new ≡ out.old) }
{
    match source.kind {
        Kind::Executable => Ok(()),
        Kind::Pool => {
            push_numbered(out, Word::PoolSize, u64::from(source.pool_size))?;
            push_numbered(out, Word::ExecutionTime, u64::from(source.execution_s))
        }
    }
}

/// Appends which rows a load asks for.
#[tactic(auto, using(dict_value::proofs::Fronts::front_stays))]
fn push_update(out: &mut Bytes, update: &Update) -> Result<(), NoMemory>
    ensures ok { OnOk result (out.new ≡ out.old ++ update_text update.now) }
    ensures err { OnErr result (take (length out.old) out.new ≡ out.old) }
{
    match update {
        Update::None => Ok(()),
        Update::Field { name, lag } => {
            push_word(out, Word::UpdateField)?;
            push_string(out, name.as_slice())?;
            push_numbered(out, Word::UpdateLag, u64::from(*lag))
        }
    }
}

/// Appends all settings of a source.
#[tactic(auto, using(dict_value::proofs::Fronts::front_stays))]
fn push_settings(out: &mut Bytes, of_function: bool, source: &SourceOf) -> Result<(), NoMemory>
    ensures ok { OnOk result (out.new ≡ out.old ++ settings_text of_function source.now) }
    ensures err { OnErr result (take (length out.old) out.new ≡ out.old) }
{
    push_program(out, source)?;
    push_flags(out, of_function, source)?;
    push_times(out, source)?;
    push_pool(out, source)?;
    push_update(out, &source.update)
}

/// Appends a source.
#[tactic(auto, using(dict_value::proofs::Fronts::front_stays))]
pub(crate) fn push_source(
    out: &mut Bytes,
    of_function: bool,
    source: &SourceOf,
) -> Result<(), NoMemory>
    ensures ok { OnOk result (out.new ≡ out.old ++ source_text of_function source.now) }
    ensures err { OnErr result (take (length out.old) out.new ≡ out.old) }
{
    push_kind(out, source.kind)?;
    push_settings(out, of_function, source)?;
    out.extend(b"))")
}
