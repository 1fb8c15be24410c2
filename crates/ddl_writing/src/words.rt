// The fixed words of a definition's text.
ghost use Rattle.std.specs.Prelude.{◌≡◌, ◌++◌, length, take, OnErr, OnOk};
ghost use Rattle.ddl_writing.specs.Words.{numbered, word_text};

use dict_value::{Bytes, NoMemory, push_number};

/// A fixed part of a text.
#[derive(Clone, Copy, Debug, PartialEq, Eq)]
pub enum Word {
    Create,
    PrimaryKey,
    Function,
    Returns,
    Command,
    Form,
    Direct,
    Implicit,
    Header,
    ReadTimeout,
    WriteTimeout,
    EndTimeout,
    PoolSize,
    ExecutionTime,
    UpdateField,
    UpdateLag,
    Kept,
    Initial,
    Greatest,
    Range,
    ComplexRange,
    Cache,
    ComplexCache,
    Cells,
    Expired,
    Queue,
    LifetimeMin,
    Max,
    RangeMin,
    Output,
    Comment,
}

#[tactic(auto, unfolding(crate::specs::Words::word_text))]
fn word_of(word: Word) -> &'static [u8]
    ensures { result.now ≡ word_text word }
{
    match word {
        Word::Create => b"CREATE DICTIONARY ",
        Word::PrimaryKey => b") PRIMARY KEY ",
        Word::Function => b"EXECUTABLE FUNCTION ",
        Word::Returns => b") RETURNS ",
        Word::Command => b"command ",
        Word::Form => b" format ",
        Word::Direct => b" execute_direct ",
        Word::Implicit => b" implicit_key ",
        Word::Header => b" send_chunk_header ",
        Word::ReadTimeout => b" command_read_timeout ",
        Word::WriteTimeout => b" command_write_timeout ",
        Word::EndTimeout => b" command_termination_timeout ",
        Word::PoolSize => b" pool_size ",
        Word::ExecutionTime => b" max_command_execution_time ",
        Word::UpdateField => b" update_field ",
        Word::UpdateLag => b" update_lag ",
        Word::Kept => b" LAYOUT(",
        Word::Initial => b"FLAT(INITIAL_ARRAY_SIZE ",
        Word::Greatest => b" MAX_ARRAY_SIZE ",
        Word::Range => b"RANGE_HASHED",
        Word::ComplexRange => b"COMPLEX_KEY_RANGE_HASHED",
        Word::Cache => b"CACHE",
        Word::ComplexCache => b"COMPLEX_KEY_CACHE",
        Word::Cells => b"(SIZE_IN_CELLS ",
        Word::Expired => b" ALLOW_READ_EXPIRED_KEYS ",
        Word::Queue => b" MAX_UPDATE_QUEUE_SIZE ",
        Word::LifetimeMin => b" LIFETIME(MIN ",
        Word::Max => b" MAX ",
        Word::RangeMin => b" RANGE(MIN ",
        Word::Output => b" SETTINGS(max_output_bytes = ",
        Word::Comment => b" COMMENT ",
    }
}

/// Appends a fixed part.
pub(crate) fn push_word(out: &mut Bytes, word: Word) -> Result<(), NoMemory>
    ensures ok { OnOk result (out.new ≡ out.old ++ word_text word) }
    ensures err { OnErr result (out.new ≡ out.old) }
{
    out.extend(word_of(word))
}

/// Appends a setting and its number.
#[tactic(auto, using(dict_value::proofs::Fronts::front_stays))]
pub(crate) fn push_numbered(out: &mut Bytes, word: Word, n: u64) -> Result<(), NoMemory>
    ensures ok { OnOk result (out.new ≡ out.old ++ numbered word n) }
    ensures err { OnErr result (take (length out.old) out.new ≡ out.old) }
{
    push_word(out, word)?;
    push_number(out, n)
}
