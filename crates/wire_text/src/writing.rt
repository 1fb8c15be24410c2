// Replies, written.
ghost use Rattle.std.specs.Prelude.{◌≡◌, ◌++◌, codes, decimal, length, take, OnErr, OnOk};
ghost use Rattle.std.specs.List.{flat_map};
ghost use Rattle.wire_text.specs.Causes.{call_cause, fetch_cause, load_cause};
ghost use Rattle.wire_text.specs.Causes.{call_lacks_memory, fetch_lacks_memory, load_lacks_memory};
ghost use Rattle.wire_text.specs.Replies.{block_line, caused, counts_fields, fault_fields, last_cause_text};
ghost use Rattle.wire_text.specs.Replies.{lines_behind};
ghost use Rattle.wire_text.specs.Replies.{mark_text, refused_text, reply_fields, reply_text, state_name, status_fields};
ghost use Rattle.wire_text.specs.Replies.{then_field};

use crate::causes::{
    call_lacks_memory, fetch_lacks_memory, load_lacks_memory, push_call, push_fetch, push_load,
};
use crate::pieces::push_numbered;
use crate::reply::{Line, Mark, Reply, ReplyFault, StatusLine};
use dict_value::{Bytes, CallFault, Cause, FetchFault, NoMemory};
use load_core::{LastCause, State};
use row_text::write_text;

/// Appends what an answer comes from.
fn push_mark(out: &mut Bytes, mark: Mark) -> Result<(), NoMemory>
    ensures ok { OnOk result (out.new ≡ out.old ++ mark_text mark) }
    ensures err { OnErr result (take (length out.old) out.new ≡ out.old) }
{
    match mark {
        Mark::Version(number) => push_numbered(out, b"v", number),
        Mark::Moment(moment) => push_numbered(out, b"t", moment),
        Mark::Function => out.push(b'f'),
    }
}

fn state_name(state: State) -> &'static [u8]
    ensures { result.now ≡ state_name state }
{
    match state {
        State::NotLoaded => b"NOT_LOADED",
        State::Loaded => b"LOADED",
        State::Failed => b"FAILED",
        State::Loading => b"LOADING",
        State::LoadedAndReloading => b"LOADED_AND_RELOADING",
        State::FailedAndReloading => b"FAILED_AND_RELOADING",
    }
}

/// Appends why the last load failed.
fn push_last(out: &mut Bytes, cause: LastCause) -> Result<(), NoMemory>
    ensures ok { OnOk result (out.new ≡ out.old ++ last_cause_text cause) }
    ensures err { OnErr result (take (length out.old) out.new ≡ out.old) }
{
    match cause {
        LastCause::None => out.push(b'-'),
        LastCause::Of(cause) => push_load(out, cause),
    }
}

/// Appends how many loads were published, how many failed, and why the last one did.
fn push_counts(out: &mut Bytes, s: &StatusLine) -> Result<(), NoMemory>
    ensures ok { OnOk result (out.new ≡ out.old ++ counts_fields s.now) }
    ensures err { OnErr result (take (length out.old) out.new ≡ out.old) }
{
    push_numbered(out, b"\t", s.oks)?;
    push_numbered(out, b"\t", s.fails)?;
    out.push(b'\t')?;
    push_last(out, s.cause)
}

/// Appends the fields of a status.
#[tactic(auto, using(dict_value::proofs::Fronts::front_stays))]
fn push_status(out: &mut Bytes, s: &StatusLine) -> Result<(), NoMemory>
    ensures ok { OnOk result (out.new ≡ out.old ++ status_fields s.now) }
    ensures err { OnErr result (take (length out.old) out.new ≡ out.old) }
{
    push_numbered(out, b"\tv", s.number)?;
    out.push(b'\t')?;
    out.extend(state_name(s.state))?;
    push_counts(out, s)
}

/// Appends what the refusal for a load that failed says.
fn push_failed_load(out: &mut Bytes, cause: Cause) -> Result<(), NoMemory>
    ensures ok { OnOk result (out.new ≡ out.old ++ caused (load_lacks_memory cause) (codes "7") (load_cause cause)) }
    ensures err { OnErr result (take (length out.old) out.new ≡ out.old) }
{
    if load_lacks_memory(cause) {
        return out.extend(b"99");
    }
    out.extend(b"7\t")?;
    push_load(out, cause)
}

/// Appends what the refusal for a fetch that failed says.
fn push_failed_fetch(out: &mut Bytes, cause: FetchFault) -> Result<(), NoMemory>
    ensures ok { OnOk result (out.new ≡ out.old ++ caused (fetch_lacks_memory cause) (codes "8") (fetch_cause cause)) }
    ensures err { OnErr result (take (length out.old) out.new ≡ out.old) }
{
    if fetch_lacks_memory(cause) {
        return out.extend(b"99");
    }
    out.extend(b"8\t")?;
    push_fetch(out, cause)
}

/// Appends what the refusal for a call that failed says.
fn push_failed_call(out: &mut Bytes, cause: CallFault) -> Result<(), NoMemory>
    ensures ok { OnOk result (out.new ≡ out.old ++ caused (call_lacks_memory cause) (codes "11") (call_cause cause)) }
    ensures err { OnErr result (take (length out.old) out.new ≡ out.old) }
{
    if call_lacks_memory(cause) {
        return out.extend(b"99");
    }
    out.extend(b"11\t")?;
    push_call(out, cause)
}

/// Appends what the refusal for a definitions file without a reading says.
fn push_refused(out: &mut Bytes, line: u32, place: u32, words: &[u8]) -> Result<(), NoMemory>
    ensures ok { OnOk result (out.new ≡ out.old ++ (codes "16" ++ then_field (refused_text line place words.now))) }
    ensures err { OnErr result (take (length out.old) out.new ≡ out.old) }
{
    push_numbered(out, b"16\tline ", line)?;
    push_numbered(out, b" byte ", place)?;
    out.extend(b": ")?;
    out.extend(words)
}

/// Appends what a refusal says.
fn push_fault(out: &mut Bytes, fault: ReplyFault) -> Result<(), NoMemory>
    ensures ok { OnOk result (out.new ≡ out.old ++ fault_fields fault) }
    ensures err { OnErr result (take (length out.old) out.new ≡ out.old) }
{
    match fault {
        ReplyFault::BadRequest => out.extend(b"1"),
        ReplyFault::UnknownDictionary => out.extend(b"2"),
        ReplyFault::UnknownAttribute => out.extend(b"3"),
        ReplyFault::BadKey(line) => push_numbered(out, b"4\t", line),
        ReplyFault::NotLoaded => out.extend(b"5"),
        ReplyFault::WrongLayout => out.extend(b"6"),
        ReplyFault::Load(cause) => push_failed_load(out, cause),
        ReplyFault::Fetch(cause) => push_failed_fetch(out, cause),
        ReplyFault::UnknownFunction => out.extend(b"9"),
        ReplyFault::BadArgument(line) => push_numbered(out, b"10\t", line),
        ReplyFault::Call(cause) => push_failed_call(out, cause),
        ReplyFault::Behind(number) => push_numbered(out, b"12\t", number),
        ReplyFault::LineTooLong => out.extend(b"13"),
        ReplyFault::TooLarge => out.extend(b"14"),
        ReplyFault::ConfigUnread => out.extend(b"15"),
        ReplyFault::ConfigRefused { line, place, words } => push_refused(out, line, place, words),
        ReplyFault::ConfigNames(item) => push_numbered(out, b"17\t", item),
        ReplyFault::ConfigTooLong => out.extend(b"18"),
        ReplyFault::Shut => out.extend(b"98"),
        ReplyFault::NoMemory => out.extend(b"99"),
    }
}

/// Appends a line of a block.
fn push_line(out: &mut Bytes, mark: Mark, line: &Line) -> Result<(), NoMemory>
    ensures ok { OnOk result (out.new ≡ out.old ++ block_line mark line.now) }
    ensures err { OnErr result (take (length out.old) out.new ≡ out.old) }
{
    if let Mark::Moment(_) = mark {
        push_numbered(out, b"t", line.moment)?;
        out.push(b'\t')?;
    }
    out.extend(line.text.as_slice())?;
    out.push(b'\n')
}

/// Appends the lines of a block.
#[tactic(auto, using(dict_value::proofs::Fronts::front_stays))]
fn push_lines(out: &mut Bytes, mark: Mark, lines: &[Line]) -> Result<(), NoMemory>
    ensures ok { OnOk result (out.new ≡ out.old ++ flat_map (block_line mark) lines.now) }
    ensures err { OnErr result (take (length out.old) out.new ≡ out.old) }
{
    for line in lines {
        push_line(out, mark, line)?;
    }
    Ok(())
}

/// Appends the first line of a reply, without its line feed.
#[tactic(auto, using(dict_value::proofs::Fronts::front_stays))]
fn push_first(out: &mut Bytes, r: &Reply) -> Result<(), NoMemory>
    ensures ok { OnOk result (out.new ≡ out.old ++ reply_fields r.now) }
    ensures err { OnErr result (take (length out.old) out.new ≡ out.old) }
{
    match r {
        Reply::One { mark, text } => {
            out.extend(b"OK\t")?;
            push_mark(out, *mark)?;
            out.push(b'\t')?;
            out.extend(text.as_slice())
        }
        Reply::Many { mark, lines } => {
            out.extend(b"OK\t")?;
            push_mark(out, *mark)?;
            push_numbered(out, b"\t", lines.len())
        }
        Reply::Status(s) => {
            out.extend(b"OK")?;
            push_status(out, s)
        }
        Reply::Number(number) => push_numbered(out, b"OK\tv", *number),
        Reply::Shown(text) => {
            out.extend(b"OK\tshow\t")?;
            write_text(text.as_slice(), out)
        }
        Reply::Config(changed, published) => {
            push_numbered(out, b"OK\tconfig\t", *changed)?;
            push_numbered(out, b"\t", *published)
        }
        Reply::Bye => out.extend(b"OK\tbye"),
        Reply::Refused(fault) => {
            out.extend(b"ERR\t")?;
            push_fault(out, *fault)
        }
    }
}

/// Appends a reply.
#[tactic(auto, using(dict_value::proofs::Fronts::front_stays))]
fn push_reply(out: &mut Bytes, r: &Reply) -> Result<(), NoMemory>
    ensures ok { OnOk result (out.new ≡ out.old ++ reply_text r.now) }
    ensures err { OnErr result (take (length out.old) out.new ≡ out.old) }
{
    push_first(out, r)?;
    out.push(b'\n')?;
    match r {
        Reply::Many { mark, lines } => push_lines(out, *mark, lines.as_slice()),
        _ => Ok(()),
    }
}

/// Appends the one text of a reply; after `NoMemory` nothing has changed.
pub fn write_reply(r: &Reply, out: &mut Bytes) -> Result<(), NoMemory>
    ensures ok { OnOk result (out.new ≡ out.old ++ reply_text r.now) }
    ensures err { OnErr result (out.new ≡ out.old) }
{
    let before = out.len();
    let written = push_reply(out, r);
    if written.is_err() {
        out.truncate(before);
    }
    written
}

#[cfg(test)]
mod tests;
