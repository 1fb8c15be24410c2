ghost use Rattle.std.specs.Prelude.{◌≡◌, false};

use super::*;
use dict_io::{MemoryLink, MemorySink, MemorySource};
use dict_value::ListOf;
use std::process::Abort;
use std::test::Fail;

/// What is read in a request, as a test has it.
#[derive(Clone, Copy, Debug, PartialEq, Eq)]
enum Want {
    Quit,
    Reload,
    /// A lookup with so many lines.
    Asked(usize),
    Bad,
    TooLarge,
    Last,
    End,
    TooLong,
    Failed,
    Other,
}

fn wanted(taken: &Taken) -> Want {
    match taken {
        Taken::Request { asking, last } => match asking {
            Asking::Asks(Request::Quit) => Want::Quit,
            Asking::Asks(Request::Reload(_)) => Want::Reload,
            Asking::Asks(Request::Asked(q)) => Want::Asked(q.lines.len()),
            Asking::Bad => { if *last { Want::Last } else { Want::Bad } }
            Asking::TooLarge => Want::TooLarge,
            _ => Want::Other,
        },
        Taken::End => Want::End,
        Taken::TooLong => Want::TooLong,
        Taken::Failed => Want::Failed,
    }
}

/// Takes the requests of a link in turn.
fn check_requests<L: Link>(
    rt: &impl Abort,
    alloc: Global,
    lines: &mut Lines,
    link: &mut L,
    want: &[Want],
)
    requires { (L.ends link.old).reads.ended ≡ false }
{
    for want in want {
        let taken = next_request(alloc, lines, link);
        assert_eq!(rt; wanted(&taken), *want);
        match taken {
            Taken::End => return,
            Taken::Request { asking: _, last } => {
                if last {
                    return;
                }
            }
            _ => {}
        }
    }
}

struct Input {
    text: &'static [u8],
    failing: &'static [u64],
    want: &'static [Want],
}

static INPUTS: [Input; 6] = [
    Input {
        text: b"dictHas\td\t7\n\nreload\td\nquit\n",
        failing: &[],
        want: &[
            Want::Asked(1),
            Want::Bad,
            Want::Reload,
            Want::Quit,
            Want::End,
        ],
    },
    Input {
        text: b"many\t2\tdictHas\td\n1\n2\nmany\t0\tdictHas\td\nquit",
        failing: &[],
        want: &[Want::Asked(2), Want::Asked(0), Want::Quit],
    },
    Input {
        text: b"many\t2\tdictHas\td\n1\n2",
        failing: &[],
        want: &[Want::Asked(2)],
    },
    Input {
        text: b"many\t2\tdictHas\td\n1\n",
        failing: &[],
        want: &[Want::Last],
    },
    Input {
        text: b"many\t2\tdictHas\td\tx\n1\n2\nmany\t4097\tdictHas\td\n1\n",
        failing: &[],
        want: &[Want::Bad, Want::TooLarge],
    },
    Input {
        text: b"quit\n",
        failing: &[0],
        want: &[Want::Failed, Want::Quit, Want::End],
    },
];

#[test]
fn requests_are_taken(rt: HostRuntime) -> Result<(), Fail> {
    let alloc = rt.alloc();
    for input in &INPUTS {
        let failing = ListOf::from_vec(Vec::from_slice(alloc, input.failing)?);
        let source = MemorySource::new(
            Bytes::copy_of(alloc, input.text)?,
            ListOf::new(alloc),
            failing,
        );
        let mut link = MemoryLink::new(source, MemorySink::new(alloc, 0, ListOf::new(alloc))?);
        let mut lines = Lines::new(alloc)?;
        check_requests(&rt, alloc, &mut lines, &mut link, input.want);
    }
    Ok(())
}

/// A block of as many bytes as it may have, and one with a byte more.
#[test]
fn blocks_have_a_limit(rt: HostRuntime) -> Result<(), Fail> {
    let alloc = rt.alloc();
    for (more, want) in [(0, Want::Asked(16)), (1, Want::TooLarge)] {
        let mut text = Bytes::copy_of(alloc, b"many\t16\tdictHas\td\n")?;
        let line = Bytes::zeros(alloc, 65_535)?;
        for _ in 0..15 {
            text.extend(line.as_slice())?;
            text.push(b'\n')?;
        }
        text.extend(line.as_slice())?;
        if more == 1 {
            text.push(b'1')?;
        }
        text.push(b'\n')?;
        let source = MemorySource::new(text, ListOf::new(alloc), ListOf::new(alloc));
        let mut link = MemoryLink::new(source, MemorySink::new(alloc, 0, ListOf::new(alloc))?);
        let mut lines = Lines::new(alloc)?;
        check_requests(&rt, alloc, &mut lines, &mut link, &[want]);
    }
    Ok(())
}
