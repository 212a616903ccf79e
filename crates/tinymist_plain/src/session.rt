//! A whole session in memory: the replies to an input, and its end.
ghost use Rattle.std.specs.Prelude.{◌≡◌, ◌-◌, ◌^◌, ◌<◌, take, map, IfOk};
ghost use Rattle.ty_model.specs.Disk.{Told, IsFixed};
ghost use Rattle.session_grammar.specs.Plain.{plain_command};
ghost use Rattle.tinymist_session.specs.Arguments.{plain_limits};
ghost use Rattle.tinymist_session.specs.Machine.{opening};
ghost use Rattle.tinymist_session.specs.Session as plain;
ghost use Rattle.tinymist_session.specs.Session.{end_of, replies_to};
ghost use Rattle.tinymist_plain.specs.Ended.{ended};

use crate::lines::{good_commands, lines_of};
use crate::state::State;
use std::alloc::Global;
use tinymist_session::{Command, Limits, line_of};
use ty_cells::PathAccessModel;
use ty_path::OutOfMemory;

/// How an input ends.
#[derive(Clone, Copy, Debug, PartialEq, Eq)]
pub enum End {
    /// Each line is good.
    Whole,
    /// The line of this number, from 1 on, is the first that isn't good.
    Bad(u64),
    /// There are more lines than the limit, and those within it are good.
    Over,
}

/// The replies to an input, and its end.
#[derive(Drop)]
pub struct PlainSession {
    /// The reply lines, one after another.
    pub replies: Vec<u8>,
    /// How the input ends.
    pub end: End,
}

/// Answers all lines of an input by the definition of a session, with no regard to time and memory.
pub fn plain_session<M: PathAccessModel>(
    alloc: Global,
    input: &[u8],
    limits: &Limits,
    disk: &mut M,
) -> Result<PlainSession, OutOfMemory>
    ensures end { IfOk result (λ s. ended s.end ≡ end_of (plain_limits limits.now) input.now) }
    ensures replies { (told : Told) → M.told disk.old ≡ Some told → IsFixed told → IfOk result (λ s. s.replies.items ≡ replies_to (plain_limits limits.now) told input.now) }
    ensures left { (told : Told) → M.told disk.old ≡ Some told → IsFixed told → M.told disk.new ≡ Some told }
{
    let lines = lines_of(alloc, input)?;
    let within = within(&lines, limits);
    let commands = good_commands(alloc, limits, within)?;
    Ok(PlainSession {
        end: end_with(lines.len(), within.len(), commands.len()),
        replies: replies_to(alloc, disk, &commands)?,
    })
}

/// The lines that the limit lets in.
fn within<'l>(lines: &'l [Vec<u8>], limits: &Limits) -> &'l [Vec<u8>]
    ensures { result.now ≡ take limits.now.max_lines lines.now }
{
    &lines[..lines.len().min(limits.max_lines as usize)]
}

/// The end of so many lines, of which so many come before the limit, and so many of these are good.
fn end_with(all: usize, within: usize, good: usize) -> End
    requires { good < 2 ^ 64 - 1 }
    ensures { ended result ≡ plain.end_with all within good }
{
    if good < within {
        End::Bad(good as u64 + 1)
    } else if within < all {
        End::Over
    } else {
        End::Whole
    }
}

/// The replies to commands, one after another.
fn replies_to<M: PathAccessModel>(
    alloc: Global,
    disk: &mut M,
    commands: &[Command],
) -> Result<Vec<u8>, OutOfMemory>
    ensures replies { (told : Told) → M.told disk.old ≡ Some told → IsFixed told → IfOk result (λ bytes. bytes.items ≡ plain.replies_from told opening (map plain_command commands.now)) }
    ensures left { (told : Told) → M.told disk.old ≡ Some told → IsFixed told → M.told disk.new ≡ Some told }
{
    let mut state = State::opening(alloc)?;
    let mut replies = Vec::new(alloc);
    for command in commands {
        let reply = state.step(alloc, disk, command)?;
        let line = line_of(alloc, reply)?;
        replies.extend_from_slice(&line)?;
    }
    Ok(replies)
}
