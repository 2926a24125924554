//! Prints lines.

ghost use Rattle.std.specs.Prelude.{◌≡◌, IfSome, IfErr, OnOk};
ghost use Rattle.std.specs.Io.KnownBytes.{Appends};
ghost use Rattle.script.specs.ScriptFaults.{IsOfWrite};
ghost use Rattle.cell_simulator.specs.Steps.{line_at, with_feed};

use gfs_types::answer::Answer;
use gfs_types::ids::Node;
use script::answers::AnswerLine;
use script::script_fault::ScriptFault;
use std::fmt;
use std::io::Write;

/// Prints a client's answer, if there is one.
pub fn print_answer<W: Write>(
    node: Node,
    answer: Option<Answer>,
    writer: &mut W,
) -> Result<(), ScriptFault>
    ensures printed { OnOk result (Appends (W.contents writer.old) (W.contents writer.new) (line_at node answer)) }
    ensures fault { IfErr result IsOfWrite }
{
    let Node::Client(client) = node else {
        return Ok(());
    };
    let Some(answer) = answer else {
        return Ok(());
    };
    let line = AnswerLine {
        client,
        answer: &answer,
    };
    print_line(&line, writer)
}

pub fn print_line<L: fmt::Display, W: Write>(line: &L, writer: &mut W) -> Result<(), ScriptFault>
    ensures printed { OnOk result (IfSome (L.output line.now) (λ text. Appends (W.contents writer.old) (W.contents writer.new) (with_feed text))) }
    ensures fault { IfErr result IsOfWrite }
{
    writeln!(writer, "{line}").map_err(|e| ScriptFault::of_write(&e))?;
    writer.flush().map_err(|e| ScriptFault::of_write(&e))
}
