//! Prints what clients were answered.

ghost use Rattle.std.specs.Prelude.{IfErr, OnOk, map};
ghost use Rattle.std.specs.Io.KnownBytes.{Appends};
ghost use Rattle.script.specs.ScriptFaults.{IsOfWrite};
ghost use Rattle.live.specs.Live.{told_by, told_from};

use crate::play::Player;
use cell_looks::printing::{flush, print_line};
use gfs_types::answer::Answer;
use gfs_types::ids::ClientId;
use script::answers::AnswerLine;
use script::script_fault::ScriptFault;
use std::io::Write;

/// Prints the answers, by client, each client's in order.
pub fn print_all<W: Write>(players: &[Player], writer: &mut W) -> Result<(), ScriptFault>
    ensures printed { OnOk result (Appends (W.contents writer.old) (W.contents writer.new) (told_from 1 (map (λ p. p.answers.items) players.now))) }
    ensures fault { IfErr result IsOfWrite }
{
    for before in 0..players.len() {
        let client = ClientId(before as u64 + 1);
        print_answers(client, players[before].answers.as_slice(), writer)?;
    }
    flush(writer)?;
    Ok(())
}

fn print_answers<W: Write>(
    client: ClientId,
    answers: &[Answer],
    writer: &mut W,
) -> Result<(), ScriptFault>
    ensures printed { OnOk result (Appends (W.contents writer.old) (W.contents writer.new) (told_by client.0 answers.now)) }
    ensures fault { IfErr result IsOfWrite }
{
    for before in 0..answers.len() {
        let line = AnswerLine {
            client,
            answer: &answers[before],
        };
        print_line(&line, writer)?;
    }
    Ok(())
}
