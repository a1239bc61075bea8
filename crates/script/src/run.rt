// A script, played on a bench.
ghost use Rattle.std.specs.Prelude.{◌≡◌};
ghost use Rattle.files.specs.Program.{program};
ghost use Rattle.bench.specs.Play.{Came};
ghost use Rattle.bench.specs.Table.{table_of};
ghost use Rattle.script.specs.Scripts.{obeyed, Ended, folded, lines_of, scripted};

use crate::command::{Command, parse};
use bench::{Bench, BenchFault};
use rules::Rules;

// Where a script stopped, and why. The lines before it were played.
#[derive(Clone, Copy)]
pub struct Stop {
    pub line: usize,
    pub fault: BenchFault,
}

// Does what one line says.
pub fn obey<R: Rules>(
    bench: &mut Bench<R>,
    messages: &mut [R::Record],
    command: Command,
) -> Result<(), BenchFault>
    ensures came { Came (obeyed R.Record.Message.kind R.Rules.book (program bench.old.system) (table_of bench.old messages.old) command) result (table_of bench.new messages.new) }
    ensures system { program bench.new.system ≡ program bench.old.system }
{
    match command {
        Command::Play(number) => bench.play(messages, number),
        Command::Drain(process) => bench.drain(messages, process),
    }
}

// Plays the lines one after another until one is refused; the number of the lines.
fn run_lines<R: Rules>(
    bench: &mut Bench<R>,
    messages: &mut [R::Record],
    script: &[u8],
) -> Result<usize, Stop>
    ensures came { Ended (folded R.Record.Message.kind R.Rules.book (program bench.old.system) 0 (lines_of script.now) (table_of bench.old messages.old)) result (table_of bench.new messages.new) }
    ensures system { program bench.new.system ≡ program bench.old.system }
{
    let mut start = 0;
    let mut line = 0;
    // By index: `split` does not say which pieces an end of line closes, and the check states no loop over
    // `split_inclusive` in a function with a type parameter.
    for i in 0..script.len() {
        if script[i] == b'\n' {
            let Some(command) = parse(&script[start..i]) else {
                let fault = BenchFault::Unreadable(line);
                return Err(Stop { line, fault });
            };
            obey(bench, messages, command).map_err(|fault| Stop { line, fault })?;
            line += 1;
            start = i + 1;
        }
    }
    if start < script.len() {
        let fault = BenchFault::Unreadable(line);
        return Err(Stop { line, fault });
    }
    Ok(line)
}

// Plays a script: the number of its lines, or where it stopped. Records that cannot be played on are refused before any line
// is read, so also with a script of no lines.
pub fn run_script<R: Rules>(
    bench: &mut Bench<R>,
    messages: &mut [R::Record],
    script: &[u8],
) -> Result<usize, Stop>
    ensures came { Ended (scripted R.Record.Message.kind R.Rules.book (program bench.old.system) (table_of bench.old messages.old) script.now) result (table_of bench.new messages.new) }
    ensures system { program bench.new.system ≡ program bench.old.system }
{
    bench
        .ready(messages)
        .map_err(|fault| Stop { line: 0, fault })?;
    run_lines(bench, messages, script)
}
