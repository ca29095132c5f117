//! Texts into a sink.

ghost use Rattle.std.specs.Prelude.{◌≡◌, true};
ghost use Rattle.ob_io.specs.Io.{HasCause, WritesAll};
ghost use Rattle.ob_shell_reports.specs.Prints.{all_of, PrintDoes, SinkCause};

use crate::stop::Stop;
use ob_io::{Failed, Sink, write_all};

/// Prints texts, one behind the other. At a fault a front of them is printed.
#[tactic(auto, using(ob_io::specs::Fronts::front_more, ob_io::specs::Fronts::front_later))]
pub fn put_all<S: Sink>(out: &mut S, texts: &[&[u8]]) -> Result<(), Failed>
    ensures told { S.tells out.new ≡ S.tells out.old }
    ensures bytes { S.tells out.old ≡ true → WritesAll (S.taken out.old) (S.taken out.new) result (all_of texts.now) }
    ensures cause { HasCause (S.faults out.old) (S.faults out.new) result }
{
    match texts {
        [] => Ok(()),
        [last] => write_all(out, last),
        [first, rest @ ..] => {
            write_all(out, first)?;
            put_all(out, rest)
        }
    }
}

/// Prints texts, and answers this. It takes no memory.
pub fn tell<O: Sink>(texts: &[&[u8]], answer: bool, out: &mut O) -> Result<bool, Stop>
    ensures does { PrintDoes (O.tells out.old) (O.taken out.old) (O.taken out.new) (all_of texts.now) answer result }
    ensures told { O.tells out.new ≡ O.tells out.old }
    ensures cause { SinkCause (O.faults out.old) (O.faults out.new) result }
{
    match put_all(out, texts) {
        Ok(()) => Ok(answer),
        Err(_) => Err(Stop::Sink),
    }
}
