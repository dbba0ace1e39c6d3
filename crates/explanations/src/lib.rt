// A whole explanation: the lines of standard input in words, and how things stand behind them.
#![tactic(auto)]

ghost use Rattle.std.specs.Prelude.{◌≡◌, true};
ghost use Rattle.explanations.specs.Ended.{Ended};

use frames::Machine;
use std::rt::Env;
use views::View;
use wanted::Wanted;

// The longest word that means something: 0x and sixteen digits.
const WORD: usize = 18;

// Explains standard input on standard output, as the view has it: whether it was read to its end and all could be written.
pub fn explain(rt: &(impl Input + Print), view: View) -> bool
    ensures { result ≡ true → Ended view }
{
    let mut machine = Machine::fresh();
    let mut table = origins::fresh();
    let mut count = origins::fresh_lines();
    if explain_console::explain(rt, view, &mut table, &mut count, &mut machine) {
        let mut out = [0u8; 65536];
        return standings::tell(rt, view, &mut out, &table, &count, &machine);
    }
    false
}

fn say_usage(rt: &impl Eprint) {
    let _ = rt.eprintln(
        "usage: explain, explain map, or explain ADDRESS with up to 16 lower-case hexadecimal digits",
    );
}

// Explains standard input as the program's argument asks.
pub fn run(rt: &(impl Input + Print + Eprint + Env)) {
    if !arguments::has_word(rt, 1) {
        explain(rt, View::All);
        return;
    }
    let mut word = [0u8; WORD];
    let n = rt.arg(1, &mut word).unwrap_or(0);
    if arguments::has_word(rt, 2) {
        say_usage(rt);
        return;
    }
    match wanted::wanted_by(&word[..n]) {
        Some(Wanted::Map) => {
            explain(rt, View::Map);
        }
        Some(Wanted::Page(address)) => {
            explain(rt, View::Page(address));
        }
        None => say_usage(rt),
    }
}
