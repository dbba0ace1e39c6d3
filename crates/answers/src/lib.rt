// What an answer writes for the caller.
#![tactic(auto)]

ghost use Rattle.std.specs.Prelude.{◌≡◌};
ghost use Rattle.registers.specs.Registers.{saving};
ghost use Rattle.rules.specs.Reasons.{minus};
ghost use Rattle.judgements.specs.declared.Answer.TheVariants.{No};
ghost use Rattle.answers.specs.Answers.{negative, written, told};

use identifiers::Parts;
use judgements::Answer;
use registers::Saved;
use rules::{Reason, minus_of};

// The frame's eight numbers. They are saved before the call is judged: then each judgement is next to what is written and done for it.
pub fn save_numbers(t: &mut Saved, core: u64, world: u64, x: &[u64; 8])
    ensures { t.new ≡ saving t.old core world x.now }
{
    registers::save_eight(t, core, world, x);
}

// A refusal as a call of these parts has it written.
fn negative_of(p: Parts, r: Reason) -> u64
    ensures { result ≡ negative p (minus r) }
{
    p.highest() - minus_of(r) + 1
}

// Writes a refusal.
pub fn write_refusal(t: &mut Saved, core: u64, world: u64, p: Parts, r: Reason)
    ensures { t.new ≡ saving t.old core world (written p (No r)) }
{
    registers::save_one(t, core, world, negative_of(p, r));
}

// What an answer writes in x0; 0 where it writes nothing.
pub fn told(p: Parts, a: Answer) -> u64
    ensures { result ≡ told p a }
{
    match a {
        Answer::Version => 0x10003,
        Answer::PowerVersion => 0x10001,
        Answer::Done => 0,
        Answer::On => 0,
        Answer::Off => 1,
        Answer::Pending => 2,
        Answer::Owns(is) => u64::from(is),
        Answer::Leads { phys: _, attr: _ } => 0,
        Answer::Count(n) => n,
        Answer::Silent => 0,
        Answer::No(r) => negative_of(p, r),
    }
}

// Writes the results that an answer lists, from x0 on; the others keep the caller's values.
pub fn write_answer(t: &mut Saved, core: u64, world: u64, p: Parts, a: Answer)
    ensures { t.new ≡ saving t.old core world (written p a) }
{
    match a {
        Answer::Leads { phys, attr } => registers::save_three(
            t,
            core,
            world,
            told(p, a),
            phys,
            attr,
        ),
        Answer::Silent => {}
        _ => registers::save_one(t, core, world, told(p, a)),
    }
}
