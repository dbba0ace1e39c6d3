// What a call is answered and what is done for it: the table of calls (specs/Judge.antt), its types and names, and the two ways a judgement ends.
#![tactic(auto)]

ghost use Rattle.std.specs.Prelude.{◌≡◌};
ghost use Rattle.judgements.specs.Judge.{wanted, args_of, denied, granted};
ghost use Rattle.judgements.specs.Read.{args_by};

pub mod names;

use identifiers::{Identifier, Parts};
use mapping::Mapping;
use pages::Window;
use rules::Reason;

// What a call is answered. The paper's numbers stand in one definition, where answers are written.
#[derive(Clone, Copy)]
pub enum Answer {
    // the version of the calling convention
    Version,
    // the version of core power
    PowerVersion,
    // granted, with nothing to tell
    Done,
    // the state of a core
    On,
    Off,
    Pending,
    // whether the caller owns the page
    Owns(bool),
    // where an address leads
    Leads { phys: u64, attr: u64 },
    // how many cores are ON
    Count(u64),
    // nothing is written for the caller
    Silent,
    // refused, for the first reason that the paper's order finds
    No(Reason),
}

// What is to be done for a call.
#[derive(Clone, Copy)]
pub enum Deed {
    Nothing,
    // pages, from the first one's place in the window on, go to another owner
    Move { first: u64, count: u64, to: u64 },
    Map(Mapping),
    Unmap { virt: u64, size: u64 },
    Start { core: u64, start: u64, context: u64 },
    // the calling core goes OFF
    GoOff,
    // the world that receives the core
    HandOver(u64),
    Finish,
}

// A judgement: the answer, and the deed that goes with it.
#[derive(Clone, Copy)]
pub struct Judged {
    pub answer: Answer,
    pub deed: Deed,
}

// Who calls, and from where.
#[derive(Clone, Copy)]
pub struct Caller {
    pub world: u64,
    pub cores: u64,
    pub window: Window,
}

// The arguments of a call, as its width has them read.
#[derive(Clone, Copy)]
pub struct Args {
    pub x1: u64,
    pub x2: u64,
    pub x3: u64,
    pub x4: u64,
}

impl Args {
    // The mapping that a call wants: physical x1 at virtual x2, size x3, attributes x4.
    pub fn wanted(self) -> Mapping
        ensures { result ≡ wanted self }
    {
        Mapping {
            virt: self.x2,
            phys: self.x1,
            size: self.x3,
            attr: self.x4,
        }
    }
}

// A page transfer.
#[derive(Clone, Copy)]
pub struct Transfer {
    // whether Secure and Realm both may call it, or Realm alone
    pub both: bool,
    // whether Normal gives and the caller takes, or the caller gives and Normal takes
    pub takes: bool,
    // how many pages
    pub count: u64,
}

// What a call reads of the caller's eight numbers.
#[derive(Clone, Copy)]
pub struct Request {
    pub parts: Parts,
    pub key: u32,
    pub args: Args,
}

// The arguments, as a call of these parts reads them: a 64-bit one as they stand.
fn args_of(p: Parts, x: &[u64; 8]) -> Args
    ensures { result ≡ args_of p x.now }
{
    if p.wide == 1 {
        return Args {
            x1: x[1],
            x2: x[2],
            x3: x[3],
            x4: x[4],
        };
    }
    Args {
        x1: p.argument(x[1]),
        x2: p.argument(x[2]),
        x3: p.argument(x[3]),
        x4: p.argument(x[4]),
    }
}

// The arguments, as a call of this key reads them. Who knows the key knows the width, and reads no more than it needs.
pub fn read_args(key: u32, x: &[u64; 8]) -> Args
    ensures { result ≡ args_by key x.now }
{
    let p = Identifier(key).split();
    args_of(p, x)
}

// A refusal changes nothing.
pub fn refuse(r: Reason) -> Judged
    ensures { result ≡ denied r }
{
    Judged {
        answer: Answer::No(r),
        deed: Deed::Nothing,
    }
}

// A call is granted: its answer, and what is to be done for it.
pub fn grant(a: Answer, d: Deed) -> Judged
    ensures { result ≡ granted a d }
{
    Judged { answer: a, deed: d }
}
