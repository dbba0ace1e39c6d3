// Which pages a line is about: those that it names an owner for, and those whose transfer a call asks for.
#![tactic(auto)]

ghost use Rattle.std.specs.Prelude.{◌≡◌};
ghost use Rattle.judgements.specs.Read.{args_by};
ghost use Rattle.spans.specs.Spans.{any_row, span_of, asked_by, is_done, named_in, named, over_page, asks_over, is_verdict, asks_for};

use calls::Made;
use judgements::{Answer, Transfer};
use outcomes::Came;
use pages::Window;
use parsing::{Frame, Status};
use rules::PAGE_SIZE;

// A run of pages, of which the first has this place in the window.
#[derive(Clone, Copy)]
pub struct Span {
    pub first: u64,
    pub count: u64,
}

// The transfer that a call is by its identifier: two handlers know some, and no identifier is known to both.
fn any_row(x: &[u64; 8], key: u32) -> Option<Transfer>
    ensures { result ≡ any_row (args_by key x.now) key }
{
    let Some(t) = page_calls::row_of(x, 2, key) else {
        return page_calls::row_of(x, 1, key);
    };
    Some(t)
}

// The pages of the window from an address on, where all of them are pages of it.
pub fn span_of(w: Window, start: u64, count: u64) -> Option<Span>
    ensures { result ≡ span_of w start count }
{
    let first = w.run_of(start, count)?;
    Some(Span { first, count })
}

// The pages whose transfer a call asks for.
pub fn asked_by(w: Window, x: &[u64; 8]) -> Option<Span>
    ensures { result ≡ asked_by w x.now }
{
    let q = judging::read_call(x);
    let a = q.args;
    let t = any_row(x, q.key)?;
    span_of(w, a.x1, t.count)
}

// Whether a call was granted, with nothing to tell.
pub fn is_done(a: Answer) -> bool
    ensures { result ≡ is_done a }
{
    matches!(a, Answer::Done)
}

// The pages of a set-up line that names some.
pub fn named_in(frame: Frame) -> Option<Span>
    ensures { result ≡ named_in frame }
{
    match frame {
        Frame::Site { base, pages, cores } => None,
        Frame::Entry {
            first,
            last,
            kind,
            handler,
        } => None,
        Frame::Name {
            first,
            count,
            owner,
        } => Some(Span { first, count }),
        Frame::Call { core } => None,
        Frame::Arrival { core } => None,
        Frame::Refused(why) => None,
    }
}

// The pages for which a line names an owner: an accepted set-up line, or a granted transfer.
pub fn named(w: Window, frame: Frame, x: &[u64; 8], came: Came) -> Option<Span>
    ensures { result ≡ named w frame x.now came }
{
    match came {
        Came::Told(why) => {
            if parsing::byte_of(why) == 0 {
                return named_in(frame);
            }
            None
        }
        Came::Called(made) => {
            let answer = made.answer;
            if is_done(answer) {
                return asked_by(w, x);
            }
            None
        }
    }
}

// Whether an address of so many pages, from `start` on, lies in the page that holds this one. No sum is made that could wrap.
#[tactic(auto, using(crate::specs::Laws::overs))]
fn over_page(address: u64, start: u64, count: u64) -> bool
    ensures { result ≡ over_page address start count }
{
    let page = address / PAGE_SIZE;
    count != 0 && start / PAGE_SIZE <= page && (page < count || (page - count) * PAGE_SIZE < start)
}

// Whether a call asks for the transfer of an address in that page, wherever it lies.
fn asks_over(address: u64, x: &[u64; 8]) -> bool
    ensures { result ≡ asks_over address x.now }
{
    let q = judging::read_call(x);
    let a = q.args;
    let Some(t) = any_row(x, q.key) else {
        return false;
    };
    over_page(address, a.x1, t.count)
}

// Whether a call was granted or refused, and not handed over.
fn is_verdict(a: Answer) -> bool
    ensures { result ≡ is_verdict a }
{
    matches!(a, Answer::Done | Answer::No(_))
}

// Whether a call with this answer asks for the page of the window that holds the address.
#[tactic(auto, using(crate::specs::Laws::asking_for))]
pub fn asks_for(p: Option<u64>, address: u64, x: &[u64; 8], a: Answer) -> bool
    ensures { result ≡ asks_for p address x.now a }
{
    let Some(page) = p else {
        return false;
    };
    is_verdict(a) && asks_over(address, x)
}
