// What came of a frame, in words: a status, or an accepted call's answer; and whether the call was handed over.
#![tactic(auto, using(crate::specs::Came::laws))]

ghost use Rattle.std.specs.Prelude.{◌≡◌};
ghost use Rattle.outcome_words.specs.Came.{reason_word, status_word, answered, came_said, handed};
ghost use Rattle.judgements.specs.declared.Answer.TheVariants as Answer;

use asking::Known;
use judgements::Answer;
use outcomes::Came;
use parsing::Status;
use phrases::{Piece, Sentence};
use rules::Reason;
use words::names as w;

// The column of what came of it.
const CAME: u64 = 72;

// What stands for the world that runs on a core that is OFF.
const NO_WORLD: u64 = 255;

// The word of a reason.
fn reason_word(r: Reason) -> u64
    ensures { result ≡ reason_word r }
{
    match r {
        Reason::Unserved => w::UNSERVED,
        Reason::Invalid => w::INVALID,
        Reason::WrongOwner => w::WRONG_OWNER,
        Reason::AlreadyOn => w::ALREADY_ON,
        Reason::AlreadyPending => w::ALREADY_PENDING,
        Reason::NoPages => w::NO_PAGES,
        Reason::Mapped => w::MAPPED,
        Reason::BadAddress => w::BAD_ADDRESS,
        Reason::Full => w::FULL,
        Reason::Overlap => w::OVERLAP,
        Reason::NotOwned => w::NOT_OWNED,
        Reason::Nowhere => w::NOWHERE,
        Reason::Malformed => w::MALFORMED,
        Reason::NoMapping => w::NO_MAPPING,
        Reason::Beyond => w::BEYOND,
    }
}

// The words that a frame has of its own: for three statuses, and for what is granted.
#[derive(Clone, Copy)]
pub struct Words {
    pub accepted: u64,
    pub range: u64,
    pub clash: u64,
    pub done: u64,
}

// The words of a status.
fn status_word(why: Status, words: Words) -> u64
    ensures { result ≡ status_word why words.accepted words.range words.clash }
{
    match why {
        Status::Accepted => words.accepted,
        Status::NoHex => w::REFUSED71,
        Status::Unknown => w::REFUSED72,
        Status::Misplaced => w::WRONG_TIME,
        Status::OutOfRange => words.range,
        Status::Clash => words.clash,
    }
}

// A refusal, with its number.
fn refusal(s: Sentence, r: Reason) -> Sentence
    ensures { result ≡ answered s (Answer.No r) 0 0 }
{
    s.with(Piece::Word(w::MINUS))
        .with(Piece::Number(rules::minus_of(r)))
        .with(Piece::Word(w::COMMA))
        .with(Piece::Word(reason_word(r)))
}

// Where an address leads.
fn lead(s: Sentence, phys: u64, attr: u64) -> Sentence
    ensures { result ≡ answered s (Answer.Leads phys attr) 0 0 }
{
    let t = s
        .with(Piece::Word(w::LEADS))
        .with(Piece::Hex(phys))
        .with(Piece::Word(w::COMMA));
    asking::name(t, Known::Attributes, attr)
}

// A number that was answered.
fn number(s: Sentence, n: u64) -> Sentence
    ensures { result ≡ answered s (Answer.Count n) 0 0 }
{
    s.with(Piece::Word(w::ANSWERED)).with(Piece::Number(n))
}

// Whether the caller owns the page.
fn ownership(s: Sentence, owns: bool) -> Sentence
    ensures { result ≡ answered s (Answer.Owns owns) 0 0 }
{
    s.with(Piece::Word(if owns { w::OWNED } else { w::UNOWNED }))
}

// Which world runs then.
fn turn(s: Sentence, world: u64) -> Sentence
    ensures { result ≡ answered s Answer.Silent 0 world }
{
    if world == NO_WORLD {
        s.with(Piece::Word(w::OFF))
    } else {
        asking::name(s, Known::World, world).with(Piece::Word(w::RUNS))
    }
}

// What a call was answered, where this is the word for what is granted, and this world runs on its core then.
fn answer(s: Sentence, a: Answer, done: u64, now: u64) -> Sentence
    ensures { result ≡ answered s a done now }
{
    match a {
        Answer::Version => s.with(Piece::Word(w::VERSION)),
        Answer::PowerVersion => s.with(Piece::Word(w::POWER_VERSION)),
        Answer::Done => s.with(Piece::Word(done)),
        Answer::On => s.with(Piece::Word(w::IS_ON)),
        Answer::Off => s.with(Piece::Word(w::IS_OFF)),
        Answer::Pending => s.with(Piece::Word(w::IS_PENDING)),
        Answer::Owns(b) => ownership(s, b),
        Answer::Leads { phys, attr } => lead(s, phys, attr),
        Answer::Count(n) => number(s, n),
        Answer::Silent => turn(s, now),
        Answer::No(r) => refusal(s, r),
    }
}

// What came of a frame, in its words.
pub fn outcome(s: Sentence, words: Words, came: Came, now: u64) -> Sentence
    ensures { result ≡ came_said s words.accepted words.range words.clash words.done came now }
{
    let t = s.with(Piece::Column(CAME));
    match came {
        Came::Told(why) => t.with(Piece::Word(status_word(why, words))),
        Came::Called(made) => answer(t, made.answer, words.done, now),
    }
}

// Whether a call was handed over: nothing is answered, and another world than Normal runs then.
pub fn is_handed(came: Came, now: u64) -> bool
    ensures { result ≡ handed came now }
{
    let Came::Called(made) = came else {
        return false;
    };
    now != rules::NORMAL && now != NO_WORLD && matches!(made.answer, Answer::Silent)
}
