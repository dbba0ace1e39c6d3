// A line of a run told in words: its number, who speaks on which core, what is asked, and what came of it.
#![tactic(auto, using(crate::specs::Telling::tells))]

ghost use Rattle.std.specs.Prelude.{◌≡◌};
ghost use Rattle.telling.specs.Telling.{on_core, speaker, arrival_said, line_of, no_frame, sentence_of};

use asking::Known;
use outcome_words::Words;
use outcomes::Came;
use parsing::{Frame, Status};
use phrases::{Piece, Sentence};
use setup_words::ASKED;
use words::names as w;

// The column of the world that speaks.
const WORLD: u64 = 14;

// The words of a line of set-up.
const SETUP: Words = Words {
    accepted: w::ACCEPTED,
    range: w::OUT_OF_RANGE,
    clash: w::OUT_OF_RANGE,
    done: w::GRANTED,
};

// A line of a core.
fn on_core(n: u64, core: u64) -> Sentence
    ensures { result ≡ on_core n core }
{
    setup_words::opening(n)
        .with(Piece::Word(w::CORE))
        .with(Piece::Number(core))
}

// Who calls: a world, where the call was accepted.
fn speaker(n: u64, core: u64, came: Came) -> Sentence
    ensures { result ≡ speaker n core came }
{
    let s = on_core(n, core);
    match came {
        Came::Told(_) => s.with(Piece::Column(ASKED)),
        Came::Called(made) => {
            let t = asking::name(s.with(Piece::Column(WORLD)), Known::World, made.caller);
            t.with(Piece::Word(w::COLON)).with(Piece::Column(ASKED))
        }
    }
}

// 21: a core arrives.
fn arrival(n: u64, core: u64) -> Sentence
    ensures { result ≡ arrival_said n core }
{
    on_core(n, core)
        .with(Piece::Column(ASKED))
        .with(Piece::Word(w::ARRIVES))
}

// What a line is that is no frame.
fn line_word(why: Status) -> u64
    ensures { result ≡ line_of why }
{
    match why {
        Status::NoHex => w::NO_PAIRS,
        _ => w::NO_KIND,
    }
}

fn no_frame(n: u64, why: Status) -> Sentence
    ensures { result ≡ no_frame n why }
{
    setup_words::opening(n)
        .with(Piece::Word(w::NO_FRAME))
        .with(Piece::Column(ASKED))
        .with(Piece::Word(line_word(why)))
}

// The sentence of line n: its frame, with the eight numbers that stand beside it, what came of it, and the world that runs
// on its core then.
pub fn tell(n: u64, frame: Frame, x: &[u64; 8], came: Came, runs: u64) -> Sentence
    ensures { result ≡ sentence_of n frame x.now came runs }
{
    let (asked, words) = match frame {
        Frame::Site { base, pages, cores } => (setup_words::site(n, base, pages, cores), SETUP),
        Frame::Entry {
            first,
            last,
            kind,
            handler,
        } => (
            setup_words::entry(n, first, last, kind, handler),
            Words {
                clash: w::GIVEN_BEFORE,
                ..SETUP
            },
        ),
        Frame::Name {
            first,
            count,
            owner,
        } => (
            setup_words::pages(n, first, count, owner),
            Words {
                clash: w::NAMED_BEFORE,
                ..SETUP
            },
        ),
        Frame::Call { core } => (
            asking::ask(
                speaker(n, core, came),
                outcome_words::is_handed(came, runs),
                x,
            ),
            Words {
                accepted: w::ACCEPTED,
                range: w::NO_CORE,
                clash: w::NOT_ON,
                done: asking::done_word(x),
            },
        ),
        Frame::Arrival { core } => (
            arrival(n, core),
            Words {
                accepted: w::ARRIVED,
                range: w::NO_CORE,
                clash: w::NOT_PENDING,
                done: w::GRANTED,
            },
        ),
        Frame::Refused(why) => (no_frame(n, why), SETUP),
    };
    outcome_words::outcome(asked, words, came, runs)
}
