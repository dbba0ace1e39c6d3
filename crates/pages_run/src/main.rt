// Maps, unmaps and moves pages at the edges of the rules. Each line of the input is a step: its kind, four hexadecimal numbers
// and its name. The program writes the name and the paper's number for the answer.
//
// o BASE PAGES 0 0: a window, in which every page is Root's and nothing is mapped
// g FIRST COUNT WORLD 0: pages given, with no test
// w BASE PAGES 0 0: whether there may be such a window, 1 or 0
// m WORLD PHYSICAL VIRTUAL SIZE: a mapping that may be written to
// u WORLD VIRTUAL SIZE 0: its end
// t FROM TO START COUNT: a transfer of pages
// p PAGE 0 0 0: the page's owner
// k NUMBER 0 0 0: the marks of sixteen pages, the highest first
//
// The first two have no name, and nothing is written of them.
#![tactic(auto)]

ghost use Rattle.std.specs.Prelude.{◌<◌, ◌≤◌, length, IfSome};

use mapping::{Lists, Mapping};
use pages::{Owners, Window};
use rules::{ROOT, Reason};
use signs::Signs;
use std::io;

// The kind of a line, by its letter as it was read, and its numbers. It is made a `Step` at once, but for the first, whose letter counts
// for nothing.
#[derive(Clone, Copy)]
struct Line {
    kind: u8,
    a: u64,
    b: u64,
    c: u64,
    d: u64,
}

impl Line {
    fn window(self) -> Window {
        Window {
            base: self.a,
            pages: self.b,
        }
    }

    // What it asks for.
    fn step(self) -> Step {
        let Line { kind, a, b, c, d } = self;
        match kind {
            b'o' => Step::Open(self.window()),
            b'g' => Step::Give {
                first: a,
                count: b,
                world: c,
            },
            b'm' => Step::Map {
                world: a,
                mapping: Mapping {
                    virt: c,
                    phys: b,
                    size: d,
                    attr: 1,
                },
            },
            b'u' => Step::Unmap {
                world: a,
                virt: b,
                size: c,
            },
            b't' => Step::Transfer {
                from: a,
                to: b,
                start: c,
                count: d,
            },
            b'p' => Step::Owner(a),
            b'k' => Step::Marks(a),
            _ => Step::Judge(self.window()),
        }
    }
}

// What a line asks for.
#[derive(Clone, Copy)]
enum Step {
    Open(Window),
    Give {
        first: u64,
        count: u64,
        world: u64,
    },
    Judge(Window),
    Map {
        world: u64,
        mapping: Mapping,
    },
    Unmap {
        world: u64,
        virt: u64,
        size: u64,
    },
    Transfer {
        from: u64,
        to: u64,
        start: u64,
        count: u64,
    },
    Owner(u64),
    Marks(u64),
}

// What came of a step.
#[derive(Clone, Copy)]
enum Answer {
    Number(u64),
    Marks(u64),
    Refused(Reason),
}

fn say_answer(rt: &impl Print, a: Answer) -> io::Result<()> {
    match a {
        Answer::Number(n) => println!(rt; ": {n}"),
        Answer::Marks(n) => println!(rt; ": {n:016x}"),
        Answer::Refused(r) => println!(rt; ": -{}", rules::minus_of(r)),
    }
}

// The next line; none at the end of the text.
fn take_line(text: &mut Signs) -> Option<Line>
    ensures { IfSome result (λ line. length text.new.left.now < length text.old.left.now) }
{
    let (kind, left) = text.left.split_first()?;
    text.left = left;
    Some(Line {
        kind: *kind,
        a: text.number().0,
        b: text.number().0,
        c: text.number().0,
        d: text.number().0,
    })
}

fn map(w: Window, owners: &Owners, lists: &mut Lists, world: u64, m: Mapping) -> Answer {
    match mapping::judge_map(lists, owners, w, world, m) {
        Ok(mapping::Grant::Hold) => {
            mapping::hold(lists, world, m);
            Answer::Number(0)
        }
        Ok(mapping::Grant::Nothing) => Answer::Number(0),
        Err(r) => Answer::Refused(r),
    }
}

fn unmap(lists: &mut Lists, world: u64, virt: u64, size: u64) -> Answer {
    if mapping::has(lists, world, virt, size) {
        mapping::release(lists, world, virt, size);
        return Answer::Number(0);
    }
    Answer::Refused(Reason::NoMapping)
}

fn transfer(
    w: Window,
    owners: &mut Owners,
    lists: &Lists,
    from: u64,
    to: u64,
    start: u64,
    count: u64,
) -> Answer {
    match transfers::judge(w, owners, lists, from, start, count) {
        Ok(first) => {
            pages::give(owners, first, count, to);
            Answer::Number(0)
        }
        Err(r) => Answer::Refused(r),
    }
}

// A window, its pages' owners, and what is mapped.
#[derive(Drop)]
struct Scene {
    window: Window,
    owners: Owners,
    lists: Lists,
}

impl Scene {
    fn open(window: Window) -> Scene {
        let mut owners = pages::fresh_owners();
        pages::give(&mut owners, 0, window.pages, ROOT);
        Scene {
            window,
            owners,
            lists: mapping::fresh(),
        }
    }

    // What comes of a step; nothing is said of the first two kinds.
    fn act(&mut self, step: Step) -> Option<Answer> {
        let answer = match step {
            Step::Open(window) => {
                *self = Scene::open(window);
                return None;
            }
            Step::Give {
                first,
                count,
                world,
            } => {
                pages::give(&mut self.owners, first, count, world);
                return None;
            }
            Step::Judge(window) => Answer::Number(u64::from(window.acceptable())),
            Step::Map { world, mapping } => map(
                self.window,
                &self.owners,
                &mut self.lists,
                world,
                mapping,
            ),
            Step::Unmap { world, virt, size } => unmap(&mut self.lists, world, virt, size),
            Step::Transfer {
                from,
                to,
                start,
                count,
            } => transfer(
                self.window,
                &mut self.owners,
                &self.lists,
                from,
                to,
                start,
                count,
            ),
            Step::Owner(page) => Answer::Number(pages::owner_of(&self.owners, page)),
            Step::Marks(number) => Answer::Marks(self.owners[(number % 256) as usize]),
        };
        Some(answer)
    }
}

// Plays each line; the first is a window whatever its kind.
fn run(rt: &impl Print, text: &[u8]) -> io::Result<()> {
    let mut text = Signs { left: text };
    let Some(first) = take_line(&mut text) else {
        return Ok(());
    };
    let mut scene = Scene::open(first.window());
    while let Some(line) = take_line(&mut text) {
        if let Some(answer) = scene.act(line.step()) {
            rt.write_all(text.through(b'\n'))?;
            say_answer(rt, answer)?;
        }
    }
    Ok(())
}

fn main(rt: HostRuntime) -> io::Result<()> {
    let mut buf = [0u8; 65536];
    let n = input_whole::read_full(&mut rt.reader(), &mut buf)?;
    run(&rt, &buf[..n])
}
