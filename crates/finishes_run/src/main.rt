// Two finishes on one core, by Secure and by Realm: all nine numbers of Normal and of the finisher before and after each. No frame
// shows Normal's x4, since the next call of the core writes all eight.
#![tactic(auto)]

use calls::Site;
use cores::{Powers, Turns};
use ledger::Ledger;
use mapping::Lists;
use pages::{Owners, Window};
use registers::Saved;
use std::io;

const SITE: Site = Site {
    window: Window {
        base: 0x8000_0000,
        pages: 16,
    },
    cores: 2,
};

// The core that hands over; Normal has a start address there.
const CORE: u64 = 1;

// The state that the calls of a run find and leave.
#[derive(Drop)]
struct State {
    book: Ledger,
    owners: Owners,
    saved: Saved,
    powers: Powers,
    turns: Turns,
    lists: Lists,
}

impl State {
    fn call(&mut self, numbers: &[u64; 8]) {
        calls::call(
            SITE,
            CORE,
            numbers,
            &self.book,
            &mut self.owners,
            &mut self.saved,
            &mut self.powers,
            &mut self.turns,
            &mut self.lists,
        );
    }

    // The nine numbers of a world on that core: x0 to x7, and where the core started.
    fn say_numbers(&self, rt: &impl Print, name: &str, world: u64) -> io::Result<()> {
        print!(rt; "{name}")?;
        for i in 0..9 {
            print!(rt; " {:08x}", registers::number(&self.saved, CORE, world, i))?;
        }
        println!(rt; "")
    }

    // Those of Normal and of the finisher.
    fn say_both(&self, rt: &impl Print, when: &str, name: &str, world: u64) -> io::Result<()> {
        println!(rt; "{when}")?;
        self.say_numbers(rt, "Normal", rules::NORMAL)?;
        self.say_numbers(rt, name, world)
    }

    // Normal hands over, and the receiver finishes.
    fn play(
        &mut self,
        rt: &impl Print,
        name: &str,
        world: u64,
        first: &[u64; 8],
        last: &[u64; 8],
    ) -> io::Result<()> {
        self.call(first);
        self.say_both(rt, "before the finish", name, world)?;
        self.call(last);
        self.say_both(rt, "after it", name, world)
    }
}

fn main(rt: HostRuntime) -> io::Result<()> {
    let mut state = State {
        book: ledger::fresh(),
        owners: pages::fresh_owners(),
        saved: registers::fresh(),
        powers: cores::fresh_powers(),
        turns: cores::fresh_turns(),
        lists: mapping::fresh(),
    };
    let _ = ledger::enter(&mut state.book, 4, 4, 1, 2);
    let _ = ledger::enter(&mut state.book, 50, 50, 1, 3);
    registers::save_start(&mut state.saved, CORE, rules::NORMAL, 0xC0, 0x8000_0004);
    let to_secure = [0xF200_0001, 0x11, 0x12, 0x13, 0x14, 0x15, 0x16, 0x17];
    let by_secure = [0xF200_0000, 0xA1, 0xA2, 0xA3, 0xA4, 0xA5, 0xA6, 0xA7];
    state.play(&rt, "Secure", rules::SECURE, &to_secure, &by_secure)?;
    let to_realm = [0xC400_0150, 0x21, 0x22, 0x23, 0x24, 0x25, 0x26, 0x27];
    let by_realm = [0xC400_018F, 0xB1, 0xB2, 0xB3, 0xB4, 0xB5, 0xB6, 0xB7];
    state.play(&rt, "Realm ", rules::REALM, &to_realm, &by_realm)
}
