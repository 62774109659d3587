// Frames of 416 bytes, one after another from a fresh state, and the answer of each.
ghost use Rattle.std.specs.Prelude.{◌≡◌, ℕ, List, IfOk, IfSome};
ghost use Rattle.std.specs.Iterator.{at_most};
ghost use Rattle.numbers.specs.Table.{table_of};
ghost use Rattle.area.specs.Outcome.{lent_outcome_in};
ghost use Rattle.area.specs.Lists.{FrameSays};

use crate::turns::Turns;
use area::{FRAME, Outputs, State};
use refusals::Refusal;
use std::io;
use std::io::Read;
use streams::read_full;

/// What a frame answers, and the state after it: as it was where the frame is refused.
#[derive(Clone, Copy, Debug)]
pub struct Answer {
    pub state: State,
    pub outputs: Result<Outputs, Refusal>,
}

/// A shorter last part is a frame refused with 1.
#[derive(Drop)]
pub struct Answers<'a, R> {
    input: R,
    // Stays: read into here, and not as a Part of streams. Handed on as one, a frame's bytes are copied and cleared twice more.
    room: [u8; FRAME],
    // Stays: counted down, as in Records.
    left: u64,
    turns: Turns,
    // Stays: bytes. The calls take bytes of any length, and no bytes stand for T: an Option would be turned into bytes at each call.
    table: &'a [u8],
}

impl<'a, R: Read + Drop> Answers<'a, R> {
    pub fn new(input: R, table: &'a [u8]) -> Self {
        Answers {
            input,
            room: [0; FRAME],
            left: u64::MAX,
            turns: Turns::default(),
            table,
        }
    }
}

impl<R: Read + Drop> Iterator for Answers<'_, R> {
    type Item = io::Result<Answer>;

    // Some frame's by the table, on the state before it.
    ghost next_gives = { λ s answer t. IfSome answer (λ read. IfOk read (λ a.
        ((bytes : List ℕ) × FrameSays (table_of s.table.now) s.turns.state bytes (record { state = a.state; outcome = lent_outcome_in s.turns.state a.outputs }))
        × (t.turns.state ≡ a.state))) };

    ghost remaining = { λ s. at_most s.left };

    fn next(&mut self) -> Option<io::Result<Answer>> {
        if self.left == 0 {
            return None;
        }
        self.left -= 1;
        let count = match read_full(&mut self.input, &mut self.room) {
            Ok(count) => count,
            Err(error) => return Some(Err(error)),
        };
        if count == 0 {
            return None;
        }
        if count < FRAME {
            self.left = 0;
        }
        let answer = self.turns.frame(&self.room[..count], self.table);
        Some(Ok(Answer {
            state: self.turns.state,
            outputs: answer.map(|accepted| accepted.outputs),
        }))
    }
}
