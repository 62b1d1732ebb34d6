// The lines of templates: a slot's delta, and the call.
use crate::lines::Line;
use crate::{Bench, PLACES, held, mixed};
use refusals::{Refusal, Reply};
use template_rules::Terms;
use weights::RawWeight;

// A number, or with a sign of 1 as much below -1.
pub(crate) fn delta_of(sign: u64, number: u64) -> i64 {
    let n = (number % 9_223_372_036_854_775_808) as i64;
    if sign == 1 { !n } else { n }
}

// A room in which every place holds a number that no slot has.
fn places() -> [usize; PLACES] {
    let mut room = [0usize; PLACES];
    for (i, place) in room.iter_mut().enumerate() {
        *place = 5_000 + i;
    }
    room
}

impl Bench {
    // Prints the answer, the places written, sums over the room and the table, and the written places.
    pub(crate) fn template(&self, rt: &impl Print, line: Line) {
        let mut room = places();
        let reply = Reply::from(self.select(line, &mut room));
        let answer = reply.answer;
        let written = reply.written;
        let places = room.iter().fold(0, |sum, place| mixed(sum, *place as u64));
        let table = self.digest();
        let _ = print!(rt; "{answer} {written} {places} {table}");
        for place in &room[..written.min(PLACES)] {
            let _ = print!(rt; " {place}");
        }
        let _ = println!(rt; "");
    }

    // The line's second, third and fourth number say how many deltas, marks and places are lent.
    fn select(&self, line: Line, room: &mut [usize; PLACES]) -> Result<usize, Refusal> {
        let numbers = line.numbers;
        let terms = Terms {
            budget: RawWeight(numbers[4]),
            reserve: numbers[5],
            minimum: numbers[6],
        };
        template::template(
            &self.table[..self.words()],
            &self.deltas[..held(numbers[1], PLACES)],
            &self.marks[..held(numbers[2], PLACES)],
            terms,
            &mut room[..held(numbers[3], PLACES)],
        )
    }
}
