// The pool program between two lines. A step reads one line, does what it asks for on the pool that stands at the start of fixed arrays, and
// writes the answer. A line that is of no form touches nothing, so that a slip of the keyboard does not cost the pool.

#![tactic(auto)]

ghost use Rattle.std.specs.Prelude.{◌≡◌, ◌≤◌, min, take, replicate, pos};
ghost use Rattle.lists.specs.Lists.{overwrite};
ghost use Rattle.slotsets.specs.SlotSets.{capacity};
ghost use Rattle.txids.specs.Txids.{txid_at};
ghost use Rattle.pool_rules.specs.Calls.{placed_from, entry_of};
ghost use Rattle.pool_reader.specs.Requests.{request_of};
ghost use Rattle.pool_reader.specs.Requests as ask;
ghost use Rattle.pool_session.specs.Session.{wiped};
ghost use Rattle.pool_session.specs.Memory.{lends, words_for, Stepped, Does, Sized};

mod settings;

use pool_reader::{Adding, Delta, Making, Marking, Parsed};
use pool_rules::{Placed, Totals};
use pool_writer::{write_number, write_placed};
use refusals::Refusal;
use slotsets::CAPACITY;
use template_rules::Terms;

// The words of a table's header and of a row: pool_table has the offsets within.
const HEADER: usize = 4;

const ROW: usize = 39;

// How many slots the pool has, 0 before the first. Its table and its slots' settings stand at the start of the arrays.
// stays: each method asks that there are at most 1,024 slots; as a ghost field of the struct it would not let a part of an array be lent.
#[derive(Clone, Copy)]
pub struct Memory {
    pub slots: usize,
    pub words: [u64; 39_940],
    pub deltas: [i64; 1024],
    pub marks: [u8; 1024],
}

impl Memory {
    // Without a pool.
    pub fn new() -> Memory
        ensures { result ≡ record { slots = 0; words = replicate 39940 0; deltas = replicate 1024 (pos 0); marks = replicate 1024 0 } }
    {
        Memory {
            slots: 0,
            words: [0; 39_940],
            deltas: [0; 1024],
            marks: [0; 1024],
        }
    }

    // Line number `number`, without its newline: how many bytes its answer has. More than 1,024 slots count as 1,024.
    pub fn step(&mut self, line: &[u8], number: u64, out: &mut [u8; 90_112]) -> usize
        ensures { Stepped (min self.old.slots capacity) number (request_of line.now)
            (lends self.old out.old) (lends self.new out.new) self.new.slots result }
    {
        self.slots = self.slots.min(CAPACITY);
        self.answer(line, number, out)
    }

    fn answer(&mut self, line: &[u8], number: u64, out: &mut [u8; 90_112]) -> usize
        requires { Sized self.old }
        ensures { Stepped self.old.slots number (request_of line.now)
            (lends self.old out.old) (lends self.new out.new) self.new.slots result }
    {
        let mut txid = [0u8; 32];
        let mut parents = [0u8; 4096];
        let Some(parsed) = pool_reader::read_request(line, &mut txid, &mut parents) else {
            return pool_writer::write_malformed(number, out);
        };
        match parsed {
            Parsed::Make(making) => self.make(making, out),
            Parsed::Add(adding) => self.add(adding, txid, &parents, out),
            Parsed::Remove => self.remove(txid, out),
            Parsed::SetCost(cost) => self.set_cost(txid, cost, out),
            Parsed::Clear => self.clear(out),
            Parsed::Totals => self.totals(out),
            Parsed::Delta(delta) => self.put_delta(delta, out),
            Parsed::Mark(marking) => self.put_mark(marking, out),
            Parsed::Template(terms) => self.template(terms, out),
        }
    }

    // A pool in the first words of the memory, without settings. A refused one leaves the pool that stands there.
    fn make(&mut self, making: Making, out: &mut [u8; 90_112]) -> usize
        requires { Sized self.old }
        ensures { Does (ask.make making.slots making.limits) self.old out.old self.new out.new result }
    {
        let wanted = making.slots;
        if (CAPACITY as u64) < wanted {
            return write_number(Refusal::OutOfRange.number(), out);
        }
        let slots = wanted as usize;
        let words = HEADER + slots * ROW;
        match pool_calls::make(&mut self.words[..words], making.limits) {
            Ok(()) => {
                self.slots = slots;
                self.wipe_all();
                write_number(0, out)
            }
            Err(refusal) => write_number(refusal.number(), out),
        }
    }

    // The slot that an entry takes loses the settings of the one before it.
    fn add(
        &mut self,
        adding: Adding,
        txid: [u8; 32],
        parents: &[u8],
        out: &mut [u8; 90_112],
    ) -> usize
        requires { Sized self.old }
        ensures { Does (ask.add (entry_of txid adding.fee adding.weight adding.cost) (take adding.listed parents.now))
            self.old out.old self.new out.new result }
    {
        let words = words_for(self.slots);
        let listed = adding.listed.min(parents.len());
        let taken = pool_add::add(
            &mut self.words[..words],
            txid,
            adding.fee,
            adding.weight,
            adding.cost,
            &parents[..listed],
        );
        self.wipe(taken);
        write_placed(Placed::from(taken), out)
    }

    // The slot that is free then loses its settings.
    fn remove(&mut self, txid: [u8; 32], out: &mut [u8; 90_112]) -> usize
        requires { Sized self.old }
        ensures { Does (ask.remove (txid_at txid 0)) self.old out.old self.new out.new result }
    {
        let words = words_for(self.slots);
        let freed = pool_calls::remove(&mut self.words[..words], txid);
        self.wipe(freed);
        write_placed(Placed::from(freed), out)
    }

    fn set_cost(&mut self, txid: [u8; 32], cost: u64, out: &mut [u8; 90_112]) -> usize
        requires { Sized self.old }
        ensures { Does (ask.set_cost (txid_at txid 0) cost) self.old out.old self.new out.new result }
    {
        let words = words_for(self.slots);
        let reply = pool_calls::set_cost(&mut self.words[..words], txid, cost);
        write_placed(Placed::from(reply), out)
    }

    fn clear(&mut self, out: &mut [u8; 90_112]) -> usize
        requires { Sized self.old }
        ensures { Does ask.clear self.old out.old self.new out.new result }
    {
        let words = words_for(self.slots);
        match pool_calls::clear(&mut self.words[..words]) {
            Ok(()) => {
                self.wipe_all();
                write_number(0, out)
            }
            Err(refusal) => write_number(refusal.number(), out),
        }
    }

    fn totals(&self, out: &mut [u8; 90_112]) -> usize
        requires { Sized self.now }
        ensures { Does ask.totals self.now out.old self.now out.new result }
    {
        let words = words_for(self.slots);
        let totals = pool_calls::totals(&self.words[..words]);
        pool_writer::write_totals(Totals::from(totals), out)
    }

    fn put_delta(&mut self, delta: Delta, out: &mut [u8; 90_112]) -> usize
        requires { Sized self.old }
        ensures { Does (ask.delta delta.slot delta.sats) self.old out.old self.new out.new result }
    {
        let n = self.slots;
        let put = settings::put(delta.slot, delta.sats, &mut self.deltas[..n]);
        write_number(refusals::answer(put), out)
    }

    // A mark is 0, or 1 for any other number.
    fn put_mark(&mut self, marking: Marking, out: &mut [u8; 90_112]) -> usize
        requires { Sized self.old }
        ensures { Does (ask.mark marking.slot marking.mark) self.old out.old self.new out.new result }
    {
        let n = self.slots;
        let mark = u8::from(marking.mark != 0);
        let put = settings::put(marking.slot, mark, &mut self.marks[..n]);
        write_number(refusals::answer(put), out)
    }

    fn template(&self, terms: Terms, out: &mut [u8; 90_112]) -> usize
        requires { Sized self.now }
        ensures { Does (ask.template terms) self.now out.old self.now out.new result }
    {
        let n = self.slots;
        let words = words_for(n);
        let mut room = [0usize; CAPACITY];
        let outcome = template::template(
            &self.words[..words],
            &self.deltas[..n],
            &self.marks[..n],
            terms,
            &mut room,
        );
        match outcome {
            Ok(count) => pool_writer::write_selected(&self.words[..words], &room[..count], out),
            Err(refusal) => write_number(refusal.number(), out),
        }
    }

    // The slot of an add or a remove that succeeded has no settings.
    fn wipe(&mut self, reply: Result<usize, Refusal>)
        requires { self.old.slots ≤ capacity }
        ensures { self.new ≡ record self.old {
          deltas = overwrite (wiped (placed_from reply) (pos 0) (take self.old.slots self.old.deltas)) self.old.deltas;
          marks = overwrite (wiped (placed_from reply) 0 (take self.old.slots self.old.marks)) self.old.marks;
        } }
    {
        let n = self.slots;
        settings::wipe(reply, 0, &mut self.deltas[..n]);
        settings::wipe(reply, 0, &mut self.marks[..n]);
    }

    // No slot has settings.
    fn wipe_all(&mut self)
        requires { self.old.slots ≤ capacity }
        ensures { self.new ≡ record self.old {
          deltas = overwrite (replicate self.old.slots (pos 0)) self.old.deltas;
          marks = overwrite (replicate self.old.slots 0) self.old.marks;
        } }
    {
        let n = self.slots;
        self.deltas[..n].fill(0);
        self.marks[..n].fill(0);
    }
}

// How many words the table has of a pool of n slots; without a pool there is none.
fn words_for(n: usize) -> usize
    requires { n ≤ capacity }
    ensures value { result ≡ words_for n }
    ensures few { result ≤ 39940 }
{
    if n == 0 {
        return 0;
    }
    HEADER + n * ROW
}
