// The seven numbers of a reply: number, place and up to five values.
ghost use Rattle.std.specs.Prelude.{◌≤◌, ◌≡◌, List, ℕ, length};
ghost use Rattle.std.proofs.lemmas.List.Edits.{sets};
ghost use Rattle.limits.specs.Reply.{reply_to, plan_values};
ghost use Rattle.planfile.specs.Reply.{read_values};
ghost use Rattle.stand.specs.Reply.{footing_values};
ghost use Rattle.sight.specs.Reply.{counts_values};
ghost use Rattle.printing.specs.Reply.{text_values};
ghost use Rattle.exports.specs.Reply.{numbers_of, five};

use manopluea::{Counts, Footing, Plan, ReadPlan, Refusal};

// What a call that is done replies, besides number and place.
pub trait Values {
    // its values: document 01, "Reply numbers"
    ghost values: { Self → List ℕ };

    // The five numbers, 0 for those that the reply does not have.
    fn five(self) -> [u64; 5]
        ensures { result ≡ five (values self) };
}

// For the check and the writer: the counts.
impl Values for Plan {
    ghost values = { plan_values };

    fn five(self) -> [u64; 5] {
        [
            self.corners as u64,
            self.cells as u64,
            self.doors as u64,
            0,
            0,
        ]
    }
}

// For the reader: the kind of the list of cells too, and how many numbers it has.
impl Values for ReadPlan {
    ghost values = { read_values };

    fn five(self) -> [u64; 5] {
        [
            self.counts.corners as u64,
            self.counts.cells as u64,
            self.counts.doors as u64,
            self.kind as u64,
            self.numbers as u64,
        ]
    }
}

// For finding: the cell; then 0 and 0 for a stand strictly inside it, or 1 and its side for one strictly within that.
impl Values for Footing {
    ghost values = { footing_values };

    fn five(self) -> [u64; 5] {
        match self {
            Footing::Inside(c) => [c as u64, 0, 0, 0, 0],
            Footing::Side(c, k) => [c as u64, 1, k as u64, 0, 0],
        }
    }
}

// For the listing, the drawing and the door change.
impl Values for Counts {
    ghost values = { counts_values };

    fn five(self) -> [u64; 5] {
        [self.rows as u64, self.crossings as u64, 0, 0, 0]
    }
}

// For the printing program: how many bytes.
impl Values for usize {
    ghost values = { text_values };

    fn five(self) -> [u64; 5] {
        [self as u64, 0, 0, 0, 0]
    }
}

fn put_numbers(reply: &mut [u64], numbers: [u64; 7])
    requires { 7 ≤ length reply.old }
    ensures { reply.new ≡ sets reply.old 0 numbers }
{
    reply[..7].copy_from_slice(&numbers);
}

// An answer's seven numbers.
pub fn put<T: Values>(reply: &mut [u64], answer: Result<T, Refusal>)
    requires { 7 ≤ length reply.old }
    ensures { reply.new ≡ sets reply.old 0 (numbers_of (reply_to T.values answer)) }
{
    match answer {
        Ok(done) => {
            let [a, b, c, d, e] = done.five();
            put_numbers(reply, [0, 0, a, b, c, d, e]);
        }
        Err(r) => put_numbers(reply, [r.number(), r.place(), 0, 0, 0, 0, 0]),
    }
}
