// Answers put out as numbers, for the calls for other languages.
#![tactic(auto)]

pub mod site;
pub mod survey;

ghost use Rattle.std.specs.Prelude.{◌≡◌, ℕ, ◌++◌, List};
ghost use Rattle.records.specs.Refusals.{numbered};
ghost use Rattle.columns.specs.Line.{at_front};
ghost use Rattle.answers.specs.Packing.{packed};
ghost use Rattle.answers.specs.Values.{returned_by};

use records::refusal::Refusal;

// An answer that is told in numbers.
pub trait Values {
    ghost values: { Self → List ℕ };

    // Puts them to the front of a buffer that holds them, and else nothing.
    fn put(&self, out: &mut [u64])
        ensures { out.new ≡ at_front (values self.now) out.old };
}

// Writes numbers to the front of a buffer that holds them, and else nothing.
pub fn put_words(out: &mut [u64], words: &[u64])
    ensures { out.new ≡ at_front words.now out.old }
{
    if words.len() <= out.len() {
        out[..words.len()].copy_from_slice(words);
    }
}

// Writes numbers, then others, to the front of a buffer that holds them all, and else nothing.
pub(crate) fn put_parts(out: &mut [u64], first: &[u64], rest: &[u64])
    ensures { out.new ≡ at_front (first.now ++ rest.now) out.old }
{
    if first.len() + rest.len() <= out.len() {
        put_words(out, first);
        put_words(&mut out[first.len()..], rest);
    }
}

// Puts the numbers of an accepted answer to the front of `out`. Gives the number that an answer is refused by, 0 where it is accepted.
pub fn put_numbered<A: Values + Drop>(out: &mut [u64], answer: Result<A, u64>) -> u64
    ensures value { result ≡ packed (returned_by A.values answer) }
    ensures out_after { out.new ≡ at_front (returned_by A.values answer).values out.old }
{
    match answer {
        Ok(a) => {
            a.put(out);
            0
        }
        Err(number) => number,
    }
}

// Puts the numbers of an accepted answer to the front of `out`. Gives the refusal, 0 where there is none.
pub fn put_answer<A: Values + Drop>(out: &mut [u64], answer: Result<A, Refusal>) -> u64
    ensures value { result ≡ packed (returned_by A.values (numbered answer)) }
    ensures out_after { out.new ≡ at_front (returned_by A.values (numbered answer)).values out.old }
{
    put_numbered(out, answer.map_err(|refusal| refusal.number()))
}
