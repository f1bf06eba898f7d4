// A whole answer as characters: its length, and the writing of it.
ghost use Rattle.std.specs.Prelude.{◌≡◌, length};
ghost use Rattle.putting.specs.Put.{Room, Put};
ghost use Rattle.sheet.specs.inner.Working.{refusal_text, judged_text, text_of};

use crate::rows::{put_solution, solution_length};
use judging::{Answer, Verdict};
use putting::{put_last, put_line};
use reading::Refusal;
use solving::Solved;

// The sheet's length. Lines of 2, 3, 4 and 6 bytes have 5, 7, 9 and 13 characters, and the phrases 8, 11 and 12.
#[tactic(auto, using(crate::proofs::Parts::sizes))]
pub(crate) fn length_of(answer: Answer) -> usize
    ensures { result ≡ length (text_of answer.solved answer.verdict) }
{
    let front = 7 + solution_length(answer.solved.solution);
    match answer.verdict {
        Verdict::Unjudged => 9 + 8,
        Verdict::Yes => front + 5 + 11,
        Verdict::No(_) => front + 13 + 12,
    }
}

// Puts the sheet of a refusal at the buffer's start.
pub fn put_refusal(buffer: &mut [u8], refusal: Refusal) -> usize
    requires { Room buffer.old 0 (refusal_text refusal) }
    ensures { Put buffer.old 0 (refusal_text refusal) buffer.new result }
{
    let [high, low] = refusal.line.to_be_bytes();
    put_last(buffer, 0, &[0x3f, refusal.number, high, low], b"refused\n")
}

// Puts the sheet of a solution at the buffer's start, with the bytes of its verdict and their phrase.
#[tactic(auto, using(putting::proofs::Putting::rooms))]
fn put_judged(buffer: &mut [u8], solved: Solved, bytes: &[u8], phrase: &[u8]) -> usize
    requires { Room buffer.old 0 (judged_text solved bytes.now phrase.now) }
    ensures { Put buffer.old 0 (judged_text solved bytes.now phrase.now) buffer.new result }
{
    let [high, low] = solved.count.to_be_bytes();
    let counted = put_line(buffer, 0, &[0x2f, high, low]);
    let next = put_solution(buffer, counted, solved.solution);
    put_last(buffer, next, bytes, phrase)
}

// Puts the sheet at the buffer's start.
pub(crate) fn put_answer(buffer: &mut [u8], answer: Answer) -> usize
    requires { Room buffer.old 0 (text_of answer.solved answer.verdict) }
    ensures { Put buffer.old 0 (text_of answer.solved answer.verdict) buffer.new result }
{
    let solved = answer.solved;
    match answer.verdict {
        Verdict::Unjudged => put_refusal(buffer, solved.refusal),
        Verdict::Yes => put_judged(buffer, solved, &[0x30, 0x01], b"flow clear\n"),
        Verdict::No(breach) => {
            let bytes = [
                0x30,
                0x00,
                breach.higher,
                breach.lower,
                breach.channel,
                breach.handle,
            ];
            put_judged(buffer, solved, &bytes, b"flow breach\n")
        }
    }
}
