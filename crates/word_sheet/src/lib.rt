// Writes the word sheet of a plan's text: one line in people's own words, which a committee can be read. It is put together in an array that holds any,
// and copied to a lent buffer where it fits. Proved: the buffer holds the word sheet and is otherwise as it was, or all of it is; 114 bytes suffice; and
// the line is well-formed UTF-8.
#![tactic(auto)]

ghost use Rattle.std.specs.Prelude.{◌≡◌, ◌+◌, ◌≤◌, length, find, All, IfSome, option_copied};
ghost use Rattle.putting.specs.Put.{Put};
ghost use Rattle.reading.specs.Plan.{plan_in};
ghost use Rattle.sheet.specs.Write.{Writes, IsWhole};
ghost use Rattle.word_sheet.specs.WordSheet.{decimal, is_of, label_for, name_by, level_name, channel_name, breach_line, word_sheet_of, longest_words, labels_of, WordSheetFor};
ghost use Rattle.word_sheet.specs.inner.Working.{HasBytes, TwoDigits, BreachTwoDigits, VerdictTwoDigits, longest_word, NameRoom, PutName};

use judging::{Breach, Verdict};
use lines::Label;
use lines::labels::{CHANNEL, LEVEL};
use putting::put_text;
use sheet::{LONGEST, Sheet, Written};

// A kind of thing that a breach names, by the number that `Label` (lines) has for it, and the word for one that has no label.
#[derive(Clone, Copy)]
struct Called {
    kind: u8,
    word: &'static [u8],
}

const LEVELS: Called = Called {
    kind: LEVEL,
    word: b"level ",
};

const CHANNELS: Called = Called {
    kind: CHANNEL,
    word: b"channel ",
};

// Puts a number below 100 in decimal, by hand, since the library prints to a writer. That it has two digits the numbers of a breach show, which are bytes.
// Buffer and position stand apart, as `put_text` (putting) takes them.
fn put_decimal(buffer: &mut [u8], at: usize, number: u8) -> usize
    requires { TwoDigits number × (at + 2 ≤ length buffer.old) }
    ensures { Put buffer.old at (decimal number) buffer.new result }
{
    if number < 10 {
        return put_text(buffer, at, &[b'0' + number]);
    }
    put_text(buffer, at, &[b'0' + number / 10, b'0' + number % 10])
}

// The label of a thing, where it has one.
fn label_for(labels: &[Label], kind: u8, number: u8) -> Option<&Label>
    requires { All HasBytes labels.now }
    ensures found { option_copied result ≡ find (is_of kind number) labels.now }
    ensures has_bytes { IfSome (option_copied result) HasBytes }
{
    labels
        .iter()
        .find(|label| label.kind == kind && label.number == number)
}

// Puts characters, and behind them what a thing is called: its label, shortened, or its word and its number.
fn put_name(
    buffer: &mut [u8],
    at: usize,
    front: &[u8],
    labels: &[Label],
    called: Called,
    number: u8,
) -> usize
    requires { TwoDigits number × All HasBytes labels.now × (length called.word.now ≤ longest_word) × NameRoom buffer.old at front.now }
    ensures { PutName buffer.old at front.now (name_by called.word.now number (label_for called.kind number labels.now)) buffer.new result }
{
    let next = put_text(buffer, at, front);
    match label_for(labels, called.kind, number) {
        Some(label) => put_text(buffer, next, label_bytes::shortened(label.own_bytes())),
        None => {
            let said = put_text(buffer, next, called.word);
            put_decimal(buffer, said, number)
        }
    }
}

// Puts the line of a breach at the buffer's start.
fn put_breach(buffer: &mut [u8], labels: &[Label], breach: Breach) -> usize
    requires { BreachTwoDigits breach × All HasBytes labels.now × (longest_words ≤ length buffer.old) }
    ensures { Put buffer.old 0 (breach_line labels.now breach) buffer.new result }
{
    let higher = put_name(buffer, 0, b"breach ", labels, LEVELS, breach.higher);
    let lower = put_name(buffer, higher, b" to ", labels, LEVELS, breach.lower);
    let channel = put_name(buffer, lower, b" on ", labels, CHANNELS, breach.channel);
    let handle = put_name(buffer, channel, b": ", labels, CHANNELS, breach.handle);
    put_text(buffer, handle, b"\n")
}

// Puts the word sheet at the buffer's start, by the verdict on the text; a breach is told by the text's labels.
#[tactic(auto, using(crate::proofs::Words::read_few))]
fn put_words(buffer: &mut [u8], text: &[u8], verdict: Verdict) -> usize
    requires { VerdictTwoDigits verdict × (longest_words ≤ length buffer.old) }
    ensures { Put buffer.old 0 (word_sheet_of (labels_of (plan_in text.now)) verdict) buffer.new result }
{
    match verdict {
        Verdict::Unjudged => put_text(buffer, 0, b"refused\n"),
        Verdict::Yes => put_text(buffer, 0, b"clear\n"),
        Verdict::No(breach) => {
            let reading = reading::read(text);
            put_breach(buffer, &reading.labels[..reading.labelled], breach)
        }
    }
}

// The whole word sheet of a text, within an allowance of rounds.
pub fn whole(text: &[u8], allowance: u16) -> Sheet
    ensures { IsWhole WordSheetFor text.now allowance result }
{
    let answer = judging::judge(text, allowance);
    let mut bytes = [0; LONGEST];
    let size = put_words(&mut bytes, text, answer.verdict);
    Sheet { bytes, size }
}

// Writes the word sheet of a text, within an allowance of rounds, from the buffer's start and changes nothing past it; a buffer that is too short stays
// as it is.
pub fn write(text: &[u8], allowance: u16, buffer: &mut [u8]) -> Written
    ensures { Writes WordSheetFor text.now allowance buffer.old result buffer.new }
{
    sheet::copy(whole(text, allowance), buffer)
}
