// From input bytes to output bytes: whole lines of a lent buffer are answered into a lent buffer.
#![tactic(auto)]

ghost use Rattle.std.specs.Prelude.{◌≡◌, List, ◌++◌, ℕ, ◌+◌, ◌-◌, ◌≤◌, length, take, drop, Some, None};
ghost use Rattle.program_lines.specs.Ends.{span_at};
ghost use Rattle.settings.specs.declared.refusal.Refusal.TheVariants as refusal;
ghost use Rattle.program_answers.specs.Program.{program_bytes};
ghost use Rattle.program_answers.specs.Answer.{answer_room, refused_text, line_reply};
ghost use Rattle.program_stream.specs.Steps.{Turned, Consumed, Finished};

use program_answers::ANSWER_MAX;
use program_commands::LINE_MAX;
use program_lines::Lines;
use settings::Refusal;

// Where a run of turns stands: how far it has come in the input and in the output, and whether the input goes on inside
// a line that has been answered.
#[derive(Clone, Copy)]
pub struct Place {
    pub at: usize,
    pub made: usize,
    pub skip: bool,
}

// Where a turn, or a run of them, comes to: there may be more lines, or what is left has no line feed.
#[derive(Clone, Copy)]
pub enum Step {
    More(Place),
    Rest(Place),
}

// Answers the line input[at..e] into out from `made` on. Here and below the table and the buffers stay parameters: each is
// lent for one call out of the caller's memory, and a struct of them would be taken apart again at each call.
fn answer_part(
    input: &[u8],
    at: usize,
    e: usize,
    t: &mut [u8],
    out: &mut [u8],
    made: usize,
) -> usize
    requires at_le_e { (at ≤ e) × (e ≤ length input.now) }
    requires room { (program_bytes ≤ length t.old) × (made + answer_room ≤ length out.old) }
    ensures upper_bound { result ≤ made + answer_room }
    ensures t_after { t.new ≡ (line_reply t.old (take (e - at) (drop at input.now))).bytes }
    ensures out_after { take result out.new ≡ take made out.old ++ (line_reply t.old (take (e - at) (drop at input.now))).answer }
{
    made + program_answers::answer_line(&input[at..e], t, &mut out[made..])
}

// Refuses a line into out from `made` on.
fn refuse_part(out: &mut [u8], made: usize) -> usize
    requires { made + answer_room ≤ length out.old }
    ensures upper_bound { result ≤ made + answer_room }
    ensures out_after { take result out.new ≡ take made out.old ++ refused_text refusal.Line }
{
    made + program_answers::refuse(Refusal::Line, &mut out[made..])
}

// The line that ends at e, unless it has been answered.
fn line_turn(input: &[u8], p: Place, e: usize, t: &mut [u8], out: &mut [u8]) -> Step
    requires at_in_bounds { (p.at ≤ length input.now) × (span_at input.now p.at ≡ Some e) }
    requires room { (program_bytes ≤ length t.old) × (p.made + answer_room ≤ length out.old) }
    ensures { Turned input.now p t.old out.old result t.new out.new }
{
    let at = p.at;
    let made = if p.skip {
        p.made
    } else {
        answer_part(input, at, e, t, out, p.made)
    };
    Step::More(Place {
        at: e + 1,
        made,
        skip: false,
    })
}

// What no line feed ends yet: it waits for more, unless it is too long already, or has been answered.
fn rest_turn(input: &[u8], p: Place, out: &mut [u8]) -> Step
    requires { (p.at ≤ length input.now) × (span_at input.now p.at ≡ None) × (p.made + answer_room ≤ length out.old) }
    ensures { (t : List ℕ) → Turned input.now p t out.old result t out.new }
{
    let at = p.at;
    let made = p.made;
    if p.skip {
        return Step::Rest(Place {
            at: input.len(),
            ..p
        });
    }
    if LINE_MAX < input.len() - at {
        return Step::Rest(Place {
            at: input.len(),
            made: refuse_part(out, made),
            skip: true,
        });
    }
    Step::Rest(p)
}

// One line, or the start of one that is too long: `end` is where the reader found the line's end.
fn one_turn(input: &[u8], p: Place, end: Option<usize>, t: &mut [u8], out: &mut [u8]) -> Step
    requires { (p.at ≤ length input.now) × (end ≡ span_at input.now p.at) × (program_bytes ≤ length t.old) × (p.made + answer_room ≤ length out.old) }
    ensures { Turned input.now p t.old out.old result t.new out.new }
{
    match end {
        Some(e) => line_turn(input, p, e, t, out),
        None => rest_turn(input, p, out),
    }
}

// All whole lines from `at` on, until the output has no room for one more answer: then there may be more. Left free:
// where it stops when the output is full (a line further at least, if there was room for an answer), the bytes of the
// output behind what was made, which nobody reads, and the table's bytes: of these it is said what is due on them,
// whatever follows.
pub fn consume(input: &[u8], at: usize, skip: bool, t: &mut [u8], out: &mut [u8]) -> Step
    requires at_in_bounds { at ≤ length input.now }
    requires room { program_bytes ≤ length t.old }
    ensures { Consumed input.now at skip t.old result t.new out.new }
{
    let mut l = Lines::new(input, at);
    let mut p = Place { at, made: 0, skip };
    // A `while`: what a turn leaves of the room decides whether another follows.
    while ANSWER_MAX <= out.len() - p.made {
        let end = l.next_line();
        match one_turn(l.src, p, end, t, out) {
            Step::More(next) => p = next,
            rest => return rest,
        }
        l = l.moved(p.at);
    }
    Step::More(p)
}

// The end of the input: a last line that lacks its line feed. Left free: the answer to an input with a line feed, which
// `consume` never leaves, but that it fits; and, since the run ends here, the table and the bytes of the output behind
// the answer, but for their lengths.
pub fn finish(input: &[u8], skip: bool, t: &mut [u8], out: &mut [u8]) -> usize
    requires { (program_bytes ≤ length t.old) × (answer_room ≤ length out.old) }
    ensures { Finished input.now skip t.old out.new result }
{
    if skip {
        return 0;
    }
    if input.len() == 0 {
        return 0;
    }
    program_answers::answer_line(input, t, out)
}

// Moves buf[at..end] to the start of buf, and answers how many bytes that is. The bytes behind them stay.
pub fn keep(buf: &mut [u8], at: usize, end: usize) -> usize
    requires { (at ≤ end) × (end ≤ length buf.old) }
    ensures { (result ≡ end - at) × (take result buf.new ≡ take (end - at) (drop at buf.old)) × (drop result buf.new ≡ drop result buf.old) }
{
    buf.copy_within(at..end, 0);
    end - at
}
