// What stands between two reads of an input, and one turn over the bytes at hand. No file is touched here.
ghost use Rattle.std.specs.Prelude.{◌≡◌, ◌+◌, ◌-◌, ◌≤◌, length, take, drop, if◌then◌else◌, nat_eq};
ghost use Rattle.journal.specs.Books.{Booked};
ghost use Rattle.serve.specs.Buffers.{lent};
ghost use Rattle.serve.specs.Flow.{started, Arrived, Passes, Keeps, Turned};

use requests::entry;
use requests::entry::Ran;
use rules::profile::Profile;

// Bytes at hand, at the front of the input's buffer; bytes to pass over before the next record; row lines of the next record that are written; and
// whether the input is at its end.
#[derive(Clone, Copy)]
pub struct Flow {
    pub have: usize,
    pub skip: usize,
    pub lines: usize,
    pub ended: bool,
}

// What stands after a turn, and how far the run in it came.
#[derive(Clone, Copy)]
pub struct Turn {
    pub flow: Flow,
    pub ran: Ran,
}

// Nothing is at hand yet.
pub fn start() -> Flow
    ensures { result ≡ started }
{
    Flow {
        have: 0,
        skip: 0,
        lines: 0,
        ended: false,
    }
}

// So many bytes came in behind those at hand; none: the input is at its end.
pub fn arrived(f: Flow, n: usize, input: &[u8]) -> Flow
    requires { f.have + n ≤ length input.now }
    ensures { Arrived f n result }
{
    Flow {
        have: f.have + n,
        ended: n == 0,
        ..f
    }
}

// Takes the first n of the bytes at hand away: what is left stands at the front.
fn take_away(input: &mut [u8], have: usize, n: usize)
    requires n_le_have { n ≤ have }
    requires have_in_bounds { have ≤ length input.old }
    ensures { take (have - n) input.new ≡ drop n (take have input.old) }
{
    if 0 < n {
        input.copy_within(n..have, 0);
    }
}

// Passes over what is to be passed over, as far as it is at hand.
fn pass_over(input: &mut [u8], f: Flow) -> Flow
    requires { f.have ≤ length input.old }
    ensures { Passes f input.old input.new result }
{
    let n = f.have.min(f.skip);
    take_away(input, f.have, n);
    Flow {
        have: f.have - n,
        skip: f.skip - n,
        ..f
    }
}

// Bytes that are still to be passed over, else those that a run left to be.
fn still(own: usize, more: usize) -> usize
    ensures { result ≡ (if nat_eq own 0 then more else own) }
{
    if own == 0 { more } else { own }
}

// What a run did not take stays at hand. Where bytes are still to be passed over, none was at hand for the run.
fn keep(input: &mut [u8], f: Flow, r: Ran) -> Flow
    requires taken_le_have { r.taken ≤ f.have }
    requires have_in_bounds { f.have ≤ length input.old }
    ensures { Keeps f r.taken r.skip r.lines input.old input.new result }
{
    take_away(input, f.have, r.taken);
    Flow {
        have: f.have - r.taken,
        skip: still(f.skip, r.skip),
        lines: r.lines,
        ..f
    }
}

// One turn: passes over what is to be passed over, runs the records at hand, and keeps what is left.
pub fn take_turn(
    s: &mut [u8],
    p: Profile,
    places: usize,
    j: &mut [u8],
    input: &mut [u8],
    out: &mut [u8],
    f: Flow,
) -> Turn
    requires booked { Booked p places s.old j.old }
    requires have_in_bounds { f.have ≤ length input.old }
    ensures { Turned p places f (lent s.old j.old) (lent s.new j.new) input.old input.new out.old out.new result }
{
    let g = pass_over(input, f);
    let ran = entry::run(s, p, places, j, &input[..g.have], g.ended, g.lines, out);
    let flow = keep(input, g, ran);
    Turn { flow, ran }
}
