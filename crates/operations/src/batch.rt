// 12 open, 13 keep, 14 take back: 45 where the batch is not as the operation needs it.
ghost use Rattle.std.specs.Prelude.{◌≤◌, length};
ghost use Rattle.rules.specs.Pages.{books_of};
ghost use Rattle.rules.specs.Step.{open_batch, keep_batch, take_back};
ghost use Rattle.journal.specs.Books.{Booked, Settled};
ghost use Rattle.operations.specs.Batched.{Batched};

use journal::{back, page};
use rules::answer::{Answer, Refusal, Refused};
use rules::profile::Profile;

pub fn open(j: &mut [u8]) -> Answer
    requires { 1 ≤ length j.old }
    ensures { Batched open_batch j.old j.new result }
{
    if page::is_open(j) {
        return Err(Refused::new(Refusal::BatchOutOfTurn, 0));
    }
    page::open(j);
    Ok(0)
}

pub fn keep(j: &mut [u8]) -> Answer
    requires { 1 ≤ length j.old }
    ensures { Batched keep_batch j.old j.new result }
{
    if !page::is_open(j) {
        return Err(Refused::new(Refusal::BatchOutOfTurn, 0));
    }
    page::close(j);
    Ok(0)
}

// From the last place to the first, what stood at each key stands there again.
pub fn back(s: &mut [u8], p: Profile, places: usize, j: &mut [u8]) -> Answer
    requires { Booked p places s.old j.old }
    ensures { Settled p places (take_back (books_of p places s.old j.old)) s.old j.old s.new j.new result }
{
    if !page::is_open(j) {
        return Err(Refused::new(Refusal::BatchOutOfTurn, 0));
    }
    back::unwind(s, p, places, j);
    page::close(j);
    Ok(0)
}
